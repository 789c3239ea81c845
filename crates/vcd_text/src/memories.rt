//! Which signals are words of memories, and which signals a text tells of.
ghost use Rattle.std.specs.Prelude.{◌≡◌, ◌∷◌, ◌++◌, [], OnOk, IfOk};
ghost use Rattle.std.specs.List.{filter, list_any};
ghost use Rattle.vcd_text.specs.Hierarchy.{traced_signals};
ghost use Rattle.vcd_text.specs.Memories.{has_word, is_outside, memories_in, memories_of};

use gpi::{Flat, Node, Spot};
use port_io::{Name, NoMemory, Sequence};
use std::alloc::Global;

/// The words of a memory: so many signals, from one on.
#[derive(Clone, Copy, Drop)]
pub(crate) struct Memory {
    first: u32,
    count: u32,
}

impl Memory {
    /// Whether a signal is one of its words.
    fn has(self, signal: usize) -> bool
        ensures { result ≡ has_word signal self }
    {
        let first = self.first as usize;
        first <= signal && signal < first + self.count as usize
    }
}

/// Adds the memory that a name stands for, if it does.
fn add_memory(memories: &mut Vec<Memory>, child: &(Name, Spot)) -> Result<(), NoMemory>
    ensures { OnOk result (memories.new.items ≡ memories.old.items ++ memories_in (child.now ∷ [])) }
{
    match child.1 {
        Spot::Words { first, count, .. } => {
            memories.push(Memory {
                first: first.0,
                count,
            })?;
            Ok(())
        }
        Spot::Sig(_) | Spot::Inner(_) => Ok(()),
    }
}

/// Adds the memories of an instance.
fn add_memories(memories: &mut Vec<Memory>, node: &Node) -> Result<(), NoMemory>
    ensures { OnOk result (memories.new.items ≡ memories.old.items ++ memories_in node.now.children) }
{
    for at in 0..node.children.len() {
        add_memory(memories, node.children.get(at))?;
    }
    Ok(())
}

/// The memories of all instances. Only want of memory is an error.
fn all_memories(alloc: Global, nodes: &Sequence<Node>) -> Result<Vec<Memory>, NoMemory>
    ensures { IfOk result (λ memories. memories.items ≡ memories_of nodes.now) }
{
    let mut memories = Vec::new(alloc);
    for at in 0..nodes.len() {
        add_memories(&mut memories, nodes.get(at))?;
    }
    Ok(memories)
}

/// Whether a signal is a word of one of the memories.
fn is_among(memories: &[Memory], signal: usize) -> bool
    ensures { result ≡ list_any (has_word signal) memories.now }
{
    memories.iter().any(|memory| memory.has(signal))
}

/// Adds a signal that is no word of one of the memories.
fn add_signal(signals: &mut Vec<usize>, memories: &[Memory], signal: usize) -> Result<(), NoMemory>
    ensures { OnOk result (signals.new.items ≡ signals.old.items ++ filter (is_outside memories.now) (signal ∷ [])) }
{
    if is_among(memories, signal) {
        return Ok(());
    }
    signals.push(signal)?;
    Ok(())
}

/// The signals that are no words of memories, by rising number. Only want of memory is an error.
pub(crate) fn traced_signals(alloc: Global, flat: &Flat) -> Result<Vec<usize>, NoMemory>
    ensures { IfOk result (λ signals. signals.items ≡ traced_signals flat.now) }
{
    let memories = all_memories(alloc, &flat.nodes)?;
    let mut signals = Vec::new(alloc);
    for signal in 0..flat.signals.len() {
        add_signal(&mut signals, &memories, signal)?;
    }
    Ok(signals)
}
