//! Whether a design is sound: its lists.
ghost use Rattle.std.specs.Prelude.{◌≡◌, ◌≤◌, ◌↔◌, length, IsTrue};
ghost use Rattle.gpi.specs.Limits.{most_elements};
ghost use Rattle.gpi.specs.Design.{widths};
ghost use Rattle.gpi.specs.Activation.{IsSound};
ghost use Rattle.gpi.specs.Soundness.{IsSoundFlat, AreProcesses, are_wide, are_wakes, are_spots, are_nodes, is_spot};
ghost use Rattle.gpi.specs.Stretches.{IsWidthTable};

use crate::design::{Flat, MOST_ELEMENTS, Node, Process, Signal, Spot, Wake};
use crate::parents::is_tree;
use crate::stretches::{WidthTable, note_stretches};
use four_value::MOST_DIGITS;
use port_io::{Name, Sequence};

impl Flat {
    /// Whether the design is sound: none of its lists has more than 65,536 elements; each number of a signal or a node lies
    /// in its list, and so do the words of a memory; each width is 1 to 128 and fits its node; the nodes form one tree
    /// below node 0; and the step is at least 1. It takes no memory, but 1.25 MiB of the stack at most. Its
    /// time grows with the design.
    pub fn is_sound(&self) -> bool
        ensures { IsTrue result ↔ IsSoundFlat self.now }
    {
        self.are_short()
            && are_wide(&self.signals)
            && self.has_sound_processes()
            && are_nodes(&self.nodes, self.signals.len())
            && is_tree(&self.nodes)
    }

    /// Whether no list is too long, and the step is at least 1.
    fn are_short(&self) -> bool
        ensures { IsTrue result ↔ ((length self.now.signals ≤ most_elements) × (length self.now.nodes ≤ most_elements)
            × (length self.now.processes ≤ most_elements) × (1 ≤ self.now.step_fs)) }
    {
        self.signals.len() <= MOST_ELEMENTS
            && self.nodes.len() <= MOST_ELEMENTS
            && self.processes.len() <= MOST_ELEMENTS
            && 1 <= self.step_fs
    }

    /// Whether each process is sound.
    fn has_sound_processes(&self) -> bool
        requires wide { IsTrue (are_wide self.now.signals) }
        requires few { length self.now.signals ≤ most_elements }
        ensures { IsTrue result ↔ AreProcesses self.now.processes (widths self.now.signals) }
    {
        let mut stretches = [0; MOST_ELEMENTS];
        note_stretches(&self.signals, &mut stretches);
        let table = WidthTable {
            signals: &self.signals,
            stretches: &stretches,
        };
        are_processes(&self.processes, &table)
    }
}

/// Whether each process is sound over these signals.
fn are_processes(processes: &Sequence<Process>, table: &WidthTable<'_>) -> bool
    requires { IsWidthTable table.now }
    ensures { IsTrue result ↔ AreProcesses processes.now (widths table.now.signals.now) }
{
    for at in 0..processes.len() {
        if !is_process(processes.get(at), table) {
            return false;
        }
    }
    true
}

/// Whether the body and the wakes of a process are sound.
#[tactic(auto, using(crate::proofs::Sound::signals))]
fn is_process(process: &Process, table: &WidthTable<'_>) -> bool
    requires { IsWidthTable table.now }
    ensures { IsTrue result
        ↔ (IsSound process.now.body (widths table.now.signals.now) × IsTrue (are_wakes process.now.wakes (length (widths table.now.signals.now)))) }
{
    process.body.is_sound(table) && are_wakes(&process.wakes, table.signals.len())
}

/// Whether each width is 1 to 128.
fn are_wide(signals: &Sequence<Signal>) -> bool
    ensures { result ≡ are_wide signals.now }
{
    for at in 0..signals.len() {
        let width = signals.get(at).width;
        if width < 1 || width > MOST_DIGITS {
            return false;
        }
    }
    true
}

/// Whether each wake is of one of so many signals.
fn are_wakes(wakes: &Sequence<Wake>, signals: usize) -> bool
    ensures { result ≡ are_wakes wakes.now signals }
{
    for at in 0..wakes.len() {
        if wakes.get(at).sig.0 as usize >= signals {
            return false;
        }
    }
    true
}

/// Whether a child is one of so many nodes, or of so many signals.
fn is_spot(spot: Spot, nodes: usize, signals: usize) -> bool
    requires { signals ≤ most_elements }
    ensures { result ≡ is_spot nodes signals spot }
{
    match spot {
        Spot::Inner(node) => (node as usize) < nodes,
        Spot::Sig(sig) => (sig.0 as usize) < signals,
        Spot::Words { first, count, .. } => {
            let first = first.0 as usize;
            first < signals && first + count as usize <= signals
        }
    }
}

/// Whether each child is one of so many nodes, or of so many signals.
fn are_spots(children: &Sequence<(Name, Spot)>, nodes: usize, signals: usize) -> bool
    requires { signals ≤ most_elements }
    ensures { result ≡ are_spots nodes signals children.now }
{
    for at in 0..children.len() {
        if !is_spot(children.get(at).1, nodes, signals) {
            return false;
        }
    }
    true
}

/// Whether each child of a node is one of the nodes, or of so many signals.
fn are_nodes(nodes: &Sequence<Node>, signals: usize) -> bool
    requires { signals ≤ most_elements }
    ensures { result ≡ are_nodes (length nodes.now) signals nodes.now }
{
    for at in 0..nodes.len() {
        if !are_spots(&nodes.get(at).children, nodes.len(), signals) {
            return false;
        }
    }
    true
}
