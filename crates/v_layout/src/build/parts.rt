//! The parts of a design so far.

ghost use Rattle.std.specs.Prelude.{◌≡◌, ◌<◌, IfOk, length};
ghost use Rattle.gpi.specs.Design.{proc_of, widths};
ghost use Rattle.v_flat.specs.Design.{Design, no_design, with_process};
ghost use Rattle.v_flat.specs.Paths.{Path, path_text};
ghost use Rattle.v_layout.specs.Build.Parts.{HasChildren, HasNode, IsFlatOf, IsSoFar, IsSoundIn, named_nodes, opened_nodes};

use gpi::{Flat, Node, Process, Signal, Spot};
use port_io::{Name, NoMemory, Sequence};
use std::alloc::Global;

/// What is built of a design so far, each part at its number.
#[derive(Drop)]
pub struct Parts {
    /// The signals.
    pub signals: Sequence<Signal>,
    /// The instances, each with the names that are known in it so far.
    pub nodes: Vec<Node>,
    /// The processes.
    pub processes: Sequence<Process>,
}

impl Parts {
    /// Nothing yet.
    pub fn none(alloc: Global) -> Parts
        ensures { IsSoFar no_design result }
    {
        Parts {
            signals: Sequence::new(alloc),
            nodes: Vec::new(alloc),
            processes: Sequence::new(alloc),
        }
    }

    /// With an instance more, at this path, in which no name is known yet. Only want of memory is an error.
    pub fn with_node(mut self, alloc: Global, path: &[u8]) -> Result<Parts, NoMemory>
        ensures so_far { (d : Design) (p : Path) → IsSoFar d self → path_text p ≡ path.now → IfOk result (IsSoFar (opened_nodes p d)) }
        ensures made { IfOk result (HasNode self path.now) }
    {
        let node = Node {
            path: Name::of(alloc, path)?,
            children: Sequence::new(alloc),
        };
        self.nodes.push(node)?;
        Ok(self)
    }

    /// With these names known in the instance of this number, which is at this path. Only want of memory is an error.
    pub fn with_children(
        mut self,
        alloc: Global,
        node: usize,
        path: &[u8],
        children: Sequence<(Name, Spot)>,
    ) -> Result<Parts, NoMemory>
        requires { node < length self.nodes.items }
        ensures so_far { (d : Design) (p : Path) → IsSoFar d self → path_text p ≡ path.now → IfOk result (IsSoFar (named_nodes node p children d)) }
        ensures made { IfOk result (HasChildren self) }
    {
        self.nodes[node] = Node {
            path: Name::of(alloc, path)?,
            children,
        };
        Ok(self)
    }

    /// With a process more. Only want of memory is an error.
    pub fn with_process(mut self, process: Process) -> Result<Parts, NoMemory>
        requires { IsSoundIn process (widths self.signals) }
        ensures { (d : Design) → IsSoFar d self → IfOk result (IsSoFar (with_process (proc_of process) d)) }
    {
        self.processes.push(process)?;
        Ok(self)
    }

    /// The whole, where a step has so many femtoseconds. Only want of memory is an error.
    pub fn into_flat(self, alloc: Global, step_fs: u64) -> Result<Flat, NoMemory>
        ensures { IfOk result (IsFlatOf self step_fs) }
    {
        let Parts {
            signals,
            mut nodes,
            processes,
        } = self;
        nodes.reverse();
        let mut all = Sequence::new(alloc);
        while let Some(node) = nodes.pop() {
            all.push(node)?;
        }
        Ok(Flat {
            signals,
            nodes: all,
            processes,
            step_fs,
        })
    }
}
