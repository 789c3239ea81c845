//! A flattened design.
use crate::acts::Act;
use crate::types::SigId;
use four_value::Digit;
use port_io::{Name, Sequence};

/// The most signals, the most nodes and the most processes of a sound design.
pub const MOST_ELEMENTS: usize = 65_536;

/// A design without hierarchy: its signals and processes, numbered from 0, the tree of names, and the step of time.
#[derive(Drop)]
pub struct Flat {
    pub signals: Sequence<Signal>,
    /// Node 0 is the top.
    pub nodes: Sequence<Node>,
    pub processes: Sequence<Process>,
    /// The step, in femtoseconds.
    pub step_fs: u64,
}

/// A net, a register, or a word of a memory.
#[derive(Drop)]
pub struct Signal {
    /// The path from the top, with dots.
    pub path: Name,
    /// 1 to 128 digits.
    pub width: u8,
    /// The digit that it has everywhere at the start: z for a net, x for a register.
    pub start: Digit,
}

/// An instance of a module.
#[derive(Drop)]
pub struct Node {
    /// The path from the top, with dots.
    pub path: Name,
    /// The names that are declared in it.
    pub children: Sequence<(Name, Spot)>,
}

/// What a name of a module means.
#[derive(Clone, Copy, Debug)]
pub enum Spot {
    /// An instance: its node.
    Inner(u32),
    Sig(SigId),
    /// A memory: its words are `count` signals from `first` on, by rising index from `low` on.
    Words { first: SigId, low: u32, count: u32 },
}

/// A process: what wakes it, and what it does from its beginning to its end.
#[derive(Drop)]
pub struct Process {
    pub kind: Kind,
    pub wakes: Sequence<Wake>,
    pub body: Act,
}

/// The kinds of processes.
#[derive(Clone, Copy, Debug, PartialEq, Eq)]
pub enum Kind {
    /// A continuous assignment (clause 6.1): it runs at the start and after each change of a signal that it reads.
    Assign,
    /// `always` with an event control (clause 9.9.2): it runs after each event that it waits for.
    Always,
    /// `initial` (clause 9.9.1): it runs at the start.
    Initial,
}

/// An event that wakes a process (clause 9.7.2).
#[derive(Clone, Copy, Debug)]
pub struct Wake {
    pub sig: SigId,
    pub edge: WakeEdge,
}

/// The changes of a signal that count; for an edge those of its lowest digit.
#[derive(Clone, Copy, Debug, PartialEq, Eq)]
pub enum WakeEdge {
    /// Each change.
    Any,
    /// `posedge`
    Pos,
    /// `negedge`
    Neg,
}
