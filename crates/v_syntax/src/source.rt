//! Modules and whole texts.

use crate::{Expression, Identifier, Item, PortHead, Range};

/// A port of a header that declares its ports (IEEE 1364-2005, clause 12.3.4). Without a head of its own it has the
/// direction, kind and range of the port before it.
#[derive(Drop)]
pub struct HeaderPort {
    pub head: Option<PortHead>,
    pub name: Identifier,
}

/// The word `parameter` in a header, with its range where one is written.
#[derive(Drop)]
pub struct ParameterHead {
    pub range: Option<Range>,
}

/// A parameter of a header (IEEE 1364-2005, clause 12.2). Without a head of its own it has the range of the parameter
/// before it.
#[derive(Drop)]
pub struct HeaderParameter {
    pub head: Option<ParameterHead>,
    pub name: Identifier,
    pub value: Expression,
}

/// The ports of a header.
#[derive(Drop)]
pub enum HeaderPorts {
    /// Names alone; items declare them (IEEE 1364-2005, clause 12.3.2). Also a header without ports.
    Named(Vec<Identifier>),
    /// Declared in the header (clause 12.3.4).
    Declared(Vec<HeaderPort>),
}

/// A module (IEEE 1364-2005, clause 12.1 and annex A.1.2).
#[derive(Drop)]
pub struct Module {
    pub name: Identifier,
    pub parameters: Vec<HeaderParameter>,
    pub ports: HeaderPorts,
    pub items: Vec<Item>,
}

/// A whole text (IEEE 1364-2005, annex A.1.2).
#[derive(Drop)]
pub struct Source {
    pub modules: Vec<Module>,
    /// The byte at which each token begins, and behind them the end of the text.
    pub places: Vec<u32>,
    /// For each module, in order, the unit of time at its `module`, in femtoseconds: that of the last `timescale` directive before
    /// it (clause 19.8), and 1 ns where there is none or a `resetall` stands after it (clause 19.6).
    pub units: Vec<u64>,
    /// The least precision of all `timescale` directives, in femtoseconds (clause 19.8).
    pub step: u64,
}
