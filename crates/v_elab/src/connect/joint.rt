//! Connected ports.

use v_check::constants::Checked;
use v_loop::reads::Span;
use v_process::target::CheckedTarget;

/// What a port is joined to (IEEE 1364-2005, clauses 12.3.8 and 12.3.9).
#[derive(Drop)]
pub enum Joined {
    /// The expression that the port is assigned, and the signals that it reads.
    Value(Checked, Vec<Span>),
    /// What is assigned the value of an output.
    Target(CheckedTarget),
}

/// A connected port.
#[derive(Drop)]
pub struct Joint {
    /// The name of the port.
    pub port: Vec<u8>,
    /// What it is joined to.
    pub joined: Joined,
}

/// The connected ports of an instance.
#[derive(Drop)]
pub struct Joints {
    /// Each of them once, in the order of the connections.
    pub list: Vec<Joint>,
}
