//! The design whose signals and hierarchies the rows name.

use four_value::Digit;
use gpi::{Flat, Node, Signal};
use port_io::{Name, NoMemory, Sequence};
use std::alloc::Global;

/// A signal of eight bits.
fn signal(alloc: Global, path: &[u8]) -> Result<Signal, NoMemory> {
    Ok(Signal {
        path: Name::of(alloc, path)?,
        width: 8,
        start: Digit::X,
    })
}

/// A node without children.
fn node(alloc: Global, path: &[u8]) -> Result<Node, NoMemory> {
    Ok(Node {
        path: Name::of(alloc, path)?,
        children: Sequence::new(alloc),
    })
}

/// Signals `top.a`, `top.inner.b`, `clk`; nodes `top`, `top.inner`.
pub fn design(alloc: Global) -> Result<Flat, NoMemory> {
    let mut signals = Sequence::new(alloc);
    signals.push(signal(alloc, b"top.a")?)?;
    signals.push(signal(alloc, b"top.inner.b")?)?;
    signals.push(signal(alloc, b"clk")?)?;
    let mut nodes = Sequence::new(alloc);
    nodes.push(node(alloc, b"top")?)?;
    nodes.push(node(alloc, b"top.inner")?)?;
    Ok(Flat {
        signals,
        nodes,
        processes: Sequence::new(alloc),
        step_fs: 1,
    })
}
