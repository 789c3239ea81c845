//! The flat design of a Verilog text.
//!
//! [`elaborate`] gives the signals, instances and processes that a text stands for, or the rule that it breaks first, with its byte
//! ([`ElabFault`]). It walks the instances from the top in the order of the text, no deeper than the levels that may stand below:
//! - `beginning` begins an instance, from a module and what it is given from outside: its parameters and declarations (`opened`), and
//!   the assignments of its connected ports (`ports`).
//! - `items` gives the state behind an item that is no instance, with its processes.
//! - `entering` finds all that has to be known before the subtree of an instance is walked, while the instance around it waits.
//! - `walk` goes over the items in turn, and into each instance among them. What is built stands behind what was built before.
//!
//! Modules that the crates above use too:
//! - [`connect`]: what the ports of an instance are connected to;
//! - [`named`]: laws of what is written in an instance.
#![tactic(auto)]

mod beginning;
mod checked;
mod closed;
pub mod connect;
mod design;
mod entering;
mod fault;
mod inner;
mod items;
mod joined;
mod kinds;
mod level;
mod lists;
pub mod named;
mod opened;
mod outside;
mod port;
mod ports;
mod processes;
mod state;
mod steps;
mod there;
mod waiting;
mod waits;
mod walk;
mod walked;
mod whole;

pub use fault::ElabFault;
pub use whole::elaborate;
