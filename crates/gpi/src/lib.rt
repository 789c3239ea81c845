//! The interface of a simulator of Verilog designs (IEEE 1364-2005), and the designs that it is given.
//!
//! [`Flat`] is a design without hierarchy: signals, and processes over them, whose statements are [`Act`]s and whose
//! expressions are [`Term`]s. [`Gpi`] is a simulator of such a design: it is asked for one event after the other, and keys
//! that were registered fire. What an activation, an event and a deposit are is defined in `specs/`.
#![tactic(auto)]

mod acts;
mod both_ok;
mod depths;
mod design;
mod interface;
mod laws;
mod operators;
mod parents;
mod selects;
mod soundness;
mod stretches;
mod targets;
mod terms;
mod tree;
mod types;

pub use acts::{Act, Acts, CaseKind, Label, placed};
pub use design::{Flat, Kind, MOST_ELEMENTS, Node, Process, Signal, Spot, Wake, WakeEdge};
pub use interface::Gpi;
pub use laws::{forced_signals_stay, released_nets_show};
pub use operators::{Arith, Compare, Logic, Reduce, Shift, Unary, chosen};
pub use selects::{Order, Overlap, Range, Words};
pub use targets::{Object, Target};
pub use terms::Term;
pub use types::{
    Advance, Counts, Delayed, Fired, Key, LATEST_TIME, LATEST_UPDATE, Moved, Region, Report, SigId,
    Told, Update, Write,
};
