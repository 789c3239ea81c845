//! What a part of a Verilog text gives while it is elaborated, and what its names mean.
//!
//! [`Found`] is a value or what is broken first: the rules are [`ElabRule`]s, and of two that are broken in one item
//! [`earlier`] says which counts. [`Scope`] tells what a name means: a constant, or a [`DataObject`]. The definitions of both
//! stand in `specs/`, and so do the limits on widths and memories. What expressions, targets and statements are in a scope is left
//! to the crates above.
mod found;
mod limits;
mod meaning;
mod rule;
mod scope;

pub use found::Found;
pub use limits::{MOST_DIGITS, TOO_WIDE};
pub use meaning::{Bounds, DataKind, DataObject, Meaning};
pub use rule::{Broken, ElabRule, earlier};
pub use scope::Scope;
