//! Reading the items of Verilog modules.
//!
//! [`item`] reads one module item at the front of some tokens. Statements and expressions are read by the crates below. The
//! crate above also takes from here the parts that a module's header shares with items.
mod assignments;
mod declarations;
mod instances;
mod items;
mod kinds;
mod parts;
mod processes;

pub use items::{item, starts_item};
pub use parts::{maybe_range, port_head, starts_direction, value};
