//! The names of a function's own: its parameters, and what its block assigns.
//!
//! [`own_names`] has those of one function in their places, and [`locals`] the table of their places alone.
mod assigned;
mod block;
mod numbered;

pub use block::{locals, own_names};
pub use numbered::Numbered;
