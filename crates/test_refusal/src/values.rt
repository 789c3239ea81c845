//! What the constants of a tests file stand for.
//!
//! A constant stands for the literal of its line, or where that is the name of a constant above it, for what that one stands for.
//! [`literal_places`] finds of each constant the item whose literal it stands for, and [`ModuleValues`] tells it by a look-up.
mod literal;
mod module;
mod places;

pub use module::ModuleValues;
pub use places::literal_places;
