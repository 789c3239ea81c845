//! Expressions of an accepted tests file, with the values of constants in place of their names.
//!
//! [`Meanings`] is what names, constants and functions mean where a body stands; [`expression`] and [`expressions`] go by it. [`constant`] is
//! the expression of a value, and [`name`], [`binary`], [`choice`] and [`function_call`] make others of their parts.
mod made;
mod meanings;
mod trees;

pub(crate) use made::method_call;
pub use made::{binary, choice, constant, function_call, name};
pub use meanings::{CalledFunction, Meanings};
pub use trees::{expression, expressions};
