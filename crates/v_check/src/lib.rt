//! What is found in a whole expression.
//!
//! [`check`] goes over an expression once, and says what is broken first in it, or its width and what it is in each context. [`constant`]
//! is the value of an expression that has to be a constant, [`selects`] the selects behind a name, as targets in procedures have them too
//! ([`fixed_selects`] those of other targets, whose indices are constants), and [`term`] what an expression is in one context.
//!
//! Modules that the crates above use too:
//! - [`constants`]: what operators make of their operands, and constant expressions;
//! - [`contextual`]: expressions that wait for the width of their context;
//! - [`names`]: names with selects: bits, parts and words of memories;
//! - [`parts`]: concatenations and replications.
#![tactic(auto)]

mod behind_names;
pub mod constants;
mod context;
pub mod contextual;
pub mod names;
pub mod parts;
mod walk;

pub use behind_names::{fixed_selects, selects};
pub use context::term;
pub use walk::{check, constant};
