//! The values of expressions.
//!
//! [`evaluate`] gives the value of an expression, or the fault that it raises, where a task evaluates it that sees the simulation through
//! `crate::attribute::Look`, and whose names are a `crate::attribute::Locals`. The triggers that are made on the way are numbered in order, upwards
//! ([`numbers_never_fall`]), also where memory runs out ([`want_lies_on_the_way`]): those in a value are the names' or have such numbers
//! ([`triggers_are_old_or_new`]), and lie below the next one where the names' do ([`numbers_stay_below`]).
//!
//! Modules that the crates above use too:
//! - [`attribute`]: what attributes, indices and calls give of a value;
//! - [`function`]: conversions, the simulated time, triggers and clocks.
#![tactic(auto)]

pub mod attribute;
mod evaluation;
pub mod function;
mod laws;
mod operations;

pub use evaluation::{EvalFault, evaluate};
pub use laws::{
    numbers_never_fall, numbers_stay_below, triggers_are_old_or_new, want_lies_on_the_way,
};
