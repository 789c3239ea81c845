//! The law of the remainder, over the definition of a run: what a task has still to do that never comes is without effect.
//!
//! Begin with `specs/Remainder.antt`. There is no code that runs.
mod laws;

pub use laws::{remainder_behind_a_mark, remainder_of_a_run, remainder_of_a_step};
