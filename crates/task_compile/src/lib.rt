//! Functions of a tests file as numbered states.
//!
//! [`compile`] gives each statement of each function a number, so that a task keeps a number where it would keep a place in a tree. A state has
//! its statement and the numbers of what follows it in its block and of the blocks that it has; expressions stay in the file.
#![tactic(auto)]

mod blocks;
mod compiling;
mod program;

pub use compiling::compile;
pub use program::{Action, CompiledFunction, Program, State};
