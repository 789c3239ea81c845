//! Packed processes: each process of a flat design as one stretch of instructions, and their running.
//!
//! [`Code`] holds the instructions of all processes; a [`Workspace`] is what running them needs. [`Code::run_process`] does one
//! activation. It means what the activation of the process's statement means (`Rattle.gpi.specs.Activation`), and takes no memory but for
//! the updates that wait.
#![tactic(auto)]

mod code;
mod compute;
mod instruction;
mod packing;
mod run;
mod stack;
mod step;
mod store;
mod workspace;

pub use code::Code;
pub use instruction::{Instruction, Mode, Place};
pub use workspace::{Touched, Workspace};
