//! Tasks over numbered states.
//!
//! [`StateMaker`] makes tasks of the [`StateFunctions`] of a program; what a step of one does is in `task_core`.
#![tactic(auto)]

mod flow;
mod functions;
mod maker;

pub use flow::StateFlow;
pub use functions::StateFunctions;
pub use maker::StateMaker;
