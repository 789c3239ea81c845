//! Tasks of a tests file as their open calls.
//!
//! [`CodeFlow`] is a task, which keeps [`Flow`](rig_model::task::Flow) of `rig_model::task`: it has its open calls, and a poll does its steps up to the
//! first that wants something. [`CodeMaker`] makes such tasks, and keeps [`FlowMaker`](rig_model::task::FlowMaker). A step takes the first thing to do
//! off the innermost call, whatever its function's length. How tasks are kept, and what is done with what they want, is left to the crates above.
mod course;
mod flow;
mod maker;
mod settle;
mod step;

pub use flow::CodeFlow;
pub use maker::CodeMaker;
