//! A fast simulator of Verilog designs (IEEE 1364-2005).
#![tactic(auto)]

mod activation;
mod calls;
mod changes;
mod header;
mod kernel;
mod left;
mod opening;
mod queued;
mod simulated;
mod simulation;
mod waiters;
mod wake;

pub use kernel::FastKernel;
