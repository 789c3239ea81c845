//! What tasks and runs are: the definition of a task ([`task`]), of a run of the tests of a file ([`run`]), and what holds of the parts of
//! a run ([`parts`]).
//!
//! Nearly all of this crate stands in `specs/`. The trait [`task::Flow`] is what an engine asks of the maker of its tasks.
#![tactic(auto)]

pub mod parts;
pub mod run;
pub mod task;
