//! The waves of runs: what their lines tell is in order of time, so that their VCD texts can be read.
//!
//! Laws over the definitions of `rig_model::run` and `vcd_text`, and no code: the contract of each function here is a law.
mod laws;

pub use laws::{changes_are_of_runs, lines_are_in_order, texts_of_runs_read_back};
