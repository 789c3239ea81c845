//! The command: `cocorun` reads the words and the two files, runs the tests on the design, and puts the lines. `run_process` does
//! so as a process.
//!
//! Modules that the crates above use too:
//! - [`command_words`]: the words of the command and their one reading;
//! - [`last_line`]: a sink that keeps the last line;
//! - [`made_texts`]: the texts of generated work;
//! - [`regression`]: the run over the tests of a file, one after the other.
#![tactic(auto)]

pub mod command_words;
mod decision;
mod file_runner;
mod files;
pub mod last_line;
mod laws;
mod lines;
pub mod made_texts;
mod options;
mod process;
pub mod regression;
mod state_runner;
mod top;

pub use decision::Decision;
pub use file_runner::{FileRunner, run_with};
pub use files::decide;
pub use laws::{alike_designs_run_alike, one_answer, vcd_answers_read_back};
pub use options::{RunOptions, Shown};
pub use process::run_process;
pub use state_runner::StateRunner;
pub use top::cocorun;
