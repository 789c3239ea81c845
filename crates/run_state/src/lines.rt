//! The texts of the lines of a run, why a test fails, and how many tests passed.
//!
//! Each line is the bytes of the definition in `rig_model::run`, with its line feed, of any length: [`test_line`], [`log_line`], [`sig_line`],
//! [`skip_line`], [`verdict_line`], [`report_line`], [`budget_line`]. [`reason_of`] is why a test fails by how it ended and by its options, and
//! [`verdict_of`] what the report says of it; a [`Tally`] counts these. Only want of memory is an error.
mod lines;
mod number;
mod reasons;
mod report;
mod tally;

pub use lines::{log_line, sig_line, skip_line, test_line, verdict_line};
pub use reasons::{path_of, reason_of, verdict_of};
pub use report::{budget_line, report_line};
pub use tally::Tally;
