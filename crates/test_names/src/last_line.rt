//! The last line of a tests file.
//!
//! [`command::last_line`] is the line at which a file without a test is refused.
mod last;

pub use last::last_line;
