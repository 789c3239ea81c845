//! A sink that keeps the last line.
//!
//! [`LastLine`] takes the lines of a run and keeps the one that was put last, for a caller that shows that line alone.
mod laws;
mod line;

pub use laws::last_is_kept;
pub use line::LastLine;
