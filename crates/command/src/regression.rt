//! The run over the tests of a file on a design: [`run_all`] begins them one after the other, gives the engine its turns, and puts the verdicts, the
//! lines of skipped tests and the closing line. It answers a [`Status`]. What a turn does is left to `scheduler`, and what the texts say to the
//! crates
//! above.
mod lines;
mod progress;
mod run;
mod status;
mod turns;

pub use run::run_all;
pub use status::Status;
