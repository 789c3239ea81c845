//! What a task sees of a running simulation, and what a tree asks when it begins.
//!
//! [`RunView`] is a `Look` over a simulator, its design, the events, locks and queues of the test, and how its tasks have ended. [`TestFacts`] are
//! the `Facts` of events, locks and tasks, and [`begin_tree`] begins a tree by them. No call takes memory.
//!
//! Modules that the crates above use too:
//! - [`design_names`]: the names of a design, each found by a look-up;
//! - [`random_stream`]: random whole numbers, as `random.randint` draws them;
//! - [`signal_port`]: values that are written to signals, and the writes that are staged.
#![tactic(auto)]

pub mod design_names;
mod facts;
pub mod random_stream;
pub mod signal_port;
mod view;

pub use facts::{TestFacts, begin_tree};
pub use view::RunView;
