//! Tasks over trees: the plain maker of tasks, which keeps places in the trees of the file.
//!
//! [`TreeMaker`] makes tasks of the [`TreeFunctions`] of a file; what a step of one does is in `task_core`, and [`Tree`] is the place of which it
//! does the first statement.
#![tactic(auto)]

mod flow;
mod functions;
mod maker;
mod tree;

pub use flow::TreeFlow;
pub use functions::TreeFunctions;
pub use maker::TreeMaker;
pub use tree::Tree;
