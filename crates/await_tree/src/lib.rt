//! What a task waits for, as a tree of triggers.
//!
//! [`Tree::of`] makes the tree of a trigger, or tells why it may not be waited for. [`Tree::begin`] begins it, [`Tree::fire`] tells it
//! what has happened, and [`Tree::grant`] hands it a lock. Each answers whether the tree is done, and then with which result. What is
//! waited for still is told by [`Tree::leaves`]. What the events, locks and tasks of a test are like is told by [`Facts`]. Who waits,
//! and which keys are registered, is left to the crates above.
//!
//! Modules that the crates above use too:
//! - [`ended_tasks`]: how the tasks of a test have ended;
//! - [`sync_objects`]: events and locks;
//! - [`wait_list`]: who waits for what: `Awaits`, the trait of its keeper.
#![tactic(auto)]

mod begin;
mod build;
mod calls;
mod cause;
pub mod ended_tasks;
mod finish;
mod fire;
mod grant;
mod laws;
mod leaves;
mod node;
pub mod sync_objects;
mod tree;
pub mod wait_list;

pub use begin::Facts;
pub use cause::{Awaited, Cause, Given, Step, TreeFault};
pub use laws::{
    done_is_bare, leaves_are_few, leaves_keep_order, leaves_only_go, stays_settled, trees_work,
    unawaited_is_still,
};
pub use leaves::Leaves;
pub use tree::Tree;
