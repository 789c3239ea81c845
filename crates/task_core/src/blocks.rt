//! Statements with blocks of a task, and how blocks are left (the language reference, 8).
//!
//! Each call does one step of an [`OpenCall`](crate::open_call::OpenCall), as `rig_model::task` defines it, from behind the thing that was taken
//! off its stack:
//! [`do_if`], [`do_while`], [`do_for`], [`do_try`] and [`do_with`] begin a statement, [`do_mark`] does a mark, [`enter_block`] opens the block of an
//! `async with` whose lock was acquired, and [`drop_mark`] leaves blocks up to the first mark that counts. Statements of one line are left to other
//! crates, and so is what the task does with what a step wants.
mod conditions;
mod handlers;
mod leaving;
mod locks;
mod loops;
mod marks;

pub use conditions::{do_if, do_while};
pub use leaving::drop_mark;
pub use locks::{do_with, enter_block};
pub use loops::do_for;
pub use marks::{do_mark, do_try};
