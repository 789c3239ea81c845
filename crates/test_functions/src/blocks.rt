//! The bodies of the functions of an accepted tests file, made from the back of each block.
//!
//! [`body`] makes the body that a block stands for, in which compound statements stand in place of their clauses; [`while_item`] makes one
//! of its parts.
mod block;
mod clause;
mod items;
mod tail;

pub use block::body;
pub use items::while_item;
