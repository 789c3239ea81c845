//! Tasks: what each step of one does, whatever form the code of its functions has, and tasks that keep numbers of states.
//!
//! [`code`] is that form as a trait: a place has a first statement and a place behind it. [`open_call`] is a call that isn't over, [`statement`] and
//! [`blocks`] do a statement of one line and begin or end a block, and [`flow`] is the whole task. [`states`] is the form of the program that
//! `task_compile` makes: a place is a number.
#![tactic(auto)]

pub mod blocks;
pub mod code;
pub mod flow;
pub mod open_call;
pub mod statement;
pub mod states;

pub use states::{Numbered, numbered_functions};
