//! The first line of a tests file that breaks a rule.
//!
//! [`first_fault`] goes through a module once, from the top, over tables of what the whole file defines. What a file that breaks no rule becomes
//! is left to others.
//!
//! Modules that the crates above use too:
//! - [`items`]: what an item breaks, where a scope says what is known around it;
//! - [`makers`]: the factories so far, for a pass from the top;
//! - [`settings`]: whether a decorator's options are right;
//! - [`values`]: what the constants stand for.
#![tactic(auto)]

mod fault;
mod item;
pub mod items;
pub mod makers;
mod options;
mod own;
mod place;
mod seen;
pub mod settings;
mod step;
pub mod values;
mod whole;

pub use fault::first_fault;
use place::Place;
use seen::{Seen, Step};
use whole::Whole;
