//! The tests of an accepted tests file.
//!
//! [`tests`] goes over the items of a module from the top. Of the items above a line it knows the functions, what each factory makes tests of and
//! with which options, and the decorator that stands directly above; so a function that is a test, or a line that generates tests, takes only
//! look-ups. Which files are accepted is left to others.
mod above;
mod factories;
mod functions;
mod options;
mod table;
mod walk;
mod whole;

use above::Above;
use factories::Generation;
use options::AddedOption;
use table::Table;
pub use walk::tests;
use whole::Whole;
