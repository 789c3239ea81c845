//! The factories of a tests file so far, for a pass over its items from the top.
//!
//! [`Makers`] keeps of each factory what the items above a line add to it: which options it has, how many cases they make, and whether its tests
//! were generated. [`Makers::with_item`] goes one item down; [`Makers::has_right_options`] and [`Makers::tests_at`] answer for the item below. How
//! the cases become tests is left to others.
mod added;
mod limit;
mod made;
mod makers;
mod options;
mod tally;

pub use added::Added;
pub use limit::{TEST_LIMIT, cut};
pub use makers::Makers;
