//! Names with selects: bits, parts and words of memories.
//!
//! [`CheckedSelects`] are the selects behind a name whose expressions were checked, all of them, whatever the name is; [`by_itself`]
//! makes an index of what was found in its expression, and [`fixed_index`] one of the value of a constant. [`named`] says what is found
//! in a name with them.
mod bounds;
mod choice;
mod name;
mod selects;
mod waiting;

pub use bounds::{range, range_size, width, word_count, words};
pub use choice::{Choice, chosen};
pub use name::{named, second_select};
pub use selects::{CheckedSelect, CheckedSelects, by_itself, fixed_index};
