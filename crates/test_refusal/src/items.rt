//! What an item of a tests file breaks, where a scope says what is known around it.
//!
//! [`of_own_uses`] answers for the uses of an item's own line, [`of_inner_lines`] for the lines of its block, [`imports_unknown`] for its
//! imports, [`is_stray`] for a decorator, and [`lacks_parameters`] for a function; [`made_names`] has the functions that
//! factories are for. The laws say what follows of that: which rule counts of those that the item's own line breaks, which functions are misfits,
//! which are tests, and which line is the first.
mod decorator;
mod imports;
mod laws;
mod made;
mod uses;

pub use decorator::{further, is_decorator, is_stray, lacks_parameters};
pub use imports::imports_unknown;
pub use laws::{
    decorated_by_last, first_by_items, misfit_by_parts, own_rule_by_parts, test_by_parts,
    test_with_item, tests_with_item,
};
pub use made::{made_at, made_names};
pub use uses::{of_inner_lines, of_own_uses};
