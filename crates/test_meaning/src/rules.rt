//! Which rule a tests file breaks first.
//!
//! [`FileRule`] lists the rules, and a [`Refusal`] is the line that breaks one. The definitions stand in `specs/`: what the items of a
//! module define (`File`), what each line uses (`Uses`), which lines break which rule, and which line is the first (`Rules`).
mod known;
mod laws;
mod rule;

pub use known::{is_always_known, is_built_in, is_exported, is_kind, is_module, is_right_value};
pub use laws::{
    above_rows, call_rows, count_rows, decorator_rows, duplicate_rows, factory_rows, form_rows,
    import_rows, kept_rows, loop_rows, name_rows, option_rows, order_rows, place_rows,
    refused_rows,
};
pub use rule::{FileRule, Refusal};
