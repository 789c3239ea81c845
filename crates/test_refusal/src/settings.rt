//! Whether a decorator's options are right.
//!
//! [`Values`] is what constants of a file stand for, and [`are_right_settings`] answers for the options of one decorator;
//! [`chosen_value`] is the value of one.
mod settings;
mod values;

pub use settings::{are_right_settings, chosen_value};
pub use values::Values;
