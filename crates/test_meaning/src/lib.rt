//! What an accepted tests file stands for, as definitions: its functions, and its tests.
//!
//! `specs/Bodies.antt` and `specs/Library.antt` say which functions a file has, `specs/Cases.antt` which tests, and `specs/Check.antt` what
//! the check of a file answers. Each law here is worked rows of them. Making these is left to the crates above.
//!
//! Modules that the crates above use too:
//! - [`body`]: what an accepted tests file stands for: its functions and its tests;
//! - [`factory`]: the cases of a test factory;
//! - [`rules`]: the rules that a tests file may break.
#![tactic(auto)]

pub mod body;
pub mod factory;
mod laws;
pub mod rules;

pub use laws::{
    block_rows, call_rows, clock_row, constant_rows, function_rows, if_rows, name_rows,
    option_rows, order_row, product_rows, refused_rows, sound_rows, statement_rows, stray_rows,
    whole_row,
};
