//! Where the names of a tests file are defined: as constants, as functions, as factories, and as whatever.
//!
//! [`defined`] tells the name that one item defines as one kind, and [`table`] the first item of each name; [`names_of`] and
//! [`name_table`] do so for all that is defined, by imports too. That a name is defined twice is left to others.
mod item;
mod laws;
mod tables;

pub use item::{Kind, defined, names_of};
pub use laws::{
    above_by_place, any_by_place, constants_are_defined, factories_are_defined, found_at_place,
    functions_are_defined, functions_have_parameters, names_are_defined,
};
pub use tables::{name_table, table};
