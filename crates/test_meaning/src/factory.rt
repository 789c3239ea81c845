//! The cases of a test factory (cocotb 1.8, `cocotb.regression.TestFactory`).
//!
//! A factory has options, each with a list of values, and a case chooses one value for each of them. [`Factory`] counts the cases and
//! makes the one of a number; `specs/Product.antt` says which cases there are. How a case becomes a test, with a name and arguments, is
//! left to the crates above.
mod constant;
mod factory;
mod laws;

pub use constant::copied;
pub use factory::{Case, Factory};
pub use laws::{case_is_element, count_is_length, worked_rows};
