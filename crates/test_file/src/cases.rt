//! The tests of an accepted tests file: their names, their options, their arguments.
//!
//! [`own_case`] is the test that a decorated function is by itself, and [`factory_cases`] has the cases of a factory. They are made of
//! [`case_name`], the name of a case, [`arguments`], a value for each of a function's further parameters, and [`test_case`], a test with the
//! decorator's options.
mod cases;
mod factories;
mod given;
mod names;
mod options;

pub use cases::test_case;
pub use factories::{TestedFunction, factory_cases, own_case};
pub use given::arguments;
pub use names::case_name;
