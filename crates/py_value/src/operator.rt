//! What Python's operators do with values (the language reference, 6.6 to 6.11).
//!
//! [`binary`] and [`unary`] give the value of an operator or the fault that it raises. Where an operation breaks several rules,
//! TypeError comes first, then ValueError, ZeroDivisionError and OverflowError. [`is_same`] is `is`, and [`int`] is the call
//! `int(..)`. Operators see numbers of values, [`Number`], which for a vector is its unsigned number; a vector with an x or z digit
//! has none that is known. The definitions are over mathematical integers, which `py_value::integer` computes with.
mod arithmetic;
mod comparison;
mod identity;
mod number;
mod operation;

pub use identity::is_same;
pub use number::{Number, int, number_of, one_number, whole};
pub use operation::{binary, operated, unary};
