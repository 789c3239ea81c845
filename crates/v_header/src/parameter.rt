//! The parameters of an instance.
//!
//! [`parameters`] gives each parameter of a module its value: the one that the instance gives it ([`Given`]), or else that of its own
//! expression, which may name the parameters before it. [`Constants`] are all of them in their order, with the scope in which
//! declarations are read.
mod constants;
mod given;
mod one;
mod parameter_list;

pub use constants::{Constant, Constants, Value};
pub use given::Given;
pub use parameter_list::parameters;
