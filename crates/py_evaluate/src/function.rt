//! What the functions and methods give that an expression may call: conversions, the simulated time, triggers and clocks.
//!
//! [`called`] is a call of a function by its name, and [`method_value`] one of a method without arguments. Both number the triggers that
//! they make, upwards ([`numbers_never_fall_by_calls`]). They ask that the view knows the arguments, and give values that it knows.
//!
//! Statements that wait make triggers too: [`as_trigger`] gives the trigger of a value that [`is_waitable`], [`new_trigger`] and
//! [`new_tree`] make one, and [`unit_or_step`] reads a unit of time that may be left out.
mod argument;
mod calls;
mod forms;
mod laws;
mod making;
mod methods;
mod several;

pub use argument::unit_or_step;
pub use calls::called;
pub use laws::numbers_never_fall_by_calls;
pub use making::{new_tree, new_trigger};
pub use methods::method_value;
pub use several::{as_trigger, is_waitable};
