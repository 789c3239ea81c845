//! Values of a tests file, the triggers among them, and how values are shown.
//!
//! [`Value`] is what an expression of a tests file gives, and [`Fault`] what an operation raises in place of a value. A
//! trigger, [`Trig`], is a tree, which contracts see without where its parts lie in memory. [`truth`] tells whether a value
//! counts as true, [`show`] gives its text, which for a signal or a hierarchy is a path that [`Paths`] tells, and [`copy`] an
//! equal value. What operators do with values stands in `py_value::operator`, and what attributes and indices give in `py_evaluate::attribute`.
//!
//! Modules that the crates above use too:
//! - [`integer`]: whole numbers as Python computes with them;
//! - [`operator`]: what operators do with values;
//! - [`time`]: times as steps, and the simulated time in a unit.
#![tactic(auto)]

mod conditions;
mod copies;
pub mod integer;
mod limits;
pub mod operator;
mod paths;
mod shown;
pub mod time;
mod trigger;
mod value;

pub use conditions::truth;
pub use copies::copy;
pub use paths::Paths;
pub use shown::{digits_name, show};
pub use trigger::{EventNo, Form, LockNo, QueueNo, TaskNo, Trig, TrigId, Trigs};
pub use value::{Fault, Value};
