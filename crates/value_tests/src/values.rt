//! Operations on values.
//!
//! A row is parted by tabs: the rule that it shows, the operation, and one or two values. `values/value.rt` tells how a value is
//! written, and `values/answer.rt` which operations there are.

mod answer;
mod design;
mod operators;
mod row;
mod triggers;
mod value;

pub use answer::answer;
pub use design::design;
