//! Reads the calls that are started, what is awaited, the right sides of assignments, and writes that are no values.
mod arguments;
mod awaited;
mod call;
mod laws;
mod method;
mod placed;
mod right;
mod tokens;
mod values;
mod write;

pub use arguments::{Arguments, argument_list};
pub use awaited::{await_operand, closed_start};
pub use call::started;
pub use laws::{
    await_operands_are_read, right_sides_are_read, started_calls_are_read, write_actions_are_read,
};
pub use placed::{only_value, value_list};
pub use right::right_side;
pub use tokens::after_call;
pub use values::{value, whole_value, within};
pub use write::{closed_write_action, whole_write_action};
