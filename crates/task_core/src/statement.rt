//! The statements of one line, and what is done with a value that is given.
//!
//! Begin with [`statement`]: it does one statement of an open call of a task. [`use_value`] does what a call was to do with a value, once that is
//! there. Each is the whole of a step: what is evaluated, by `task_step::task_values`, and how the step ends, by [`open_call`](crate::open_call). Both take
//! the call as it stands
//! when the statement, or the mark of the use, was taken off, and the number of the task's next trigger. Statements with blocks, and the marks of
//! these, are left to the crates above.
mod acts;
mod awaits;
mod evaluations;
mod queues;
mod right_sides;
mod signals;
mod statements;
mod throws;
mod uses;

pub use statements::statement;
pub use uses::use_value;
