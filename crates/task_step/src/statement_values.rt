//! What statements of a task make of values that are there: writes, draws, acts, texts, and what an `except` catches.
//!
//! [`write_of`] gives what a signal gets from a value or an action, [`drawn`] the numbers of `random.randint`, [`act_of`] what a method such as
//! `set()` asks for, [`queue_of`] the queue that a value is, [`queue_bound`] the bound of a new one, [`logged_for`] what a line is logged for.
//! [`log_text`] is the text of a log statement, and [`catches`] tells which faults an `except` catches.
mod acts;
mod draws;
mod filling;
mod handlers;
mod queues;
mod texts;
mod writes;

pub use acts::{act_of, logged_for};
pub use draws::{Draw, drawn};
pub use handlers::{catches, catches_kind, same_kind};
pub use queues::{queue_bound, queue_of};
pub use texts::log_text;
pub use writes::{SignalWrite, Source, write_of};
