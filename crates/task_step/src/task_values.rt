//! What the statements of a task evaluate before they do anything.
//!
//! Begin with [`eval`]: it gives the value of an expression, or why it has none, as `py_evaluate` says. All else goes through it: the values
//! and texts that statements need, the operands of calls, times, and what is waited for. Each call is one outcome, with one number of the
//! next trigger behind it; what is then done with that is left to the crates above.
mod call;
mod evaluation;
mod laws;
mod operands;
mod spans;
mod texts;
mod times;
mod waits;

pub use call::{Called, eval_call};
pub use evaluation::{eval, eval_all, eval_some};
pub use laws::waits_are_outcomes;
pub use operands::{Argument, eval_operands};
pub use spans::eval_span;
pub use texts::{eval_text, short_text};
pub use times::{Time, eval_time, time_steps};
pub use waits::{
    Acquiring, TimedCall, eval_items, eval_limit, eval_lock, eval_room, eval_timed_call, eval_wait,
    limited,
};
