//! The queues of a test (cocotb 1.8, `cocotb.queue.Queue`).
//!
//! [`Queues`] keeps of each queue that was made in the test its bound, its items, and the numbers of the two events that tell of items and of
//! room. [`Queues::put_now`] and [`Queues::get_now`] put an item in and take one out at once. Whether the events are set, and who waits for
//! them, is left to the crates above.
#![tactic(auto)]

mod kept;
mod queues;

pub use kept::PutAnswer;
pub use queues::Queues;
