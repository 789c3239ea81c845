//! A plain keeper of waiting tasks.
//!
//! [`WaitList`] keeps the waiting tasks as a list, in the order in which they began to wait, and goes through the whole of it in each call.
#![tactic(auto)]

mod awaits;
mod ends;
mod keeper;
mod keys;
mod named;
mod serve;
mod waiter;

pub use keeper::WaitList;
