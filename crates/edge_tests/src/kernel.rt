//! Calls of the simulator's interface, one for each row, and what each is answered.
//!
//! A row is parted by tabs: what is asked, the rule that the row shows, and what is given. Asked is one of:
//!
//! - `oscillator`, `flip_flops`, `delayed_flip_flops`, `inverter`: the simulator takes this design;
//! - `register`, `remove`: a key, which is `at`, `rise`, `fall`, `change`, `read_write`, `read_only` or `next_step`, and the time in
//!   steps or the number of the signal;
//! - `deposit`, `force`: the number of a signal, and the number that is written, or that it is forced to;
//! - `release`, `read`: the number of a signal;
//! - `advance`: one event.
//!
//! Behind the rule is printed what the call is answered (`refused` where it isn't allowed), the time and the region, and how many keys
//! were registered, removed and fired.

mod booked;
mod calls;
mod designs;
mod rows;
mod shown;

pub use booked::Book;
pub use rows::{answer, begun};
