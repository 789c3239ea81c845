//! What simulators of designs have alike: the cases of an event over the parts that each keeps in its own way, the opening state of the signals, tests
//! of digits, a set of times, and the answer to an event that tells nothing.
//!
//! Their proofs share the definitions of `specs/`, which part an event into its cases, and the lemmas of `proofs/`.
#![tactic(auto)]

mod cases;
mod digits;
mod pushing;
mod quiet;
mod start;
mod times;

pub use cases::Simulated;
pub use digits::{are_same, low_digit, meets_edge};
pub use pushing::push_once;
pub use quiet::{own_of, unseen};
pub use start::{copy_wakes, start_nets, start_signals, unforced};
pub use times::{Times, sooner};
