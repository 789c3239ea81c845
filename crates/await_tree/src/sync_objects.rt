//! The events and locks of a test (cocotb 1.8, "Triggers": `Event`, `Lock`).
//!
//! [`Objects`] keeps of each event that was made in the test whether it is set, and of each lock whether it is held. Who waits for them,
//! whom a set event wakes and to whom a released lock goes is left to the crates above.
mod objects;

pub use objects::Objects;
