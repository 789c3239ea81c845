//! What the ports of an instance are connected to.
//!
//! [`joints`] checks the connections of an instance, and says what each connected port is joined to ([`Joint`]), which digits of nets are
//! driven then, or what is broken first. [`joint_count`] tells how many assignments they make. The assignments themselves are left to the
//! crates above.
mod connection;
mod count;
mod joined;
mod joint;
mod named;
mod ordered;
mod whole;

pub use count::joint_count;
pub use joint::{Joined, Joint, Joints};
pub use whole::joints;
