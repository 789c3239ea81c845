//! The targets of assignments.
//!
//! [`named`] says what is found in a name with selects where it is assigned to, in a procedure or continuously ([`Manner`]): a target of
//! `gpi` and its width, or what is broken first. [`driven_digits`] are the digits of a net that such a target drives. Targets in braces are
//! left to the crates above.
mod checked;
mod driven;
mod name;

pub use checked::CheckedTarget;
pub use driven::driven_digits;
pub use name::named;
pub use v_flat::Manner;
