//! Which digits of nets are driven.
//!
//! A digit of a net that is no input is driven at most once: by the target of a continuous assignment or by an output of an instance. The
//! standard would resolve several drivers (IEEE 1364-2005, clause 4.6.1); here a second one breaks a rule.
//! [`DrivenDigits`] are those that are driven so far in one instance, and a [`Drive`] is some more of them. Inputs, the walk over targets,
//! and which digits a select chooses, are left to the crates above.
mod digits;
mod drive;

pub use digits::DrivenDigits;
pub use drive::Drive;
