//! A design while it is built.
//!
//! [`Parts`] are the signals, instances and processes so far, in the order of their numbers; [`Parts::into_flat`] makes them a flat design,
//! which is sound ([`what_is_built_is_sound`]).
mod laws;
mod parts;

pub use laws::what_is_built_is_sound;
pub use parts::Parts;
