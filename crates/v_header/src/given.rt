//! The values that an instance gives to the parameters of its module.
//!
//! [`given`] checks the expressions behind an instance's `#`, and says what each open parameter is given, or what is broken first. Which
//! parameters are open, and what becomes of the values, is left to `v_header` and `v_header::parameter`.
mod named;
mod ordered;
mod values;
mod whole;

pub use whole::given;
