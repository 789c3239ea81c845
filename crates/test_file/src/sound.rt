//! That accepted tests files are sound.
//!
//! [`accepted_is_sound`] is the law: in what an accepted file stands for, each call names a function of the file and has one operand for each of its
//! parameters, each test has a value for each further parameter of its function, and there are at most 65,536 tests.
mod laws;

pub use laws::accepted_is_sound;
