//! Ranges as they are declared.
//!
//! [`bounds`] are those of a range, whose two ends are constants; [`vector_bounds`] those of a vector, which has at most 128 digits, and
//! one where no range is written. How many signals such ranges make is left to the crates above.
mod range;
mod vector;

pub use range::bounds;
pub use vector::vector_bounds;
