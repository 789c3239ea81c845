//! What is found in the braces of concatenations and replications.
//!
//! [`Parts`] are parts of braces that were checked. They are put together from the last part to the first: [`Parts::none`] and
//! [`Parts::before`]. [`concatenation`] and [`replication`] say what is found in the whole. What finds the parts of a text, and the
//! count of a replication, is left to the crates above.
mod braces;
mod parts;

pub use braces::{concatenation, replication};
pub use parts::{Parts, sum};
