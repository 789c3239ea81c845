//! Whether the arguments of a call fit the parameters of a function.
//!
//! [`fits`] answers for one call; [`numbers`] and [`place_of`] tell which parameter an argument is for,
//! and [`mark`] notes it. Whether there is such a function, and where it may be called, is left to others.
mod arguments;

pub use arguments::{fits, mark, numbers, place_of};
