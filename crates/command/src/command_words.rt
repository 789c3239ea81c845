//! The words of the command: [`read_words`] gives the one [`Reading`] that they have, or tells that they have none.
//!
//! `clap` takes the words apart. What numbers and names may be, and which of the two forms of the command stands there, is asked here.
mod arguments;
mod laws;
mod numbers;
mod reading;
mod top;

pub use laws::one_reading;
pub use reading::{Reading, WordsFault, Work};
pub use top::read_words;
