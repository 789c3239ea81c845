//! The front of a list of Verilog tokens, and readers of the phrases of the Verilog grammar.
//!
//! What reads a phrase takes the tokens that are left of a text, and gives what it read with the tokens behind it, or a
//! [`ReadError`] at the token where reading stopped. [`next`] splits off the first token; [`after`] and [`after_word`] want a
//! mark or a word to stand first; [`listed`] reads a list with commas of anything that is an [`Element`]. The grammar itself is
//! left to the crates above.
mod element;
mod front;
mod list;
mod read_error;
mod valued;

pub use element::Element;
pub use front::{
    after, after_word, behind, next, place, starts_mark, starts_word, syntax_error, too_deep,
};
pub use list::{listed, others};
pub use read_error::ReadError;
pub use valued::{IdentifierPhrase, identifier, name, system_task, text};
