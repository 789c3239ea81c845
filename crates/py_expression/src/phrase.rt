//! Reads the pieces of which the forms of a Python text are made: marks, words, names, texts, constants, and lists of these.
//!
//! `after` and `expect` take a mark off the front of some tokens, `after_word` and `expect_word` a name that a form writes out,
//! and `name_at` any name. `elements` and `listed` read lists, over the trait `Element`. What is read is left of the tokens
//! behind it; `ReadError::Wrong` says that it doesn't stand there.
mod constant;
mod element;
mod fault;
mod list;
mod mark;
mod setting;

pub use constant::{constant_of, constants};
pub use element::{Element, name, text};
pub use fault::ReadError;
pub use list::{elements, last, listed};
pub use mark::{
    Mark, after, after_last, after_name, after_word, end_of_line, expect, expect_word, name_at,
    named_at,
};
