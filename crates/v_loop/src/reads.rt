//! The signals that an expression reads.
//!
//! [`reads`] tells them as [`Span`]s, in the order of the text: a process with `@*` and a continuous assignment wait for all of them. A
//! memory is read as a whole, and constants read nothing.
mod span;
mod walk;

pub use span::Span;
pub use walk::{reads, selects_read};
