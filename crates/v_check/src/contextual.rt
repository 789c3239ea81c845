//! Expressions that wait for the width of their context.
//!
//! The operands of some operators take the width of the context in which an expression stands, and those of the others have
//! their own (IEEE 1364-2005, clause 5.4.1). A [`Contextual`] is an expression in which the latter are settled; [`Contextual::lower`]
//! gives it its context, and so makes it a `Term` of `gpi`. [`concatenation`] joins the parts of braces.
mod contextual;
mod parts;

pub use contextual::Contextual;
pub use parts::concatenation;
