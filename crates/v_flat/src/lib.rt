//! What elaboration is: the design that a Verilog text stands for, or the first rule that it breaks.
//!
//! Nearly all of it are definitions, in `specs/`, over the trees of `v_syntax`: `flatten` in `Design`, and below it what a
//! module declares (`Headers`, `Declarations`), what statements do (`Statements`), what targets drive and get (`Targets`), what
//! is broken in an expression (`Checks`) and what its value is (`Expressions`). Of the code there are the classes of operators,
//! [`unary_class`] and [`binary_class`], which objects an assignment may be to ([`Manner`]), how many steps a delay is ([`Timing`]), and functions that
//! carry laws of the definitions. The code that elaborates is left to the crates above.
//!
//! Modules that the crates above use too:
//! - [`scope`]: what names mean in a part of a text, and the rules that a text may break;
//! - [`shape`]: laws of the shape of a design.
#![tactic(auto)]

mod laws;
mod manner;
mod operators;
pub mod scope;
pub mod shape;
mod timing;

pub use laws::{digits_are_driven_once, widths_are_found, worked_designs};
pub use manner::Manner;
pub use operators::{BinaryClass, UnaryClass, binary_class, unary_class};
pub use timing::Timing;
