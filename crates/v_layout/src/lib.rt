//! The declarations of an instance, and what they give in a design.
//!
//! [`declarations`] goes over a module's header and items in a [`Place`], where the parameters have values, and gives what each name is
//! declared to be, in the order of first declarations ([`DeclaredNames`]), or the rule that is broken first. [`in_order`] lists them with
//! the ports first, as [`Line`]s. From such lines [`add_signals`] makes the signals of the design, with their paths, [`children`] the names
//! of the instance with the signals that they stand for, and [`scope`] what its names mean, its parameters too. [`path_below`] is the path
//! of what stands in an instance. Laws of these stand in `specs/Laws.antt`, and the functions of `laws` carry them. What drives the
//! signals is left to the crates above.
//!
//! Modules that the crates above use too:
//! - [`build`]: a design while it is built.
#![tactic(auto)]

pub mod build;
mod change;
mod details;
mod header;
mod laws;
mod lines;
mod meanings;
mod numbers;
mod order;
mod paths;
mod place;
mod signals;
mod so_far;
mod spots;
mod table;
mod whole;

pub use details::{Declared, Line, Sort};
pub use laws::{declarations_fit, names_are_signals, names_stay_signals, scopes_are_proper};
pub use meanings::scope;
pub use order::in_order;
pub use paths::path_below;
pub use place::Place;
pub use signals::add_signals;
pub use so_far::DeclaredNames;
pub use spots::children;
pub use whole::declarations;
