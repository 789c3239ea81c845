//! Which names stand twice: definitions of a module, parameters of a function, options of a decorator.
//!
//! [`with_item`] adds what an item defines to the names that the items above define, and answers none where the item defines a name twice.
//! [`with_all`] does so for any names, and [`stand_twice`] answers whether one of some names stands twice.
mod item;
mod named;
mod names;

pub use item::with_item;
pub use named::Named;
pub use names::{stand_twice, with_all};
