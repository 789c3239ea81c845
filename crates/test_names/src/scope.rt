//! What is known around each line of a tests file.
//!
//! [`Tables`] has where the names of a module are defined, and [`FileScope`] is the `Scope` of `test_names::uses` that goes by them. Which names
//! are a function's own is left to others.
mod item;
mod judge;
mod laws;
mod scope;
mod tables;

pub use item::parameters_at;
pub use laws::names_alone_matter;
pub use scope::FileScope;
pub use tables::Tables;
