//! Reads the lines of a module that stand outside of its functions.
mod affix;
mod factory;
mod function;
mod import;
mod kind;
mod laws;
mod line;

pub use laws::one_module_line;
pub use line::module_line;
