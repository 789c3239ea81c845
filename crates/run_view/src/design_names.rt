//! The names of a design, each found by a look-up and not by a scan.
//!
//! [`DesignNames::new`] goes over the nodes of a design once, and [`DesignNames::child`] then tells what a name means that is declared in
//! one of them. A look-up takes no memory.
mod design;
mod node;

pub use design::DesignNames;
