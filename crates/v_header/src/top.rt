//! The modules of a text, and which of them is the top.
//!
//! [`module_numbers`] finds that no two modules have one name, and where each stands. [`Modules`] tells by that which module a name means
//! ([`Modules::find`]), which one is the top ([`Modules::top`]) and what its delays go by ([`Modules::timing`]). These are look-ups, and no scans.
mod modules;
mod numbers;
mod unused;

pub use modules::Modules;
pub use numbers::module_numbers;
