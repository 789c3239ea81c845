//! What an output of an instance is connected to.
//!
//! The grammar has an expression there, which has to spell a target: [`spells_target`] tells whether it does. [`output`] says what is found
//! in that target, and which digits of nets are driven then. What other ports are connected to is left to the crates above.
mod spelled;
mod walk;
mod whole;

pub use spelled::spells_target;
pub use whole::output;
