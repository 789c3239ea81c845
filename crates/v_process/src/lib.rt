//! Processes of an instance.
//!
//! [`continuous`] and [`net`] are what continuous assignments are, alone and in the declaration of a net, [`register`] is the assignment of
//! an opening value in the declaration of a register, and [`always`] and [`initial`] are procedures: each says what is broken first, or
//! gives the process of `gpi`. A statement of a procedure is gone over once (`walk`); loops are unrolled, and each turn is walked in a
//! scope of its own. [`input`] and [`output`] are the assignments of connected ports, of what was found in their connections. What a
//! process waits for is given from outside, but for an output's. Instances, and how many processes there may be, are left to the crates
//! above.
//!
//! Modules that the crates above use too:
//! - [`act`]: what statements are, from what was found in their parts;
//! - [`assign`]: the targets of assignments, whole: names with selects, and braces;
//! - [`drive`]: which digits of nets are driven;
//! - [`outputs`]: what an output of an instance is connected to;
//! - [`target`]: the target that one name with selects is.
#![tactic(auto)]

pub mod act;
pub mod assign;
pub mod drive;
mod drivers;
mod header;
mod labels;
mod last_value;
pub mod outputs;
mod ports;
mod procedures;
mod registers;
pub mod target;
mod walk;

pub use drivers::{continuous, net};
pub use ports::{input, output};
pub use procedures::{always, initial};
pub use registers::register;
