//! What operators make of what was found in their operands, and constant expressions.
//!
//! [`Checked`] is an expression that was checked: its own width, and what it is in a context. For numbers, brackets and each kind of
//! operators there is a call from what was found in the operands to what is found in the whole: [`number`], [`bracketed`], [`unary`],
//! [`binary`] and [`conditional`]. Names, and what finds the operands of a text, are left to the crates above.
//!
//! A constant is made of numbers, parameters and variables of loops (IEEE 1364-2005, clause 5). [`is_made`] tells whether an expression
//! is, and [`is_constant`] whether a name is that of one. [`constant`] and [`given_to`] lower what was found in one once, and evaluate it
//! on no signals. [`counted`] is the count of a replication or the width of an indexed part-select.
mod checked;
mod found;
mod laws;
mod made;
mod operands;
mod value;
mod waiting;

pub use checked::Checked;
pub use found::{binary, bracketed, conditional, number, sized, unary};
pub use laws::{constants_have_one_value, constants_name_no_signal};
pub use made::{is_constant, is_made};
pub use value::{constant, counted, given_to, number_or_zero};
