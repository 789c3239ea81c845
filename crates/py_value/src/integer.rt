//! Whole numbers as Python's operators compute with them (the language reference, 6.6 to 6.9).
//!
//! A value of a tests file holds a number from -2^127 to 2^127 - 1. An operand may be a vector's unsigned number too, so it
//! may reach 2^128 - 1. [`Integer`] is such an operand, and each operator answers the exact result where a value can hold
//! it, and None elsewhere. No call takes memory.
pub use integer::Integer;

mod arithmetic;
mod bits;
mod division;
mod integer;
mod order;
mod shifts;
