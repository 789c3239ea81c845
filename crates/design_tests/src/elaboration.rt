//! Verilog designs, and their values.
//!
//! A row is parted by tabs: what is asked, the row's name, the name of the module that is to be the top (`-` for none), and a text, in which
//! `\` stands before two hexadecimal digits of a byte. Asked is one of:
//!
//! - `rule`: whether the text is accepted, or which rule it breaks, and at which byte;
//! - `expression`, `body`, `hierarchy`: which signals the design of the text has, and which values after each step of a stimulus, which stands
//!   behind the text: steps, with `|` between two of them, which are deposits with a space between two of them: the number of a signal, `=`
//!   and digits, the highest first.
//!
//! Behind the name is printed what the row comes to.

mod designs;
mod digits;
mod rows;
mod values;

pub use rows::answer;
