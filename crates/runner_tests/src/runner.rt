//! Rows of commands and texts.
//!
//! A row is parted by tabs: what is asked, the rule that the row shows, and what is given, in whose texts `\` stands before two
//! hexadecimal digits of a byte.
//! Asked is one of:
//!
//! - `command`: the command with its words, the design `d.v` and the tests `t.py` (`-` where there is no such file), the number of
//!   the read and of the put that fails, none where these parts are left out: its status, by its number and its
//!   name, and what was put;
//! - `kept`: the same, where all these rows have one simulator, with the status by its name alone and the counts of its keys;
//! - `long`: the command with the words `d.v t.py`, of a number of bytes, a design, tests and a number of bytes: each text is cut, or
//!   filled up with spaces, to its number of bytes;
//! - `design`: what a design is read as; `tests`: what tests are read as;
//! - `turns`: a design and tests: how many keys are registered after each turn of the first test, but the one in which it ends.
//!
//! Where it is another word, the answer is `not asked`.
//!
//! Each row is answered twice, over plain parts and over those of the program `cocorun`, and what both come to is the answer.

mod answer;
mod commands;
mod designs;
mod files;
mod plain;
mod texts;
mod turns;
mod words;

pub use answer::answer;
pub use plain::PlainRunner;
