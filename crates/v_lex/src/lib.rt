//! The tokens of a Verilog text: what its bytes spell, and what its directives set.
//!
//! Begin with `lex`, which gives `Tokens` or the first rule that the text breaks, a `LexFault`. The lexical rules are those
//! of IEEE 1364-2005, clauses 3 and 19; they stand in `specs/`. Whether the tokens make modules is asked of `v_parse`.
#![tactic(auto)]

mod base;
mod bytes;
mod directive;
mod directives;
mod fault;
mod gaps;
mod laws;
mod marks;
mod names;
mod numbers;
mod pieces;
mod runs;
mod scanner;
mod state;
mod texts;
mod tokens;
mod words;

pub use fault::LexFault;
pub use laws::{conditionals, one_row, units};
pub use scanner::lex;
pub use tokens::Tokens;
