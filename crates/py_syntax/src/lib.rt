//! What a Python text says: its tokens, logical lines, expressions, statements, blocks and modules, as trees and as tables.
//!
//! `Token`, `LogicalLine` and `Lines` are what a text is made of; `Piece`, `Context` and `LineRule` are the terms of the rules
//! by which it has them. `Expression`, `Statement`, `Header`, `ModuleLine` and `Module` are the trees, and `Content`,
//! `PlacedLine` and `OpenBlock` the lines of a module in their places. `Keyword`, `Function`, `Method`, `FaultKind` and the
//! operators know their names and how tightly they bind.
//!
//! The definitions in `specs/` say which bytes the tokens spell, which tokens the trees spell, and which rule a text breaks
//! first. Reading is left to other crates: `py_lex` reads the lines, `py_expression` and those above it the trees.
#![tactic(auto)]

mod call;
mod constant;
mod expression;
mod fault_kind;
mod keyword;
mod laws;
mod line;
mod line_number;
mod module;
mod operator;
mod outline;
mod piece;
mod statement;
mod token;
mod tree;

pub use call::{Argument, Awaited, RightSide, StartedCall, Timed, WriteAction};
pub use constant::Const;
pub use expression::{BinOp, BoolOp, Expression, FormatPart, Function, Method, Operation, UnOp};
pub use fault_kind::FaultKind;
pub use keyword::Keyword;
pub use laws::{pieces_spell_the_text, spelling_pieces_are_found};
pub use line::{Lines, LogicalLine};
pub use line_number::LineNumber;
pub use module::{ModuleLine, Parameter, Setting};
pub use operator::{Bracket, Operator};
pub use outline::{Content, OpenBlock, PlacedLine};
pub use piece::{Broken, Context, LineRule, Mode, OpenBracket, Piece};
pub use statement::{Action, BodyLine, Caught, Header, LogLevel, Logger, Span, Statement};
pub use token::Token;
pub use tree::{BlockItem, Module, ModuleItem};
