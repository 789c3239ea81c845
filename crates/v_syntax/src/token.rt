//! The kinds of tokens.

use crate::{Keyword, Mark, ReservedWord, SystemTask};
use four_value::Bits;
use port_io::Name;

/// A token of Verilog (IEEE 1364-2005, clause 3).
#[derive(Drop)]
pub enum Token {
    /// An identifier (clause 3.7), seen as its bytes.
    Name(Name),
    /// A keyword that the grammar has a place for.
    Keyword(Keyword),
    /// A reserved word that the grammar has no place for: no name, and nothing else either.
    Reserved(ReservedWord),
    /// `$dumpfile` or `$dumpvars`.
    SystemTask(SystemTask),
    /// A number (clause 3.5), seen as its digits, lowest first.
    Number(Bits),
    /// A text (clause 3.6), seen as the bytes between its quotes.
    Text(Name),
    /// An operator or a mark.
    Mark(Mark),
}
