//! The logical lines of a text.

ghost use Rattle.std.specs.Prelude.{◌≡◌, ℕ, ◌≤◌, length, List};
ghost use Rattle.port_io.specs.Limits.{most_bytes};
ghost use Rattle.py_syntax.specs.Places.{Place, HasQuote, first_place};
ghost use Rattle.py_syntax.specs.Spelled.{IsSpelled};
ghost use Rattle.py_syntax.specs.declared.piece.Piece.{Piece};
ghost use Rattle.py_lex.specs.Answer.{Answers, IsAnswered};

use crate::fault::{LineFault, fault_of};
use crate::scan::scan;
use py_syntax::Lines;
use std::alloc::Global;

/// The logical lines of a text (the language reference, 2.1), in the literal profile that `docs/PYTHON.md` describes.
///
/// A text that breaks a rule of lines has none: the fault names the first line that breaks one, and of its rules the one that
/// comes first in `LineFault`.
pub fn logical_lines(alloc: Global, text: &[u8]) -> Result<Lines, LineFault>
    requires { length text.now ≤ most_bytes }
    // Whatever pieces spell the text: it has the lines that they make, or the fault that they have.
    ensures exact { (pieces : List Piece) → IsSpelled first_place pieces text.now → Answers pieces result }
    // Some spell it.
    ensures made { IsAnswered text.now result }
{
    let scanner = scan(alloc, text)?;
    let (lines, broken) = scanner.finish(alloc)?;
    match broken {
        None => Ok(lines),
        Some(broken) => Err(fault_of(broken)),
    }
}

/// No text is spelled by two lists of pieces, wherever it begins.
pub fn one_reading()
    ensures { (place : Place) (text : List ℕ) (left right : List Piece) → IsSpelled place left text → IsSpelled place right text → left ≡ right }
{}

/// Every text is spelled by a list of pieces, wherever it begins: what breaks a rule of lines is a piece too.
pub fn some_reading()
    ensures { (place : Place) (text : List ℕ) → HasQuote place.mode → (pieces : List Piece) × IsSpelled place pieces text }
{}
