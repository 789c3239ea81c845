//! Laws of the definitions.

ghost use Rattle.std.specs.Prelude.{ℕ, List};
ghost use Rattle.py_syntax.specs.Places.{Place, HasQuote};
ghost use Rattle.py_syntax.specs.Found.{IsMadeOf};
ghost use Rattle.py_syntax.specs.Spelled.{IsSpelled};
ghost use Rattle.py_syntax.specs.declared.piece.Piece.{Piece};

/// The pieces that a text is made of spell it.
pub fn pieces_spell_the_text()
    ensures { (place : Place) (text : List ℕ) (pieces : List Piece) → HasQuote place.mode → IsMadeOf place text pieces → IsSpelled place pieces text }
{}

/// The pieces that spell a text are those that it is made of.
pub fn spelling_pieces_are_found()
    ensures { (place : Place) (text : List ℕ) (pieces : List Piece) → IsSpelled place pieces text → IsMadeOf place text pieces }
{}
