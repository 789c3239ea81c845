//! Laws of the definitions, and designs that are worked out from them.

ghost use Rattle.v_flat.specs.Laws.{Digits_are_driven_once, Widths_are_found};
ghost use Rattle.v_flat.specs.Rows.{All_rows};

/// The width that is found in an expression without a broken rule is its width.
pub fn widths_are_found()
    ensures { Widths_are_found }
{}

/// Over the items of an instance no two drives of nets have a digit in common.
pub fn digits_are_driven_once()
    ensures { Digits_are_driven_once }
{}

/// Texts for each rule and each form, with the designs that they stand for or the rule that they break.
pub fn worked_designs()
    ensures { All_rows }
{}
