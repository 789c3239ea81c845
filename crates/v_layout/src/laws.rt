//! Laws of declarations, as functions.

ghost use Rattle.v_layout.specs.Laws.{Declarations_fit, Names_are_signals, Names_stay_signals, Scopes_are_proper};

/// What is declared without a broken rule has 1 to 128 digits, at most 65,536 words, and room in the design, also with the ports first
/// (IEEE 1364-2005, clauses 4.3.1 and 4.9).
pub fn declarations_fit()
    ensures { Declarations_fit }
{}

/// The scope of an instance is one in which expressions, targets and statements can be checked.
pub fn scopes_are_proper()
    ensures { Scopes_are_proper }
{}

/// Each declared name is a signal of the design, or as many as a memory has words, with its width.
pub fn names_are_signals()
    ensures { Names_are_signals }
{}

/// Names stay signals of a design, with their widths, when signals are added behind.
pub fn names_stay_signals()
    ensures { Names_stay_signals }
{}
