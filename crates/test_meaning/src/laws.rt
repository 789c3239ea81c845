//! Worked rows.

ghost use Rattle.test_meaning.specs.Rows.{Refused_rows, Whole_row, Product_rows, Name_rows, Option_rows, Order_row};
ghost use Rattle.test_meaning.specs.BodyRows.{
  Constant_rows,
  Call_rows,
  Sound_rows,
  Statement_rows,
  If_rows,
  Block_rows,
  Stray_rows,
  Function_rows,
  Clock_row,
};

/// What the check answers for five files that break a rule.
pub fn refused_rows()
    ensures { Refused_rows }
{}

/// The whole of what a file with one test stands for.
pub fn whole_row()
    ensures { Whole_row }
{}

/// A factory with x of [0, 1] and y of [0, 1, 2] has six tests, by name, and case number 3 has x = 1 and y = 0. Where y has no value
/// there is none.
pub fn product_rows()
    ensures { Product_rows }
{}

/// The names of cases: their number has three digits at least.
pub fn name_rows()
    ensures { Name_rows }
{}

/// What the options of the decorator say.
pub fn option_rows()
    ensures { Option_rows }
{}

/// In which order tests stand, and which arguments they have.
pub fn order_row()
    ensures { Order_row }
{}

/// Where a constant's value takes the place of its name.
pub fn constant_rows()
    ensures { Constant_rows }
{}

/// Which operands calls have: defaults put in, and named arguments in the place in which they are evaluated.
pub fn call_rows()
    ensures { Call_rows }
{}

/// Which calls are sound.
pub fn sound_rows()
    ensures { Sound_rows }
{}

/// What each form of a statement stands for.
pub fn statement_rows()
    ensures { Statement_rows }
{}

/// How `if`, `elif` and `else` are joined.
pub fn if_rows()
    ensures { If_rows }
{}

/// How `try` and `except` are joined, and what blocks stand for.
pub fn block_rows()
    ensures { Block_rows }
{}

/// What becomes of clauses whose statement isn't there, which no text has.
pub fn stray_rows()
    ensures { Stray_rows }
{}

/// The functions of a file, by number.
pub fn function_rows()
    ensures { Function_rows }
{}

/// The text of `Clock.start`.
pub fn clock_row()
    ensures { Clock_row }
{}
