//! Worked rows.

ghost use Rattle.test_meaning.specs.Rules.Rows.{
  Refused_rows,
  Kept_rows,
  Import_rows,
  Name_rows,
  Place_rows,
  Form_rows,
  Above_rows,
  Call_rows,
  Loop_rows,
  Decorator_rows,
  Duplicate_rows,
  Option_rows,
  Factory_rows,
  Count_rows,
  Order_rows,
};

/// Seven files, one for each rule, are refused by that rule at its line.
pub fn refused_rows()
    ensures { Refused_rows }
{}

/// A file with one test, and one with 65,536, keep all rules.
pub fn kept_rows()
    ensures { Kept_rows }
{}

/// All that may be imported is, and other names are not.
pub fn import_rows()
    ensures { Import_rows }
{}

/// Which names are known, and which of them are values.
pub fn name_rows()
    ensures { Name_rows }
{}

/// A name that nothing defines is found in each part of an expression, of a statement and of a header.
pub fn place_rows()
    ensures { Place_rows }
{}

/// Which forms want an import.
pub fn form_rows()
    ensures { Form_rows }
{}

/// What has to stand above the line that names it.
pub fn above_rows()
    ensures { Above_rows }
{}

/// Which arguments fit.
pub fn call_rows()
    ensures { Call_rows }
{}

/// Where `break` and `continue` may stand.
pub fn loop_rows()
    ensures { Loop_rows }
{}

/// Where a decorator may stand, and which parameters a test needs.
pub fn decorator_rows()
    ensures { Decorator_rows }
{}

/// What is defined twice.
pub fn duplicate_rows()
    ensures { Duplicate_rows }
{}

/// Which options a decorator may have.
pub fn option_rows()
    ensures { Option_rows }
{}

/// Which options a factory may have, and when its tests may be generated.
pub fn factory_rows()
    ensures { Factory_rows }
{}

/// Files without a test, and files with too many.
pub fn count_rows()
    ensures { Count_rows }
{}

/// Which line counts first, and which rule on one line.
pub fn order_rows()
    ensures { Order_rows }
{}
