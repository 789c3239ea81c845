//! Worked rows.

ghost use Rattle.test_meaning.specs.Body.Rows.{Call_rows, Test_rows};

/// Which calls are sound: each parameter has one operand, and a clock's at most one.
pub fn call_rows()
    ensures { Call_rows }
{}

/// Which tests are sound: they have a value for each parameter after the first.
pub fn test_rows()
    ensures { Test_rows }
{}
