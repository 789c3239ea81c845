//! Laws of constant expressions.

ghost use Rattle.v_check.specs.Constants.Constants.{Constants_have_one_value, Constants_name_no_signal};

/// What is made of constants names no signal.
pub fn constants_name_no_signal()
    ensures { Constants_name_no_signal }
{}

/// What is made of constants has one value in each context, whatever the signals are.
pub fn constants_have_one_value()
    ensures { Constants_have_one_value }
{}
