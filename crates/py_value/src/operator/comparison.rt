//! `==`.
ghost use Rattle.std.specs.Prelude.{◌≡◌};
ghost use Rattle.py_value.specs.Operator.Operation as meaning;
ghost use Rattle.py_value.specs.Operator.Means.{means};

use crate::Value;
use crate::operator::Number;
use crate::operator::identity::is_same;
use crate::operator::number::number_of;
use py_syntax::FaultKind;

/// Whether values with these numbers are equal, where without regard to numbers they are the same or not.
fn same_or_equal(a: Number, b: Number, same: bool) -> Result<bool, FaultKind>
    ensures { result ≡ meaning.same_or_equal (means a) (means b) same }
{
    match (a, b) {
        (Number::Missing, _) | (_, Number::Missing) => Ok(same),
        (Number::Unknown, _) | (_, Number::Unknown) => Err(FaultKind::ValueError),
        (Number::Known(a), Number::Known(b)) => Ok(a.is_same(b)),
    }
}

/// `a == b`: by number where both have one, which for a vector with an x or z digit is a ValueError; else as `is` does.
pub(crate) fn equal(a: &Value, b: &Value) -> Result<bool, FaultKind>
    ensures { result ≡ meaning.equal a.now b.now }
{
    same_or_equal(number_of(a), number_of(b), is_same(a, b))
}
