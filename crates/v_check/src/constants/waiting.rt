//! Values that wait for others, of which each may be wanting.
//!
//! These are functions over any type: where an expression waits in a function of its own for what may fail, that function has to let it go.

ghost use Rattle.std.specs.Prelude.{◌≡◌, IfOk, IsOk, Ok};

use port_io::NoMemory;

/// Both values. Want of memory of either is the only error.
pub(crate) fn both_ok<A: Drop, B: Drop>(
    first: Result<A, NoMemory>,
    second: Result<B, NoMemory>,
) -> Result<(A, B), NoMemory>
    ensures made { IfOk result (λ made. (first ≡ Ok made.0) × (second ≡ Ok made.1)) }
    ensures ok { IsOk first → IsOk second → IsOk result }
{
    let first = first?;
    Ok((first, second?))
}

/// A value that may be wanting, and one that is there. Want of memory of the first is the only error.
pub(crate) fn beside<A: Drop, B: Drop>(
    first: Result<A, NoMemory>,
    second: B,
) -> Result<(A, B), NoMemory>
    ensures made { IfOk result (λ made. (first ≡ Ok made.0) × (made.1 ≡ second)) }
    ensures ok { IsOk first → IsOk result }
{
    Ok((first?, second))
}
