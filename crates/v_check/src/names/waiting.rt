//! Values that wait beside others.
//!
//! A function over any type: where a term waits in a function over terms for what may fail, that function has to let it go.

ghost use Rattle.std.specs.Prelude.{◌≡◌, IfOk, IsOk, Ok};

use port_io::NoMemory;

/// A value that may be wanting, and one that is there. Want of memory of the first is the only error.
pub(crate) fn beside<A: Drop, B: Drop>(
    first: Result<A, NoMemory>,
    second: B,
) -> Result<(A, B), NoMemory>
    ensures made { IfOk result (λ made. (first ≡ Ok made.0) × (made.1 ≡ second)) }
    ensures ok { IsOk first → IsOk result }
{
    Ok((first?, second))
}
