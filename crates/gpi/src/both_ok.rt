//! Two values of which either may be wanting.
ghost use Rattle.std.specs.Prelude.{◌≡◌, IfOk, IsOk, Ok};

use port_io::NoMemory;

/// Both values. Want of memory of either is the only error.
///
/// A function of its own, as `port_io::boxed` is: a caller that waits with one value for the other would have to drop it.
pub(crate) fn both_ok<A: Drop, B: Drop>(
    a: Result<A, NoMemory>,
    b: Result<B, NoMemory>,
) -> Result<(A, B), NoMemory>
    ensures made { IfOk result (λ made. (a ≡ Ok made.0) × (b ≡ Ok made.1)) }
    ensures ok { IsOk a → IsOk b → IsOk result }
{
    let a = a?;
    Ok((a, b?))
}
