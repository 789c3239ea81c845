//! Lists that grow at their ends.

ghost use Rattle.std.specs.Prelude.{◌≡◌, [], ◌∷◌, ◌++◌, OnOk, OnErr};

use port_io::NoMemory;

/// Puts one more at the end of a list. Only want of memory is an error, and it leaves the list as it was.
///
/// It is one function for lists of anything, so that its proof needn't tell how each kind of element is let go where memory runs
/// out.
pub fn push<T: Drop>(list: &mut Vec<T>, one: T) -> Result<(), NoMemory>
    ensures added { OnOk result (list.new.items ≡ list.old.items ++ (one ∷ [])) }
    ensures kept { OnErr result (list.new.items ≡ list.old.items) }
{
    list.push(one)?;
    Ok(())
}
