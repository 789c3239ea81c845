//! Names that stand twice.

ghost use Rattle.std.specs.Prelude.{◌≡◌, [], ◌∷◌, ◌++◌, List, IfOk, map};
ghost use Rattle.test_meaning.specs.Rules.Names.{Name, come_twice};
ghost use Rattle.test_names.specs.Duplicates.Twice.{AreNames, IsWith};

use crate::duplicates::Named;
use name_table::Names;
use port_io::NoMemory;
use std::alloc::Global;

/// These names with one more; none where it is among them. Only want of memory is an error.
fn with_name(alloc: Global, before: Names, name: &[u8]) -> Result<Option<Names>, NoMemory>
    ensures { IfOk result (λ after. (ns : List Name) → AreNames ns before → IsWith ns (name.now ∷ []) after) }
{
    if before.find(name).is_some() {
        return Ok(None);
    }
    let mut names = before;
    names.note(alloc, name, 0)?;
    Ok(Some(names))
}

/// These names with those of further things; none where a name of theirs is among them, or stands twice. Only want of memory is an error.
pub fn with_all<T: Named>(
    alloc: Global,
    before: Names,
    found: &[T],
) -> Result<Option<Names>, NoMemory>
    ensures { IfOk result (λ after. (ns : List Name) → AreNames ns before → IsWith ns (map T.name found.now) after) }
{
    let mut names = before;
    for one in found {
        match with_name(alloc, names, one.name())? {
            Some(more) => names = more,
            None => return Ok(None),
        }
    }
    Ok(Some(names))
}

/// Whether a name of these things stands twice. Only want of memory is an error.
pub fn stand_twice<T: Named>(alloc: Global, found: &[T]) -> Result<bool, NoMemory>
    ensures { IfOk result (λ yes. yes ≡ come_twice [] (map T.name found.now)) }
{
    let names = with_all(alloc, Names::new(alloc), found)?;
    Ok(names.is_none())
}
