//! Names that are numbered as they come.

ghost use Rattle.std.specs.Prelude.{◌≡◌, [], ◌∷◌, List, IfOk};
ghost use Rattle.test_meaning.specs.Rules.Names.{Name};
ghost use Rattle.test_meaning.specs.Rules.Uses.{parameter_names};
ghost use Rattle.test_names.specs.Locals.Own.{AreNumbered, with_names};

use name_table::Names;
use port_io::{Name, NoMemory, Sequence};
use py_syntax::Parameter;
use std::alloc::Global;

/// Names of a function's own.
#[derive(Drop)]
pub struct Numbered {
    /// Each in its place. Of two parameters of one name both stand there.
    pub names: Sequence<Name>,
    /// The place of each, from 0; of two the first.
    pub places: Names,
}

/// Gives a name the next place, unless it has one. Only want of memory is an error.
fn add(alloc: Global, before: Numbered, name: &[u8]) -> Result<Numbered, NoMemory>
    ensures { IfOk result (λ after. (ns : List Name) → AreNumbered ns before → AreNumbered (with_names ns (name.now ∷ [])) after) }
{
    if before.places.find(name).is_some() {
        return Ok(before);
    }
    let Numbered {
        mut names,
        mut places,
    } = before;
    places.note(alloc, name, names.len())?;
    names.push(Name::of(alloc, name)?)?;
    Ok(Numbered { names, places })
}

/// Gives names the next places, each unless it has one. Only want of memory is an error.
pub(crate) fn add_all(alloc: Global, before: Numbered, found: &[Name]) -> Result<Numbered, NoMemory>
    ensures { IfOk result (λ after. (ns : List Name) → AreNumbered ns before → AreNumbered (with_names ns found.now) after) }
{
    let mut names = before;
    for name in found {
        names = add(alloc, names, name.bytes())?;
    }
    Ok(names)
}

/// The names of parameters, which have their places. Only want of memory is an error.
pub(crate) fn of_parameters(alloc: Global, parameters: &[Parameter]) -> Result<Numbered, NoMemory>
    ensures { IfOk result (λ after. AreNumbered (parameter_names parameters.now) after) }
{
    let mut names = Sequence::new(alloc);
    let mut places = Names::new(alloc);
    for (place, parameter) in parameters.iter().enumerate() {
        places.note(alloc, parameter.name.bytes(), place)?;
        names.push(Name::of(alloc, parameter.name.bytes())?)?;
    }
    Ok(Numbered { names, places })
}
