//! What the names of a factory's tests begin and end with.

ghost use Rattle.std.specs.Prelude.{◌≡◌};
ghost use Rattle.py_syntax.specs.ModuleForms;
ghost use Rattle.py_expression.specs.Phrase.Gives.{Gives};

use port_io::Name;
use py_expression::phrase::ReadError;
use py_syntax::{Const, Setting};
use std::alloc::Global;

/// A text that wasn't given before.
fn first_text(alloc: Global, given: &Option<Name>, value: &Const) -> Result<Name, ReadError>
    ensures { Gives (λ x. x) result (ModuleForms.first_text given.now value.now) }
{
    match (given, value) {
        (None, Const::Text(text)) => Ok(Name::of(alloc, text.bytes())?),
        _ => Err(ReadError::Wrong),
    }
}

/// The prefix and the postfix, with one setting more.
fn with_affix(
    alloc: Global,
    prefix: Option<Name>,
    postfix: Option<Name>,
    setting: &Setting,
) -> Result<(Option<Name>, Option<Name>), ReadError>
    ensures { Gives (λ x. x) result (ModuleForms.with_affix prefix postfix setting.now) }
{
    if setting.name.bytes() == b"prefix".as_slice() {
        let text = first_text(alloc, &prefix, &setting.value)?;
        return Ok((Some(text), postfix));
    }
    if setting.name.bytes() == b"postfix".as_slice() {
        let text = first_text(alloc, &postfix, &setting.value)?;
        return Ok((prefix, Some(text)));
    }
    Err(ReadError::Wrong)
}

/// The prefix and the postfix that settings give, where they give no other.
pub fn affixes(
    alloc: Global,
    settings: &[Setting],
) -> Result<(Option<Name>, Option<Name>), ReadError>
    ensures { Gives (λ x. x) result (ModuleForms.affixes settings.now) }
{
    let mut given = (None, None);
    for setting in settings {
        let (prefix, postfix) = given;
        given = with_affix(alloc, prefix, postfix, setting)?;
    }
    Ok(given)
}
