//! Imports (the language reference, 7.11).

ghost use Rattle.std.specs.Prelude.{◌≡◌};
ghost use Rattle.py_syntax.specs.ModuleTrees.{view_module_line};
ghost use Rattle.py_expression.specs.Phrase.Gives.{Gives};
ghost use Rattle.py_parse.specs.ModuleLine.Reading;

use port_io::Name;
use py_expression::phrase::{Mark, ReadError, after, elements, expect, name};
use py_syntax::{Bracket, Keyword, ModuleLine, Operator, Token};
use std::alloc::Global;

/// `import name`
pub fn import(alloc: Global, tokens: &[Token]) -> Result<(ModuleLine, &[Token]), ReadError>
    ensures { Gives (λ x. (view_module_line x.0, x.1.now)) result (Reading.import_of tokens.now) }
{
    let rest = expect(Mark::Keyword(Keyword::Import), tokens)?;
    let (name, rest) = name(alloc, rest)?;
    Ok((ModuleLine::Import(name), rest))
}

/// The names behind an `import`, perhaps in brackets.
#[tactic(auto, unfolding(crate::specs::ModuleLine::Reading::imported))]
fn imported(alloc: Global, tokens: &[Token]) -> Result<(Vec<Name>, &[Token]), ReadError>
    ensures { Gives (λ x. (x.0.items, x.1.now)) result (Reading.imported tokens.now) }
{
    let comma = Mark::Operator(Operator::Comma);
    match after(Mark::Open(Bracket::Round), tokens) {
        Some(rest) => elements(alloc, comma, Some(Mark::Close(Bracket::Round)), rest),
        None => elements(alloc, comma, None, tokens),
    }
}

/// `from package.module import name, ..`
pub fn from_import(alloc: Global, tokens: &[Token]) -> Result<(ModuleLine, &[Token]), ReadError>
    ensures { Gives (λ x. (view_module_line x.0, x.1.now)) result (Reading.from_of tokens.now) }
{
    let rest = expect(Mark::Keyword(Keyword::From), tokens)?;
    let (module, rest) = elements(alloc, Mark::Operator(Operator::Dot), None, rest)?;
    let rest = expect(Mark::Keyword(Keyword::Import), rest)?;
    let (names, rest) = imported(alloc, rest)?;
    Ok((ModuleLine::FromImport(module, names), rest))
}
