//! Headers of functions (the language reference, 8.7 and 8.9.1).

ghost use Rattle.std.specs.Prelude.{◌≡◌, false};
ghost use Rattle.py_syntax.specs.ModuleForms;
ghost use Rattle.py_syntax.specs.ModuleTrees.{view_module_line};
ghost use Rattle.py_expression.specs.Phrase.Gives.{Gives};
ghost use Rattle.py_parse.specs.ModuleLine.Reading;

use py_expression::phrase::{Mark, ReadError, expect, listed, name};
use py_syntax::{Bracket, Keyword, ModuleLine, Operator, Parameter, Token};
use std::alloc::Global;

/// Whether no parameter without a default follows one with a default.
fn defaults_last(parameters: &[Parameter]) -> bool
    ensures { result ≡ ModuleForms.defaults_last false parameters.now }
{
    let mut seen = false;
    for parameter in parameters {
        if parameter.default.is_some() {
            seen = true;
        } else if seen {
            return false;
        }
    }
    true
}

/// These parameters, where the ones with a default stand last.
fn in_order(parameters: Vec<Parameter>) -> Result<Vec<Parameter>, ReadError>
    ensures { Gives (λ x. x.items) result (ModuleForms.parameters parameters.items) }
{
    if defaults_last(&parameters) {
        Ok(parameters)
    } else {
        Err(ReadError::Wrong)
    }
}

/// `async def name(parameter, ..):`
pub fn function(alloc: Global, tokens: &[Token]) -> Result<(ModuleLine, &[Token]), ReadError>
    ensures { Gives (λ x. (view_module_line x.0, x.1.now)) result (Reading.function_of tokens.now) }
{
    let rest = expect(Mark::Keyword(Keyword::Async), tokens)?;
    let rest = expect(Mark::Keyword(Keyword::Def), rest)?;
    let (name, rest) = name(alloc, rest)?;
    let rest = expect(Mark::Open(Bracket::Round), rest)?;
    let (parameters, rest) = listed(alloc, Mark::Close(Bracket::Round), rest)?;
    let parameters = in_order(parameters)?;
    let rest = expect(Mark::Operator(Operator::Colon), rest)?;
    Ok((ModuleLine::Function(name, parameters), rest))
}
