//! Factories of tests, their options and the tests that they make.

ghost use Rattle.std.specs.Prelude.{◌≡◌};
ghost use Rattle.py_syntax.specs.ModuleTrees.{view_module_line};
ghost use Rattle.py_expression.specs.Phrase.Gives.{Gives};
ghost use Rattle.py_parse.specs.ModuleLine.Reading;

use crate::module_line::affix::affixes;
use port_io::Name;
use py_expression::phrase::{
    Mark, ReadError, after_name, after_word, constants, expect, expect_word, last, listed, name,
    text,
};
use py_syntax::{Bracket, Const, ModuleLine, Operator, Token};
use std::alloc::Global;

/// `function` or `test_function=function`
#[tactic(auto, unfolding(crate::specs::ModuleLine::Reading::function_given))]
fn function_given(alloc: Global, tokens: &[Token]) -> Result<(Name, &[Token]), ReadError>
    ensures { Gives (λ x. (x.0, x.1.now)) result (Reading.function_given tokens.now) }
{
    name(alloc, after_name(b"test_function", tokens))
}

/// `name = TestFactory(function)`
pub fn factory(alloc: Global, tokens: &[Token]) -> Result<(ModuleLine, &[Token]), ReadError>
    ensures { Gives (λ x. (view_module_line x.0, x.1.now)) result (Reading.factory_of tokens.now) }
{
    let (target, rest) = name(alloc, tokens)?;
    let rest = expect(Mark::Operator(Operator::Assign), rest)?;
    let rest = expect_word(b"TestFactory", rest)?;
    let rest = expect(Mark::Open(Bracket::Round), rest)?;
    let (function, rest) = function_given(alloc, rest)?;
    let rest = last(rest)?;
    Ok((ModuleLine::Factory(target, function), rest))
}

/// `[constant, ..]`
fn bracketed_constants(alloc: Global, tokens: &[Token]) -> Result<(Vec<Const>, &[Token]), ReadError>
    ensures { Gives (λ x. (x.0.items, x.1.now)) result (Reading.bracketed_constants tokens.now) }
{
    constants(alloc, expect(Mark::Open(Bracket::Square), tokens)?)
}

/// `"parameter", [constant, ..]`
fn option_by_place(
    alloc: Global,
    tokens: &[Token],
) -> Result<((Name, Vec<Const>), &[Token]), ReadError>
    ensures { Gives (λ x. ((x.0.0, x.0.1.items), x.1.now)) result (Reading.option_by_place tokens.now) }
{
    let (parameter, rest) = text(alloc, tokens)?;
    let rest = expect(Mark::Operator(Operator::Comma), rest)?;
    let (values, rest) = bracketed_constants(alloc, after_name(b"optionlist", rest))?;
    Ok(((parameter, values), rest))
}

/// `name="parameter", optionlist=[constant, ..]`
fn option_name_first(
    alloc: Global,
    tokens: &[Token],
) -> Result<((Name, Vec<Const>), &[Token]), ReadError>
    ensures { Gives (λ x. ((x.0.0, x.0.1.items), x.1.now)) result (Reading.option_name_first tokens.now) }
{
    let rest = expect_word(b"name", tokens)?;
    let rest = expect(Mark::Operator(Operator::Assign), rest)?;
    let (parameter, rest) = text(alloc, rest)?;
    let rest = expect(Mark::Operator(Operator::Comma), rest)?;
    let rest = expect_word(b"optionlist", rest)?;
    let rest = expect(Mark::Operator(Operator::Assign), rest)?;
    let (values, rest) = bracketed_constants(alloc, rest)?;
    Ok(((parameter, values), rest))
}

/// `optionlist=[constant, ..], name="parameter"`
fn option_list_first(
    alloc: Global,
    tokens: &[Token],
) -> Result<((Name, Vec<Const>), &[Token]), ReadError>
    ensures { Gives (λ x. ((x.0.0, x.0.1.items), x.1.now)) result (Reading.option_list_first tokens.now) }
{
    let rest = expect_word(b"optionlist", tokens)?;
    let rest = expect(Mark::Operator(Operator::Assign), rest)?;
    let (values, rest) = bracketed_constants(alloc, rest)?;
    let rest = expect(Mark::Operator(Operator::Comma), rest)?;
    let rest = expect_word(b"name", rest)?;
    let rest = expect(Mark::Operator(Operator::Assign), rest)?;
    let (parameter, rest) = text(alloc, rest)?;
    Ok(((parameter, values), rest))
}

/// The parameter and its values, both by their names, in either order.
#[tactic(auto, unfolding(crate::specs::ModuleLine::Reading::option_by_name))]
fn option_by_name(
    alloc: Global,
    tokens: &[Token],
) -> Result<((Name, Vec<Const>), &[Token]), ReadError>
    ensures { Gives (λ x. ((x.0.0, x.0.1.items), x.1.now)) result (Reading.option_by_name tokens.now) }
{
    if after_word(b"optionlist", tokens).is_some() {
        option_list_first(alloc, tokens)
    } else {
        option_name_first(alloc, tokens)
    }
}

/// Whether a text stands at the front.
fn begins_with_text(tokens: &[Token]) -> bool
    ensures { result ≡ Reading.begins_with_text tokens.now }
{
    matches!(tokens.first(), Some(Token::Text(_)))
}

/// The parameter and its values.
#[tactic(auto, unfolding(crate::specs::ModuleLine::Reading::option))]
fn option(alloc: Global, tokens: &[Token]) -> Result<((Name, Vec<Const>), &[Token]), ReadError>
    ensures { Gives (λ x. ((x.0.0, x.0.1.items), x.1.now)) result (Reading.option tokens.now) }
{
    if begins_with_text(tokens) {
        option_by_place(alloc, tokens)
    } else {
        option_by_name(alloc, tokens)
    }
}

/// `name.method(`
fn call<'a>(
    alloc: Global,
    method: &[u8],
    tokens: &'a [Token],
) -> Result<(Name, &'a [Token]), ReadError>
    ensures { Gives (λ x. (x.0, x.1.now)) result (Reading.call_of method.now tokens.now) }
{
    let (target, rest) = name(alloc, tokens)?;
    let rest = expect(Mark::Operator(Operator::Dot), rest)?;
    let rest = expect_word(method, rest)?;
    let rest = expect(Mark::Open(Bracket::Round), rest)?;
    Ok((target, rest))
}

/// `name.add_option("parameter", [constant, ..])`
pub fn add_option(alloc: Global, tokens: &[Token]) -> Result<(ModuleLine, &[Token]), ReadError>
    ensures { Gives (λ x. (view_module_line x.0, x.1.now)) result (Reading.add_option_of tokens.now) }
{
    let (target, rest) = call(alloc, b"add_option", tokens)?;
    let ((parameter, values), rest) = option(alloc, rest)?;
    let rest = last(rest)?;
    Ok((ModuleLine::AddOption(target, parameter, values), rest))
}

/// `name.generate_tests(prefix="..", postfix="..")`
pub fn generate_tests(alloc: Global, tokens: &[Token]) -> Result<(ModuleLine, &[Token]), ReadError>
    ensures { Gives (λ x. (view_module_line x.0, x.1.now)) result (Reading.generate_of tokens.now) }
{
    let (target, rest) = call(alloc, b"generate_tests", tokens)?;
    let (settings, rest) = listed(alloc, Mark::Close(Bracket::Round), rest)?;
    let (prefix, postfix) = affixes(alloc, &settings)?;
    Ok((ModuleLine::GenerateTests(target, prefix, postfix), rest))
}
