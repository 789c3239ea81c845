//! Lines of a module.

ghost use Rattle.std.specs.Prelude.{◌≡◌, IfOk};
ghost use Rattle.py_syntax.specs.ModuleTrees.{view_module_line};
ghost use Rattle.py_syntax.specs.ModuleForms.{SpellsModuleLine};
ghost use Rattle.py_expression.specs.Phrase.Gives.{Gives};
ghost use Rattle.py_parse.specs.ModuleLine.Found.{Line, IsFound};
ghost use Rattle.py_parse.specs.ModuleLine.Reading;

use crate::module_line::factory::{add_option, factory, generate_tests};
use crate::module_line::function::function;
use crate::module_line::import::{from_import, import};
use crate::module_line::kind::{Kind, kind_of};
use py_expression::phrase::{
    Element, Mark, ReadError, end_of_line, expect, expect_word, listed, name,
};
use py_syntax::{Bracket, Const, ModuleLine, Operator, Token};
use std::alloc::Global;

/// `name = constant`
fn constant(alloc: Global, tokens: &[Token]) -> Result<(ModuleLine, &[Token]), ReadError>
    ensures { Gives (λ x. (view_module_line x.0, x.1.now)) result (Reading.constant_of tokens.now) }
{
    let (name, rest) = name(alloc, tokens)?;
    let rest = expect(Mark::Operator(Operator::Assign), rest)?;
    let (value, rest) = Const::read(alloc, rest)?;
    Ok((ModuleLine::Constant(name, value), rest))
}

/// `@cocotb.test(option=constant, ..)`
fn test(alloc: Global, tokens: &[Token]) -> Result<(ModuleLine, &[Token]), ReadError>
    ensures { Gives (λ x. (view_module_line x.0, x.1.now)) result (Reading.test_of tokens.now) }
{
    let rest = expect(Mark::Operator(Operator::At), tokens)?;
    let rest = expect_word(b"cocotb", rest)?;
    let rest = expect(Mark::Operator(Operator::Dot), rest)?;
    let rest = expect_word(b"test", rest)?;
    let rest = expect(Mark::Open(Bracket::Round), rest)?;
    let (settings, rest) = listed(alloc, Mark::Close(Bracket::Round), rest)?;
    Ok((ModuleLine::Test(settings), rest))
}

/// The line at the front of the tokens, and the tokens after it.
#[tactic(auto, unfolding(crate::specs::ModuleLine::Reading::read_line))]
fn read_line(alloc: Global, tokens: &[Token]) -> Result<(ModuleLine, &[Token]), ReadError>
    ensures { Gives (λ x. (view_module_line x.0, x.1.now)) result (Reading.read_line tokens.now) }
{
    match kind_of(tokens) {
        Kind::Import => import(alloc, tokens),
        Kind::From => from_import(alloc, tokens),
        Kind::Constant => constant(alloc, tokens),
        Kind::Test => test(alloc, tokens),
        Kind::Factory => factory(alloc, tokens),
        Kind::AddOption => add_option(alloc, tokens),
        Kind::GenerateTests => generate_tests(alloc, tokens),
        Kind::Function => function(alloc, tokens),
    }
}

/// The line that all these tokens are.
#[tactic(auto, unfolding(crate::specs::ModuleLine::Reading::line_of))]
fn whole_line(alloc: Global, tokens: &[Token]) -> Result<ModuleLine, ReadError>
    ensures { Gives view_module_line result (Reading.line_of tokens.now) }
{
    let (line, rest) = read_line(alloc, tokens)?;
    end_of_line(rest)?;
    Ok(line)
}

/// The line of a module that these tokens are. Wrong where they are none.
pub fn module_line(alloc: Global, tokens: &[Token]) -> Result<ModuleLine, ReadError>
    ensures gives { Gives view_module_line result (Reading.line_of tokens.now) }
    ensures found { IfOk result (λ line. SpellsModuleLine (view_module_line line) tokens.now) }
    ensures only { (line : Line) → SpellsModuleLine line tokens.now → IsFound line result }
{
    whole_line(alloc, tokens)
}
