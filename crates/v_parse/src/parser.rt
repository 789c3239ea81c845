//! Whole texts.

ghost use Rattle.std.specs.Prelude.{◌≡◌, ◌-◌, ◌<◌, ◌^◌, ℕ, List, length, map, IfOk, IfErr};
ghost use Rattle.v_syntax.specs.declared.token.Token.{Token};
ghost use Rattle.v_syntax.specs.SourceTrees.{ModuleTree, view, view_module};
ghost use Rattle.v_syntax.specs.Refusal.{IsSource, height_limit};
ghost use Rattle.v_lex.specs.Row.{Reads};
ghost use Rattle.v_lex.specs.Lexing.{Lexed, module_count};
ghost use Rattle.v_expression.specs.Phrase.Stops.{Gives};
ghost use Rattle.v_parse.specs.Reading.{source_of};
ghost use Rattle.v_parse.specs.Answers.{IsFault, IsPlaced, IsRead, MakesSource, Tells};

use crate::ParseFault;
use crate::modules::modules;
use std::alloc::{AllocError, Global};
use v_expression::phrase::{ReadError, next, syntax_error};
use v_lex::Tokens;
use v_syntax::{Module, Source, Token};

/// The levels below a tree of the greatest height.
const ROOM: usize = 63;

/// Modules that nothing stands behind.
#[tactic(auto, unfolding(crate::specs::Reading::source_of))]
fn all_modules(alloc: Global, text: &[Token]) -> Result<Vec<Module>, ReadError>
    ensures { Gives (λ modules. map view_module modules.items) result (source_of 63 text.now) }
{
    let (modules, rest) = modules(alloc, text.len(), ROOM, text)?;
    match next(rest) {
        Some(_) => Err(syntax_error(rest)),
        None => Ok(modules),
    }
}

/// The number of the token with which the last `left` tokens of a text begin.
fn number_of(text: &[Token], left: usize) -> u32
    requires { length text.now < 2 ^ 32 }
    ensures { result ≡ length text.now - left }
{
    text.len().saturating_sub(left) as u32
}

/// The modules of a whole text, by where their reader stops.
fn read(alloc: Global, text: &[Token]) -> Result<Vec<Module>, ParseFault>
    requires { length text.now < 2 ^ 32 }
    ensures { Tells (λ modules. map view_module modules.items) text.now result (source_of 63 text.now) }
{
    match all_modules(alloc, text) {
        Ok(modules) => Ok(modules),
        Err(ReadError::Syntax(left)) => Err(ParseFault::Syntax(number_of(text, left))),
        Err(ReadError::TooDeep(left)) => Err(ParseFault::TooDeep(number_of(text, left))),
        Err(ReadError::OutOfMemory) => Err(ParseFault::OutOfMemory),
    }
}

/// The places of the tokens, and the unit of time at each module. Only want of memory is an error.
fn places_and_units(alloc: Global, tokens: &Tokens) -> Result<(Vec<u32>, Vec<u64>), AllocError>
    ensures places { IfOk result (λ x. x.0.items ≡ tokens.now.places) }
    ensures units { IfOk result (λ x. x.1.items ≡ tokens.now.units) }
    ensures one_each { IfOk result (λ x. length x.1.items ≡ module_count tokens.now.tokens) }
{
    let places = tokens.places().to_vec(alloc)?;
    let units = tokens.units().to_vec(alloc)?;
    Ok((places, units))
}

/// These modules, with the places of the tokens, the units and the step of the text. Only want of memory is an error.
fn placed(alloc: Global, modules: Vec<Module>, tokens: &Tokens) -> Result<Source, ParseFault>
    ensures { MakesSource modules.items tokens.now result }
{
    match places_and_units(alloc, tokens) {
        Ok((places, units)) => Ok(Source {
            modules,
            places,
            units,
            step: tokens.step(),
        }),
        Err(_) => Err(ParseFault::OutOfMemory),
    }
}

/// Reads a whole text (IEEE 1364-2005, annex A.1.2), whose expressions, targets and statements have heights of at most 64.
pub fn parse(alloc: Global, tokens: &Tokens) -> Result<Source, ParseFault>
    // What is read spells all tokens, within the height.
    ensures found { IfOk result (λ s. IsSource height_limit tokens.now.tokens (view s)) }
    // Modules that spell all tokens within the height are read, unless memory runs out.
    ensures only { (ms : List ModuleTree) → IsSource height_limit tokens.now.tokens ms → IsRead (λ s. view s ≡ ms) result }
    // A fault is at the first token that no partial tree within the height spells.
    ensures refused { IfErr result (λ f. IsFault tokens.now.tokens f) }
    // The places of the tokens, the unit of time at each `module` and the step are those of the text.
    ensures placed { IfOk result (IsPlaced tokens.now) }
    // Each module has one unit.
    ensures one_each { IfOk result (λ s. length s.units.items ≡ length s.modules.items) }
{
    match read(alloc, tokens.as_slice()) {
        Ok(modules) => placed(alloc, modules, tokens),
        Err(fault) => Err(fault),
    }
}

/// A text has at most one tree, whatever its height.
pub fn one_source()
    ensures { (n m : ℕ) (text : List Token) (a b : List ModuleTree) → IsSource n text a → IsSource m text b → a ≡ b }
{}

/// Bytes have at most one tree, whatever its height.
pub fn one_source_of_bytes()
    ensures { (n m : ℕ) (bytes : List ℕ) (read again : Lexed) (a b : List ModuleTree) → Reads bytes read → Reads bytes again
        → IsSource n read.tokens a → IsSource m again.tokens b → a ≡ b }
{}
