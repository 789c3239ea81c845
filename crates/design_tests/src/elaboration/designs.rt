//! The design of a text.
ghost use Rattle.std.specs.Prelude.{◌≡◌, ℕ, List, IfOk, option_copied};
ghost use Rattle.v_lex.specs.Faults.{IsFault};
ghost use Rattle.v_lex.specs.Row.{Reads};
ghost use Rattle.v_parse.specs.declared.fault.ParseFault.TheVariants as faults;
ghost use Rattle.v_elab.specs.Elaborates.{text_of};
ghost use Rattle.design_tests.specs.Elaboration.Designs.{AreModules, AreTokens, IsDesignOf, Spells, SpellsNone};

use gpi::Flat;
use port_io::{MOST_BYTES, NoMemory};
use std::alloc::Global;
use v_elab::{ElabFault, elaborate};
use v_flat::scope::ElabRule;
use v_lex::{LexFault, Tokens, lex};
use v_parse::{ParseFault, parse};
use v_syntax::Source;

/// Why a text has no design.
#[derive(Clone, Copy)]
pub enum Refusal {
    /// It is longer than a text may be.
    TooLong,
    /// It breaks a rule of tokens.
    NoTokens,
    /// Its tokens are those of no modules.
    NoModules,
    /// It breaks this rule of designs first, at this byte.
    Breaks(ElabRule, u32),
}

/// What was found in a text, or why it has no design. Only want of memory is an error, here and below.
type Found<T> = Result<Result<T, Refusal>, NoMemory>;

/// Why a text has no tokens.
fn no_tokens(fault: LexFault) -> Found<Tokens>
    ensures { (text : List ℕ) → IsFault fault text → IfOk result (λ found. AreTokens text found) }
{
    match fault {
        LexFault::OutOfMemory => Err(NoMemory),
        _ => Ok(Err(Refusal::NoTokens)),
    }
}

/// The tokens of a text.
fn tokens_of(alloc: Global, text: &[u8]) -> Found<Tokens>
    ensures { IfOk result (λ found. AreTokens text.now found) }
{
    if text.len() > MOST_BYTES {
        return Ok(Err(Refusal::TooLong));
    }
    match lex(alloc, text) {
        Ok(tokens) => Ok(Ok(tokens)),
        Err(fault) => no_tokens(fault),
    }
}

/// Why tokens are no modules.
fn no_modules(fault: ParseFault) -> Found<Source>
    ensures { (text : List ℕ) → ((fault ≡ faults.OutOfMemory → ⊥) → SpellsNone text) → IfOk result (AreModules text) }
{
    match fault {
        ParseFault::OutOfMemory => Err(NoMemory),
        _ => Ok(Err(Refusal::NoModules)),
    }
}

/// The modules that tokens are.
fn source_of(alloc: Global, tokens: &Tokens) -> Found<Source>
    ensures { (text : List ℕ) → Reads text tokens.now → IfOk result (AreModules text) }
{
    match parse(alloc, tokens) {
        Ok(source) => Ok(Ok(source)),
        Err(fault) => no_modules(fault),
    }
}

/// The design of modules under the top of this name.
fn flat_of(alloc: Global, source: &Source, top: Option<&str>) -> Found<Flat>
    ensures { (text : List ℕ) → Spells text (text_of source.now) → IfOk result (IsDesignOf text (option_copied top.entry)) }
{
    match elaborate(alloc, source, top) {
        Ok(flat) => Ok(Ok(flat)),
        Err(ElabFault::OutOfMemory) => Err(NoMemory),
        Err(ElabFault::Rule(rule, byte)) => Ok(Err(Refusal::Breaks(rule, byte))),
    }
}

/// The design of tokens.
fn of_tokens(alloc: Global, tokens: &Tokens, top: Option<&str>) -> Found<Flat>
    ensures { (text : List ℕ) → Reads text tokens.now → IfOk result (IsDesignOf text (option_copied top.entry)) }
{
    match source_of(alloc, tokens)? {
        Ok(source) => flat_of(alloc, &source, top),
        Err(refusal) => Ok(Err(refusal)),
    }
}

/// The design of a text under the top of this name, or else under the only module that no module instantiates.
pub fn design_of(alloc: Global, text: &[u8], top: Option<&str>) -> Found<Flat>
    ensures { IfOk result (IsDesignOf text.now (option_copied top.entry)) }
{
    match tokens_of(alloc, text)? {
        Ok(tokens) => of_tokens(alloc, &tokens, top),
        Err(refusal) => Ok(Err(refusal)),
    }
}
