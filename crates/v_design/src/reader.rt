//! Reading a design.

ghost use Rattle.std.specs.Prelude.{◌≡◌, ◌≤◌, ℕ, List, Option, length, IfOk, IfErr, option_copied};
ghost use Rattle.port_io.specs.Limits.{most_bytes};
ghost use Rattle.port_io.specs.Pos.{pos_of};
ghost use Rattle.gpi.specs.Soundness.{IsSoundFlat};
ghost use Rattle.v_syntax.specs.SourceTrees.{ModuleTree};
ghost use Rattle.v_syntax.specs.Refusal.{IsSource, height_limit};
ghost use Rattle.v_lex.specs.Faults as lexical;
ghost use Rattle.v_lex.specs.Row.{Reads};
ghost use Rattle.v_parse.specs.Answers as syntax;
ghost use Rattle.v_parse.specs.declared.fault.ParseFault.TheVariants as parsed;
ghost use Rattle.v_elab.specs.Elaborates.{text_of};
ghost use Rattle.v_design.specs.Designs.{BreaksAt, IsDesign, IsSourceOf};
ghost use Rattle.v_design.specs.Faults.{IsFault};

use crate::{DesignFault, DesignRefusal, DesignRule};
use gpi::Flat;
use port_io::{MOST_BYTES, Pos, line_of};
use std::alloc::Global;
use v_elab::{ElabFault, elaborate};
use v_lex::{LexFault, Tokens, lex};
use v_parse::{ParseFault, parse};
use v_syntax::Source;

/// The line and the column of a byte of a text; of a place behind the text those of its end.
fn pos_in(text: &[u8], place: u32) -> Pos
    requires { length text.now ≤ most_bytes }
    ensures { result ≡ pos_of text.now place }
{
    line_of(text, text.len().min(place as usize))
}

/// The fault of a text that breaks this rule first, at this byte, under whichever top that is.
fn broken(text: &[u8], rule: DesignRule, place: u32) -> DesignFault
    requires { length text.now ≤ most_bytes }
    ensures { (top : Option (List ℕ)) → BreaksAt top rule text.now place → IsFault top result text.now }
{
    let pos = pos_in(text, place);
    DesignFault::Refused(DesignRefusal::Broken(rule, pos))
}

/// The fault of a text without tokens.
fn lexical_fault(text: &[u8], fault: LexFault) -> DesignFault
    requires short { length text.now ≤ most_bytes }
    requires refused { lexical.IsFault fault text.now }
    ensures { (top : Option (List ℕ)) → IsFault top result text.now }
{
    match fault {
        LexFault::BadByte(place) => broken(text, DesignRule::BadByte, place),
        LexFault::BadNumber(place) => broken(text, DesignRule::BadNumber, place),
        LexFault::UnclosedText(place) => broken(text, DesignRule::UnclosedText, place),
        LexFault::Directive(place) => broken(text, DesignRule::Directive, place),
        LexFault::OutOfMemory => DesignFault::OutOfMemory,
    }
}

/// The fault of a text whose tokens were not read as modules.
fn syntax_fault(text: &[u8], tokens: &Tokens, fault: ParseFault) -> DesignFault
    requires short { length text.now ≤ most_bytes }
    requires reads { Reads text.now tokens.now }
    requires only { (ms : List ModuleTree) → IsSource height_limit tokens.now.tokens ms → fault ≡ parsed.OutOfMemory }
    requires refused { syntax.IsFault tokens.now.tokens fault }
    ensures { (top : Option (List ℕ)) → IsFault top result text.now }
{
    match fault {
        ParseFault::Syntax(token) => {
            broken(text, DesignRule::Syntax, tokens.place(token as usize))
        }
        ParseFault::TooDeep(token) => {
            broken(text, DesignRule::TooDeep, tokens.place(token as usize))
        }
        ParseFault::OutOfMemory => DesignFault::OutOfMemory,
    }
}

/// The modules that the tokens of a text spell.
fn modules_of(alloc: Global, text: &[u8], tokens: &Tokens) -> Result<Source, DesignFault>
    requires short { length text.now ≤ most_bytes }
    requires reads { Reads text.now tokens.now }
    ensures is { IfOk result (λ source. IsSourceOf text.now (text_of source)) }
    ensures refused { (top : Option (List ℕ)) → IfErr result (λ fault. IsFault top fault text.now) }
{
    match parse(alloc, tokens) {
        Ok(source) => Ok(source),
        Err(fault) => Err(syntax_fault(text, tokens, fault)),
    }
}

/// The modules of a text.
fn source_of(alloc: Global, text: &[u8]) -> Result<Source, DesignFault>
    requires { length text.now ≤ most_bytes }
    ensures is { IfOk result (λ source. IsSourceOf text.now (text_of source)) }
    ensures refused { (top : Option (List ℕ)) → IfErr result (λ fault. IsFault top fault text.now) }
{
    match lex(alloc, text) {
        Ok(tokens) => modules_of(alloc, text, &tokens),
        Err(fault) => Err(lexical_fault(text, fault)),
    }
}

/// The flat design of the modules of a text, under this top.
fn flat_of(
    alloc: Global,
    text: &[u8],
    source: &Source,
    top: Option<&str>,
) -> Result<Flat, DesignFault>
    requires short { length text.now ≤ most_bytes }
    requires source { IsSourceOf text.now (text_of source.now) }
    ensures found { IfOk result (λ flat. IsDesign (option_copied top.entry) text.now flat) }
    ensures sound { IfOk result IsSoundFlat }
    ensures refused { IfErr result (λ fault. IsFault (option_copied top.entry) fault text.now) }
{
    match elaborate(alloc, source, top) {
        Ok(flat) => Ok(flat),
        Err(ElabFault::Rule(rule, place)) => {
            Err(broken(text, DesignRule::Elaboration(rule), place))
        }
        Err(ElabFault::OutOfMemory) => Err(DesignFault::OutOfMemory),
    }
}

/// The flat design that a text stands for, under the top of this name, or else under the only module that no module instantiates (IEEE
/// 1364-2005, clause 12.1.1); or the rule that it breaks first, with the line and the column: first those of its bytes, then the grammar,
/// then those of elaboration. A text of more than 1,048,576 bytes is too long, whatever it holds. `OutOfMemory` says nothing of the text.
pub fn read_design(alloc: Global, text: &[u8], top: Option<&str>) -> Result<Flat, DesignFault>
    // The text is a design under that top, and this is what it stands for.
    ensures found { IfOk result (λ flat. IsDesign (option_copied top.entry) text.now flat) }
    // It can be simulated.
    ensures sound { IfOk result IsSoundFlat }
    // Otherwise it is refused so.
    ensures refused { IfErr result (λ fault. IsFault (option_copied top.entry) fault text.now) }
{
    if text.len() > MOST_BYTES {
        return Err(DesignFault::Refused(DesignRefusal::TooLong));
    }
    match source_of(alloc, text) {
        Ok(source) => flat_of(alloc, text, &source, top),
        Err(fault) => Err(fault),
    }
}
