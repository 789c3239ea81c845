//! Directives.

ghost use Rattle.std.specs.Prelude.{◌≡◌, ◌≤◌, ◌<◌, ◌+◌, ◌*◌, ◌^◌, ℕ, List, length, Option, IfSome, IfOk, option_map};
ghost use Rattle.std.specs.Str.{bytes_eq};
ghost use Rattle.v_lex.specs.Times.{magnitude_of, unit_of};
ghost use Rattle.v_lex.specs.DirectiveScan.{word_after, is_name, name_after, time_after, slash_after, scale_after, scale_or_broken};
ghost use Rattle.v_lex.specs.DirectiveScan.{with_name, without_name, named_or_broken, define_or_broken, net_type_or_broken};
ghost use Rattle.v_lex.specs.DirectiveScan.{directive_with, directive_at};
ghost use Rattle.v_lex.specs.Comments.{directive_of_parts};

use crate::bytes::{ByteClass, is_name_start};
use crate::directive::{Content, Directive, DirectiveWord, Piece};
use crate::gaps::is_blank;
use crate::runs::run;
use crate::words::{directive_of, keyword_of, reserved_of};
use port_io::{Name, NoMemory};
use std::alloc::Global;

/// The bytes up to the end of the word behind separators, and the word.
#[tactic(auto, unfolding(crate::specs::DirectiveScan::word_after))]
fn word_after(text: &[u8]) -> (usize, &[u8])
    ensures is { (result.0, result.1.now) ≡ word_after text.now }
    ensures within { result.0 ≤ length text.now }
{
    let separators = run(ByteClass::Separator, text);
    let (_, rest) = text.split_at(separators);
    let (word, _) = rest.split_at(run(ByteClass::Name, rest));
    (separators + word.len(), word)
}

/// Whether the word is a name (IEEE 1364-2005, clause 3.7), and no reserved word.
fn is_name(word: &[u8]) -> bool
    ensures { result ≡ is_name word.now }
{
    match word.first() {
        Some(first) => {
            is_name_start(*first) && keyword_of(word).is_none() && reserved_of(word).is_none()
        }
        None => false,
    }
}

/// The bytes up to the end of the name behind separators, and the name.
#[tactic(auto, unfolding(crate::specs::DirectiveScan::name_after))]
fn name_after(text: &[u8]) -> Option<(usize, &[u8])>
    ensures is { option_map (λ a. (a.0, a.1.now)) result ≡ name_after text.now }
    ensures within { IfSome result (λ a. a.0 ≤ length text.now) }
{
    let (size, word) = word_after(text);
    if is_name(word) {
        Some((size, word))
    } else {
        None
    }
}

fn spells(word: &[u8], spelling: &[u8]) -> bool
    ensures { result ≡ bytes_eq word.now spelling.now }
{
    word == spelling
}

/// Femtoseconds of a unit of time.
fn unit_of(word: &[u8]) -> Option<u64>
    ensures is { result ≡ unit_of word.now }
    ensures most { IfSome result (λ n. n ≤ 10 ^ 15) }
{
    if spells(word, b"s") {
        return Some(1_000_000_000_000_000);
    }
    if spells(word, b"ms") {
        return Some(1_000_000_000_000);
    }
    if spells(word, b"us") {
        return Some(1_000_000_000);
    }
    if spells(word, b"ns") {
        return Some(1_000_000);
    }
    if spells(word, b"ps") {
        return Some(1_000);
    }
    if spells(word, b"fs") {
        return Some(1);
    }
    None
}

/// 1, 10 or 100.
fn magnitude_of(digits: &[u8]) -> Option<u64>
    ensures is { result ≡ magnitude_of digits.now }
    ensures most { IfSome result (λ n. n ≤ 100) }
{
    if spells(digits, b"1") {
        return Some(1);
    }
    if spells(digits, b"10") {
        return Some(10);
    }
    if spells(digits, b"100") {
        return Some(100);
    }
    None
}

/// The bytes up to the end of a time behind separators, and its femtoseconds.
#[tactic(auto, unfolding(crate::specs::DirectiveScan::time_after))]
fn time_after(text: &[u8]) -> Option<(usize, u64)>
    ensures is { result ≡ time_after text.now }
    ensures within { IfSome result (λ t. t.0 ≤ length text.now) }
{
    let separators = run(ByteClass::Separator, text);
    let (_, rest) = text.split_at(separators);
    let (digits, behind) = rest.split_at(run(ByteClass::Digit, rest));
    let (size, word) = word_after(behind);
    let magnitude = magnitude_of(digits)?;
    let femtoseconds = unit_of(word)?;
    Some((separators + digits.len() + size, magnitude * femtoseconds))
}

/// The bytes up to a `/` behind separators and with it.
#[tactic(auto, unfolding(crate::specs::DirectiveScan::slash_after))]
fn slash_after(text: &[u8]) -> Option<usize>
    ensures is { result ≡ slash_after text.now }
    ensures within { IfSome result (λ n. n ≤ length text.now) }
{
    let separators = run(ByteClass::Separator, text);
    let (_, rest) = text.split_at(separators);
    if rest.starts_with(b"/") {
        Some(separators + 1)
    } else {
        None
    }
}

/// The bytes up to the end of a unit, `/` and a precision, and the directive.
#[tactic(auto, unfolding(crate::specs::DirectiveScan::scale_after))]
fn scale_after(text: &[u8]) -> Option<(usize, Directive)>
    ensures is { result ≡ scale_after text.now }
    ensures within { IfSome result (λ d. d.0 ≤ length text.now) }
{
    let (size, unit) = time_after(text)?;
    let (_, rest) = text.split_at(size);
    let slash = slash_after(rest)?;
    let (_, behind) = text.split_at(size + slash);
    let (length, precision) = time_after(behind)?;
    Some((size + slash + length, Directive::TimeScale(unit, precision)))
}

fn directive(size: usize, directive: Directive) -> Piece
    ensures { result ≡ directive_of_parts size directive }
{
    Piece {
        size,
        content: Content::Directive(directive),
    }
}

fn scale(size: usize, after: &[u8]) -> Piece
    requires { size + length after.now < 2 ^ 61 }
    ensures is { result ≡ scale_or_broken size (scale_after after.now) }
    ensures some { size ≤ result.size }
    ensures within { result.size ≤ size + length after.now }
{
    match scale_after(after) {
        Some((length, scale)) => directive(size + length, scale),
        None => directive(size, Directive::Broken),
    }
}

fn with_name(word: DirectiveWord, name: Name) -> Directive
    ensures { result ≡ with_name word name }
{
    match word {
        DirectiveWord::Undef => Directive::Undef(name),
        DirectiveWord::IfDef => Directive::IfDef(name),
        DirectiveWord::IfNDef => Directive::IfNDef(name),
        DirectiveWord::ElsIf => Directive::ElsIf(name),
        _ => Directive::Broken,
    }
}

fn without_name(word: DirectiveWord) -> Directive
    ensures { result ≡ without_name word }
{
    match word {
        DirectiveWord::IfDef | DirectiveWord::IfNDef => Directive::Unnamed,
        _ => Directive::Broken,
    }
}

fn named(alloc: Global, size: usize, word: DirectiveWord, after: &[u8]) -> Result<Piece, NoMemory>
    requires { size + length after.now < 2 ^ 61 }
    ensures is { IfOk result (λ p. p ≡ named_or_broken size word (name_after after.now)) }
    ensures some { IfOk result (λ p. size ≤ p.size) }
    ensures within { IfOk result (λ p. p.size ≤ size + length after.now) }
{
    match name_after(after) {
        Some((length, name)) => {
            let name = Name::of(alloc, name)?;
            Ok(directive(size + length, with_name(word, name)))
        }
        None => Ok(directive(size, without_name(word))),
    }
}

fn define(alloc: Global, size: usize, after: &[u8]) -> Result<Piece, NoMemory>
    requires { size + length after.now < 2 ^ 61 }
    ensures is { IfOk result (λ p. p ≡ define_or_broken size after.now (name_after after.now)) }
    ensures some { IfOk result (λ p. size ≤ p.size) }
    ensures within { IfOk result (λ p. p.size ≤ size + length after.now) }
{
    let Some((length, name)) = name_after(after) else {
        return Ok(directive(size, Directive::Broken));
    };
    let (_, rest) = after.split_at(length);
    if is_blank(rest) {
        let name = Name::of(alloc, name)?;
        Ok(directive(size + length, Directive::Define(name)))
    } else {
        Ok(directive(size, Directive::Broken))
    }
}

fn net_type(size: usize, after: &[u8]) -> Piece
    requires { size + length after.now < 2 ^ 61 }
    ensures is { result ≡ net_type_or_broken size (word_after after.now) }
    ensures some { size ≤ result.size }
    ensures within { result.size ≤ size + length after.now }
{
    let (length, word) = word_after(after);
    if spells(word, b"none") || spells(word, b"wire") {
        directive(size + length, Directive::DefaultNetType)
    } else {
        directive(size, Directive::Broken)
    }
}

/// A directive whose word has this size, before these bytes.
#[tactic(auto, unfolding(crate::specs::DirectiveScan::directive_with))]
fn directive_with(
    alloc: Global,
    size: usize,
    after: &[u8],
    word: Option<DirectiveWord>,
) -> Result<Piece, NoMemory>
    requires { size + length after.now < 2 ^ 61 }
    ensures is { IfOk result (λ p. p ≡ directive_with size after.now word) }
    ensures some { IfOk result (λ p. size ≤ p.size) }
    ensures within { IfOk result (λ p. p.size ≤ size + length after.now) }
{
    match word {
        None => Ok(directive(size, Directive::Broken)),
        Some(DirectiveWord::TimeScale) => Ok(scale(size, after)),
        Some(DirectiveWord::Define) => define(alloc, size, after),
        Some(DirectiveWord::DefaultNetType) => Ok(net_type(size, after)),
        Some(DirectiveWord::Else) => Ok(directive(size, Directive::Else)),
        Some(DirectiveWord::EndIf) => Ok(directive(size, Directive::EndIf)),
        Some(DirectiveWord::ResetAll) => Ok(directive(size, Directive::ResetAll)),
        Some(DirectiveWord::Undef) => named(alloc, size, DirectiveWord::Undef, after),
        Some(DirectiveWord::IfDef) => named(alloc, size, DirectiveWord::IfDef, after),
        Some(DirectiveWord::IfNDef) => named(alloc, size, DirectiveWord::IfNDef, after),
        Some(DirectiveWord::ElsIf) => named(alloc, size, DirectiveWord::ElsIf, after),
    }
}

/// The directive behind a backquote (IEEE 1364-2005, clause 19).
#[tactic(auto, unfolding(crate::specs::DirectiveScan::directive_at))]
pub fn directive_at(alloc: Global, after: &[u8]) -> Result<Piece, NoMemory>
    requires { length after.now < 2 ^ 60 }
    ensures is { IfOk result (λ p. p ≡ directive_at after.now) }
    ensures some { IfOk result (λ p. 1 ≤ p.size) }
    ensures within { IfOk result (λ p. p.size ≤ 1 + length after.now) }
{
    let (word, rest) = after.split_at(run(ByteClass::Name, after));
    directive_with(alloc, 1 + word.len(), rest, directive_of(word))
}
