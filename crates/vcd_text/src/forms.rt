//! The lines of a VCD text, taken apart (IEEE 1364-2005, clauses 18.2.1 to 18.2.3).
ghost use Rattle.std.specs.Prelude.{◌≡◌, ◌≢◌, ◌<◌, ◌≤◌, ◌-◌, ◌==◌, ◌&&◌, ◌∷◌, ◌++◌, ◌^◌, [], ℕ, List, false, not};
ghost use Rattle.std.specs.Prelude.{get_or, length, IsTrue, IfOk, MatchOption, Decides};
ghost use Rattle.std.specs.List.{list_all};
ghost use Rattle.std.specs.Fmt.{decimal};
ghost use Rattle.four_value.specs.declared.Digit.{Digit};
ghost use Rattle.gpi.specs.Limits.{most_elements};
ghost use Rattle.vcd_text.specs.Names as names;
ghost use Rattle.vcd_text.specs.Spelling as meaning;
ghost use Rattle.vcd_text.specs.Text.{kind_word};
ghost use Rattle.vcd_text.specs.Found.{IsVarFound};
ghost use Rattle.vcd_text.specs.Forms.{IsStep, IsScope, IsStart, IsTime, IsCut, IsPair, IsCounted, is_unit_end, name_end, number_of};

use crate::declarations::range_text;
use crate::spelling::code;
use crate::traced_line::{are_digits, is_digit, split_first, time_of, without_feed};
use four_value::Digit;
use port_io::NoMemory;
use std::alloc::Global;

/// The most signals that a design has, among them the words of memories.
const MOST_SIGNALS: usize = 65_536;

/// What stands behind a front of a text.
fn behind<'t>(front: &[u8], text: &'t [u8]) -> Option<&'t [u8]>
    ensures { MatchOption result ((rest : List ℕ) → text.now ≢ front.now ++ rest) (λ rest. text.now ≡ front.now ++ rest.now) }
{
    text.strip_prefix(front)
}

/// What stands before an end of a text.
fn before<'t>(end: &[u8], text: &'t [u8]) -> Option<&'t [u8]>
    ensures { MatchOption result ((rest : List ℕ) → text.now ≢ rest ++ end.now) (λ rest. text.now ≡ rest.now ++ end.now) }
{
    text.strip_suffix(end)
}

/// Whether a name may begin with that byte.
fn begins_name(byte: u8) -> bool
    ensures { result ≡ names.begins_name byte }
{
    (65 <= byte && byte <= 90) || (97 <= byte && byte <= 122) || byte == 95
}

/// Whether that byte may stand in a name.
fn is_in_name(byte: u8) -> bool
    ensures { result ≡ names.is_in_name byte }
{
    begins_name(byte) || (48 <= byte && byte <= 57) || byte == 36
}

/// Whether all bytes of a text may stand in a name.
fn are_in_name(text: &[u8]) -> bool
    ensures { result ≡ list_all names.is_in_name text.now }
{
    text.iter().all(|byte| is_in_name(*byte))
}

/// Whether a text is a name.
fn is_name(text: &[u8]) -> bool
    ensures { result ≡ names.is_name text.now }
{
    match text {
        [first, rest @ ..] => begins_name(*first) && are_in_name(rest),
        [] => false,
    }
}

/// The name that stands before that end of a text.
fn name_of<'t>(text: &'t [u8], end: &[u8]) -> Option<&'t [u8]>
    ensures { MatchOption result
        ((name : List ℕ) → IsTrue (names.is_name name) → text.now ≢ name ++ end.now)
        (λ name. IsTrue (names.is_name name.now) × (text.now ≡ name.now ++ end.now)) }
{
    match before(end, text) {
        Some(name) => { if is_name(name) { Some(name) } else { None } }
        None => None,
    }
}

/// The name in `$scope module <name> $end`.
pub(crate) fn scope_name(line: &[u8]) -> Option<&[u8]>
    ensures { MatchOption result ((name : List ℕ) → IsScope line.now name → ⊥) (λ name. IsScope line.now name.now) }
{
    match behind(b"$scope module ", line) {
        Some(rest) => match name_of(rest, b" $end\n") {
            Some(name) => Some(name),
            None => None,
        },
        None => None,
    }
}

/// Whether a text is the name of a unit of time, with the end of its line.
fn ends_step(text: &[u8]) -> bool
    ensures { result ≡ is_unit_end text.now }
{
    text == b"s $end\n".as_slice()
        || text == b"ms $end\n".as_slice()
        || text == b"us $end\n".as_slice()
        || text == b"ns $end\n".as_slice()
        || text == b"ps $end\n".as_slice()
        || text == b"fs $end\n".as_slice()
}

/// What stands behind 1, 10 or 100 and a blank.
fn behind_count(text: &[u8]) -> Option<&[u8]>
    ensures { MatchOption result ((rest : List ℕ) → IsCounted text.now rest → ⊥) (λ rest. IsCounted text.now rest.now) }
{
    match text {
        [b'1', b' ', rest @ ..] => Some(rest),
        [b'1', b'0', b' ', rest @ ..] => Some(rest),
        [b'1', b'0', b'0', b' ', rest @ ..] => Some(rest),
        _ => None,
    }
}

/// Whether a line is `$timescale <1, 10 or 100> <unit> $end`.
pub(crate) fn is_step_line(line: &[u8]) -> bool
    ensures { Decides result ((step : ℕ) × IsStep line.now step) }
{
    match behind(b"$timescale ", line) {
        Some(words) => match behind_count(words) {
            Some(unit) => ends_step(unit),
            None => false,
        },
        None => false,
    }
}

/// The opening digit of what is declared as this kind of variable.
fn start_of(kind: &[u8]) -> Option<Digit>
    ensures { MatchOption result
        ((start : Digit) → IsStart start → kind.now ≢ kind_word start)
        (λ start. IsStart start × (kind.now ≡ kind_word start)) }
{
    if kind == b"reg".as_slice() {
        Some(Digit::X)
    } else if kind == b"wire".as_slice() {
        Some(Digit::Z)
    } else {
        None
    }
}

/// That width, where it is 1 to 128.
fn as_width(number: u64) -> Option<u8>
    ensures { MatchOption result (1 ≤ number → number ≤ 128 → ⊥) (λ width. (width ≡ number) × (1 ≤ width) × (width ≤ 128)) }
{
    if 1 <= number && number <= 128 {
        Some(number as u8)
    } else {
        None
    }
}

/// The width that a text says. Only want of memory is an error.
fn width_of(alloc: Global, text: &[u8]) -> Result<Option<u8>, NoMemory>
    ensures { IfOk result (λ found. MatchOption found
        ((width : ℕ) → 1 ≤ width → width ≤ 128 → text.now ≢ decimal width)
        (λ width. (1 ≤ width) × (width ≤ 128) × (text.now ≡ decimal width))) }
{
    match time_of(alloc, text) {
        Ok(Some(number)) => Ok(as_width(number)),
        Ok(None) => Ok(None),
        Err(NoMemory) => Err(NoMemory),
    }
}

/// A digit of a code.
fn code_digit(byte: u8) -> usize
    ensures { result ≡ byte - 33 }
{
    byte.saturating_sub(33) as usize
}

/// The digit of a code at that place; 0 behind the last one.
fn digit_at(text: &[u8], at: usize) -> usize
    ensures { result ≡ get_or text.now at 33 - 33 }
{
    if at < text.len() {
        code_digit(text[at])
    } else {
        0
    }
}

/// The number of a code of at most three digits, the lowest first.
fn number_in(text: &[u8]) -> Option<usize>
    ensures { MatchOption result ((number : ℕ) → number < 830_584 → text.now ≢ meaning.code number) (λ number. number ≡ number_of text.now) }
{
    if text.len() > 3 {
        return None;
    }
    Some(digit_at(text, 0) + 94 * (digit_at(text, 1) + 94 * digit_at(text, 2)))
}

/// That number, where the text is its code. Only want of memory is an error.
fn as_coded(alloc: Global, text: &[u8], number: usize) -> Result<Option<usize>, NoMemory>
    ensures { IfOk result (λ found. MatchOption found (text.now ≢ meaning.code number) (λ own. (own ≡ number) × (text.now ≡ meaning.code number))) }
{
    let own = code(alloc, number)?;
    if own.as_slice() == text {
        Ok(Some(number))
    } else {
        Ok(None)
    }
}

/// The number of a signal whose code this is. Only want of memory is an error.
fn signal_of(alloc: Global, text: &[u8]) -> Result<Option<usize>, NoMemory>
    ensures { IfOk result (λ found. MatchOption found
        ((number : ℕ) → number < most_elements → text.now ≢ meaning.code number)
        (λ number. (number < most_elements) × (text.now ≡ meaning.code number))) }
{
    let Some(number) = number_in(text) else {
        return Ok(None);
    };
    if number >= MOST_SIGNALS {
        return Ok(None);
    }
    as_coded(alloc, text, number)
}

/// The parts of the line of a signal: its kind, its width, its code and what stands behind these.
#[derive(Clone, Copy, Drop)]
struct VarTexts<'t> {
    kind: &'t [u8],
    width: &'t [u8],
    code: &'t [u8],
    rest: &'t [u8],
}

/// The parts of the line of a signal, cut at its blanks.
fn var_texts(line: &[u8]) -> Option<VarTexts<'_>>
    ensures { MatchOption result
        ((kind width code rest : List ℕ) → IsCut line.now kind width code rest → ⊥)
        (λ parts. IsCut line.now parts.kind.now parts.width.now parts.code.now parts.rest.now) }
{
    let (kind, behind_kind) = split_first(behind(b"$var ", line)?)?;
    let (width, behind_width) = split_first(behind_kind)?;
    let (code, rest) = split_first(behind_width)?;
    Some(VarTexts {
        kind,
        width,
        code,
        rest,
    })
}

/// What stands behind the name of a signal of that width. Only want of memory is an error.
fn name_end(alloc: Global, width: u8) -> Result<Vec<u8>, NoMemory>
    ensures { IfOk result (λ text. text.items ≡ name_end width) }
{
    let mut text = range_text(alloc, width)?;
    text.extend_from_slice(b" $end\n")?;
    Ok(text)
}

/// The name that stands before the range of that width. Only want of memory is an error.
fn name_before(alloc: Global, text: &[u8], width: u8) -> Result<Option<&[u8]>, NoMemory>
    ensures { IfOk result (λ found. MatchOption found
        ((name : List ℕ) → IsTrue (names.is_name name) → text.now ≢ name ++ name_end width)
        (λ name. IsTrue (names.is_name name.now) × (text.now ≡ name.now ++ name_end width))) }
{
    let end = name_end(alloc, width)?;
    Ok(name_of(text, &end))
}

/// A signal that a line declares: its number, its name in its instance, its opening digit and its width.
#[derive(Clone, Copy, Drop)]
pub(crate) struct Var<'t> {
    pub(crate) number: usize,
    pub(crate) name: &'t [u8],
    pub(crate) start: Digit,
    pub(crate) width: u8,
}

/// The signal of that opening digit and width whose line has these parts. Only want of memory is an error.
fn var_at<'t>(
    alloc: Global,
    texts: VarTexts<'t>,
    start: Digit,
    width: u8,
) -> Result<Option<Var<'t>>, NoMemory>
    requires start { IsStart start × (texts.kind.now ≡ kind_word start) }
    requires width { (1 ≤ width) × (width ≤ 128) × (texts.width.now ≡ decimal width) }
    ensures { IfOk result (λ found. (line : List ℕ)
        → IsCut line texts.entry.kind.now texts.entry.width.now texts.entry.code.now texts.entry.rest.now → IsVarFound line found) }
{
    match signal_of(alloc, texts.code) {
        Ok(Some(number)) => match name_before(alloc, texts.rest, width) {
            Ok(Some(name)) => Ok(Some(Var {
                number,
                name,
                start,
                width,
            })),
            Ok(None) => Ok(None),
            Err(NoMemory) => Err(NoMemory),
        },
        Ok(None) => Ok(None),
        Err(NoMemory) => Err(NoMemory),
    }
}

/// The signal whose line has these parts. Only want of memory is an error.
fn var_by(alloc: Global, texts: VarTexts<'_>) -> Result<Option<Var<'_>>, NoMemory>
    ensures { IfOk result (λ found. (line : List ℕ)
        → IsCut line texts.entry.kind.now texts.entry.width.now texts.entry.code.now texts.entry.rest.now → IsVarFound line found) }
{
    match start_of(texts.kind) {
        Some(start) => match width_of(alloc, texts.width) {
            Ok(Some(width)) => var_at(alloc, texts, start, width),
            Ok(None) => Ok(None),
            Err(NoMemory) => Err(NoMemory),
        },
        None => Ok(None),
    }
}

/// The signal that a line declares. Only want of memory is an error.
pub(crate) fn var_of(alloc: Global, line: &[u8]) -> Result<Option<Var<'_>>, NoMemory>
    ensures { IfOk result (λ found. IsVarFound line.now found) }
{
    match var_texts(line) {
        Some(texts) => var_by(alloc, texts),
        None => Ok(None),
    }
}

/// The time that stands before a line feed. Only want of memory is an error.
fn fed_time(alloc: Global, text: &[u8]) -> Result<Option<u64>, NoMemory>
    ensures { IfOk result (λ found. MatchOption found
        ((time : ℕ) → time < 2 ^ 64 → text.now ≢ decimal time ++ 10 ∷ [])
        (λ time. (time < 2 ^ 64) × (text.now ≡ decimal time ++ 10 ∷ []))) }
{
    let Some(digits) = without_feed(text) else {
        return Ok(None);
    };
    match time_of(alloc, digits) {
        Ok(Some(time)) => Ok(Some(time)),
        Ok(None) => Ok(None),
        Err(NoMemory) => Err(NoMemory),
    }
}

/// The time of `#<time>`. Only want of memory is an error.
pub(crate) fn time_in(alloc: Global, line: &[u8]) -> Result<Option<u64>, NoMemory>
    ensures { IfOk result (λ found. MatchOption found ((time : ℕ) → IsTime line.now time → ⊥) (λ time. IsTime line.now time)) }
{
    match behind(b"#", line) {
        Some(rest) => fed_time(alloc, rest),
        None => Ok(None),
    }
}

/// Digits and the code of a signal.
#[derive(Clone, Copy, Drop)]
pub(crate) struct Pair<'t> {
    pub(crate) digits: &'t [u8],
    pub(crate) code: &'t [u8],
}

/// One digit, and the code of a signal behind it.
fn scalar_of(text: &[u8]) -> Option<Pair<'_>>
    ensures { MatchOption result
        ((digit : ℕ) (code : List ℕ) → IsTrue (meaning.is_digit digit) → text.now ≢ digit ∷ code)
        (λ pair. (digit : ℕ) × (pair.digits.now ≡ digit ∷ []) × IsTrue (meaning.is_digit digit) × (text.now ≡ digit ∷ pair.code.now)) }
{
    if text.is_empty() || !is_digit(text[0]) {
        return None;
    }
    let (digits, code) = text.split_at(1);
    Some(Pair { digits, code })
}

/// Whether these are digits, and not one alone.
fn is_vector(digits: &[u8]) -> bool
    ensures { result ≡ (not (length digits.now == 1) && list_all meaning.is_digit digits.now) }
{
    digits.len() != 1 && are_digits(digits)
}

/// Digits, of which there isn't one alone, and the code of a signal behind them and a blank.
fn vector_of(text: &[u8]) -> Option<Pair<'_>>
    ensures { MatchOption result
        ((digits code : List ℕ) → (length digits == 1) ≡ false → IsTrue (list_all meaning.is_digit digits) → text.now ≢ digits ++ 32 ∷ code)
        (λ pair. ((length pair.digits.now == 1) ≡ false) × IsTrue (list_all meaning.is_digit pair.digits.now)
        × (text.now ≡ pair.digits.now ++ 32 ∷ pair.code.now)) }
{
    let (digits, code) = split_first(text)?;
    if is_vector(digits) {
        Some(Pair { digits, code })
    } else {
        None
    }
}

/// The digits and the code of the line of a value.
pub(crate) fn pair_of(line: &[u8]) -> Option<Pair<'_>>
    ensures { MatchOption result ((digits code : List ℕ) → IsPair line.now digits code → ⊥) (λ pair. IsPair line.now pair.digits.now pair.code.now) }
{
    let text = without_feed(line)?;
    match behind(b"b", text) {
        Some(rest) => vector_of(rest),
        None => scalar_of(text),
    }
}
