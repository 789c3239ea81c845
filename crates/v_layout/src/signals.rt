//! The signals of declared names.

ghost use Rattle.std.specs.Prelude.{◌≡◌, ℕ, List, ◌++◌, ◌∷◌, [], map, IfOk, OnErr, OnOk};
ghost use Rattle.std.specs.List.{All};
ghost use Rattle.gpi.specs.Terms.{IsWidth};
ghost use Rattle.v_flat.specs.Scope.Scope.{width_of};
ghost use Rattle.v_flat.specs.Paths.{Path, signal_of};
ghost use Rattle.v_flat.specs.Design.{all_signals, start_of};
ghost use Rattle.v_layout.specs.Kept.{named_declared};
ghost use Rattle.v_layout.specs.Order.{line_in, lines_in};
ghost use Rattle.v_layout.specs.Adds.{AddsSome};
ghost use Rattle.v_layout.specs.Fits.{IsProperDeclared};
ghost use Rattle.v_layout.specs.Steps.{memory_at, signals_at, signals_below, vector_at};
ghost use Rattle.v_layout.specs.Texts.{HasText};

use crate::details::{Declared, Line};
use crate::paths::{dotted, word_path};
use four_value::Digit;
use gpi::Signal;
use port_io::{Name, NoMemory, Sequence};
use std::alloc::Global;
use v_check::names::width;
use v_flat::scope::{Bounds, DataKind};

/// The digit that a signal has everywhere at the start: x in a register, z on a net (IEEE 1364-2005, clauses 4.2.1 and 4.2.2).
fn start(kind: DataKind) -> Digit
    ensures { result ≡ start_of kind }
{
    match kind {
        DataKind::Register => Digit::X,
        DataKind::Input | DataKind::Net => Digit::Z,
    }
}

/// One signal of what is declared. Only want of memory is an error.
fn signal(alloc: Global, path: &[u8], declared: Declared) -> Result<Signal, NoMemory>
    requires { IsWidth (width_of declared.bounds) }
    ensures { IfOk result (λ s. s ≡ vector_at path.now declared) }
{
    Ok(Signal {
        path: Name::of(alloc, path)?,
        width: width(declared.bounds),
        start: start(declared.kind()),
    })
}

/// Adds the words of a memory, by rising index. After `NoMemory` the first of them may have been added.
fn add_words(
    alloc: Global,
    path: &[u8],
    declared: Declared,
    words: Bounds,
    signals: &mut Sequence<Signal>,
) -> Result<(), NoMemory>
    requires { IsWidth (width_of declared.bounds) }
    ensures ok { OnOk result (signals.new ≡ signals.old ++ memory_at path.now declared words) }
    ensures err { OnErr result (AddsSome signals.old (memory_at path.now declared words) signals.new) }
{
    let low = words.left.min(words.right);
    let high = words.left.max(words.right);
    for index in low..=high {
        let path = word_path(alloc, path, index)?;
        signals.push(signal(alloc, &path, declared)?)?;
    }
    Ok(())
}

/// Adds the signals of what is declared. After `NoMemory` the first of them may have been added.
fn add_declared(
    alloc: Global,
    path: &[u8],
    declared: Declared,
    signals: &mut Sequence<Signal>,
) -> Result<(), NoMemory>
    requires { IsWidth (width_of declared.bounds) }
    ensures ok { (n : List ℕ) → OnOk result (signals.new ≡ signals.old ++ signals_at path.now (named_declared n declared)) }
    ensures err { (n : List ℕ) → OnErr result (AddsSome signals.old (signals_at path.now (named_declared n declared)) signals.new) }
{
    match declared.words {
        Some(words) => add_words(alloc, path, declared, words, signals),
        None => {
            signals.push(signal(alloc, path, declared)?)?;
            Ok(())
        }
    }
}

/// Adds the signals of a declared name of an instance. After `NoMemory` the first of them may have been added.
fn add_line(
    alloc: Global,
    path: &[u8],
    line: &Line<'_>,
    signals: &mut Sequence<Signal>,
) -> Result<(), NoMemory>
    requires { IsProperDeclared (line_in line.now) }
    ensures ok { OnOk result (signals.new ≡ signals.old ++ signals_below path.now (line_in line.now ∷ [])) }
    ensures err { OnErr result (AddsSome signals.old (signals_below path.now (line_in line.now ∷ [])) signals.new) }
{
    let path = dotted(alloc, path, line.name)?;
    add_declared(alloc, &path, line.declared, signals)
}

/// Adds the signals of the declared names of an instance, by the text of its path. After `NoMemory` the first of them may have been added.
fn add_lines(
    alloc: Global,
    path: &[u8],
    lines: &[Line<'_>],
    signals: &mut Sequence<Signal>,
) -> Result<(), NoMemory>
    requires { All IsProperDeclared (lines_in lines.now) }
    ensures ok { OnOk result (signals.new ≡ signals.old ++ signals_below path.now (lines_in lines.now)) }
    ensures err { OnErr result (AddsSome signals.old (signals_below path.now (lines_in lines.now)) signals.new) }
{
    for line in lines {
        add_line(alloc, path, line, signals)?;
    }
    Ok(())
}

/// Adds the signals of the declared names of an instance behind those of the design so far, by the text of the instance's path: one for each
/// net and register, and one for each word of a memory, by rising index (IEEE 1364-2005, clause 4). After `NoMemory` the first of them may
/// have been added.
#[tactic(auto, using(crate::proofs::ByText::added_all, crate::proofs::ByText::added_some))]
pub fn add_signals(
    alloc: Global,
    path: &[u8],
    lines: &[Line<'_>],
    signals: &mut Sequence<Signal>,
) -> Result<(), NoMemory>
    requires { All IsProperDeclared (lines_in lines.now) }
    ensures ok { (p : Path) (first : ℕ) → HasText p path.now
        → OnOk result (signals.new ≡ signals.old ++ map signal_of (all_signals p first (lines_in lines.now))) }
    ensures err { (p : Path) (first : ℕ) → HasText p path.now
        → OnErr result (AddsSome signals.old (map signal_of (all_signals p first (lines_in lines.now))) signals.new) }
{
    add_lines(alloc, path, lines, signals)
}
