//! Whether a design is sound: expressions, targets and statements.
ghost use Rattle.std.specs.Prelude.{◌≡◌, ℕ, ◌+◌, ◌*◌, ◌<◌, ◌≤◌, ◌↔◌, length, slice_index, IsTrue};
ghost use Rattle.four_value.specs.Limits.{most_digits};
ghost use Rattle.gpi.specs.Terms.{width, IsSound, IsWidth, AreWords};
ghost use Rattle.gpi.specs.Targets.{target_width, object_width, IsSoundTarget, IsSoundObject};
ghost use Rattle.gpi.specs.Cases.{AreLabels, AreItems};
ghost use Rattle.gpi.specs.Activation.{acts_of, SoundList};
ghost use Rattle.gpi.specs.Activation as act;
ghost use Rattle.gpi.specs.Design.{widths};
ghost use Rattle.gpi.specs.Soundness.{IsWidthFound};
ghost use Rattle.gpi.specs.Stretches.{IsWidthTable};

use crate::acts::{Act, Acts, Label};
use crate::selects::Words;
use crate::stretches::WidthTable;
use crate::targets::{Object, Target};
use crate::terms::Term;
use crate::types::SigId;
use four_value::MOST_DIGITS;
use port_io::Sequence;

/// A width of 1 to 128.
fn proper(w: u8) -> Option<u8>
    ensures { IsWidthFound result (IsWidth w) w }
{
    if 1 <= w && w <= MOST_DIGITS {
        Some(w)
    } else {
        None
    }
}

/// The width of both operands.
fn common(a: u8, b: u8) -> Option<u8>
    requires { IsWidth a }
    ensures { IsWidthFound result (a ≡ b) a }
{
    if a == b { Some(a) } else { None }
}

/// The width of a concatenation.
fn joined(high: u8, low: u8) -> Option<u8>
    requires high { IsWidth high }
    requires low { IsWidth low }
    ensures { IsWidthFound result (low + high ≤ most_digits) (low + high) }
{
    if low <= MOST_DIGITS - high {
        Some(low + high)
    } else {
        None
    }
}

/// The width of a replication.
fn multiplied(n: u8, w: u8) -> Option<u8>
    requires { IsWidth w }
    ensures { IsWidthFound result ((1 ≤ n) × (n * w ≤ most_digits)) (n * w) }
{
    let whole = u32::from(n) * u32::from(w);
    if 1 <= n && whole <= u32::from(MOST_DIGITS) {
        Some(whole as u8)
    } else {
        None
    }
}

/// The width of a signal, if it is this one.
#[tactic(auto, using(crate::proofs::Sound::signals))]
fn signal_width(table: &WidthTable<'_>, sig: SigId, w: u8) -> Option<u8>
    requires { IsWidthTable table.now }
    ensures { IsWidthFound result ((sig.0 < length (widths table.now.signals.now)) × (slice_index (widths table.now.signals.now) sig.0 ≡ w)) w }
{
    let at = sig.0 as usize;
    if at < table.signals.len() {
        common(table.signals.get(at).width, w)
    } else {
        None
    }
}

impl Words {
    /// The width of the words among these signals, if it is this one.
    #[tactic(auto, using(crate::proofs::Sound::signals, crate::proofs::StretchLaws::words))]
    fn width_in(self, table: &WidthTable<'_>, w: u8) -> Option<u8>
        requires { IsWidthTable table.now }
        ensures { IsWidthFound result (AreWords self w (widths table.now.signals.now)) w }
    {
        let first = self.first.0 as usize;
        if first >= table.signals.len() || self.count > table.stretches[first] {
            return None;
        }
        if self.count > 0 && table.signals.get(first).width != w {
            return None;
        }
        proper(w)
    }
}

impl Term {
    /// The width, where the expression is sound over these signals.
    fn width_in(&self, table: &WidthTable<'_>) -> Option<u8>
        requires { IsWidthTable table.now }
        ensures { IsWidthFound result (IsSound self.now (widths table.now.signals.now)) (width self.now) }
    {
        match self {
            Term::Const(bits) => Some(bits.width()),
            Term::Signal(s, w) => signal_width(table, *s, *w),
            Term::Word(words, i, w) => i.width_in(table).and(words.width_in(table, *w)),
            Term::Select(a, _, i, w) => {
                let operands = a.width_in(table).and(i.width_in(table));
                operands.and(proper(*w))
            }
            Term::Unary(_, a) => a.width_in(table),
            Term::Arith(_, a, b) => common(a.width_in(table)?, b.width_in(table)?),
            Term::Compare(_, a, b) => {
                let operands = common(a.width_in(table)?, b.width_in(table)?);
                operands.and(Some(1))
            }
            Term::Logic(_, a, b) => {
                let operands = a.width_in(table).and(b.width_in(table));
                operands.and(Some(1))
            }
            Term::Reduce(_, a) => a.width_in(table).and(Some(1)),
            Term::Shift(_, a, count) => count.width_in(table).and(a.width_in(table)),
            Term::Cond(condition, a, b) => {
                condition.width_in(table)?;
                common(a.width_in(table)?, b.width_in(table)?)
            }
            Term::Concat(a, b) => joined(a.width_in(table)?, b.width_in(table)?),
            Term::Repeat(n, a) => multiplied(*n, a.width_in(table)?),
            Term::Resize(a, w) => a.width_in(table).and(proper(*w)),
        }
    }
}

impl Object {
    /// The width, where the object is sound over these signals.
    fn width_in(&self, table: &WidthTable<'_>) -> Option<u8>
        requires { IsWidthTable table.now }
        ensures { IsWidthFound result (IsSoundObject self.now (widths table.now.signals.now)) (object_width self.now) }
    {
        match self {
            Object::Signal(s, w) => signal_width(table, *s, *w),
            Object::Word(words, i, w) => {
                i.width_in(table)?;
                words.width_in(table, *w)
            }
        }
    }
}

impl Target {
    /// The width, where the target is sound over these signals.
    fn width_in(&self, table: &WidthTable<'_>) -> Option<u8>
        requires { IsWidthTable table.now }
        ensures { IsWidthFound result (IsSoundTarget self.now (widths table.now.signals.now)) (target_width self.now) }
    {
        match self {
            Target::Whole(object) => object.width_in(table),
            Target::Select(object, _, i, w) => {
                object.width_in(table)?;
                i.width_in(table)?;
                proper(*w)
            }
            Target::Join(a, b) => joined(a.width_in(table)?, b.width_in(table)?),
        }
    }
}

/// Whether an assignment of a value to a target is sound.
fn fits(target: &Target, value: &Term, table: &WidthTable<'_>) -> bool
    requires { IsWidthTable table.now }
    ensures { IsTrue result ↔ (IsSoundTarget target.now (widths table.now.signals.now)
        × IsSound value.now (widths table.now.signals.now) × (width value.now ≡ target_width target.now)) }
{
    match (target.width_in(table), value.width_in(table)) {
        (Some(there), Some(given)) => given == there,
        _ => false,
    }
}

/// Whether a label of a case statement is sound: of this width, and with one of so many items.
fn is_label(label: &Label, w: u8, items: usize, table: &WidthTable<'_>) -> bool
    requires { IsWidthTable table.now }
    ensures { IsTrue result ↔ (IsSound label.now.value (widths table.now.signals.now) × (width label.now.value ≡ w) × (label.now.item < items)) }
{
    match label.value.width_in(table) {
        Some(found) => found == w && (label.item as usize) < items,
        None => false,
    }
}

/// Whether the labels of a case statement are sound: of the width of the value, and each with one of so many items.
fn are_labels(labels: &Sequence<Label>, w: u8, items: usize, table: &WidthTable<'_>) -> bool
    requires { IsWidthTable table.now }
    ensures { IsTrue result ↔ (AreLabels labels.now w (widths table.now.signals.now) × AreItems labels.now items) }
{
    for at in 0..labels.len() {
        if !is_label(labels.get(at), w, items, table) {
            return false;
        }
    }
    true
}

/// Whether the value and the labels of a case statement are sound, with so many items.
fn is_choice(value: &Term, labels: &Sequence<Label>, items: usize, table: &WidthTable<'_>) -> bool
    requires { IsWidthTable table.now }
    ensures { IsTrue result ↔ (IsSound value.now (widths table.now.signals.now)
        × AreLabels labels.now (width value.now) (widths table.now.signals.now) × AreItems labels.now items) }
{
    match value.width_in(table) {
        Some(w) => are_labels(labels, w, items, table),
        None => false,
    }
}

impl Act {
    /// Whether the statement is sound over these signals.
    #[cycle(soundness)]
    pub(crate) fn is_sound(&self, table: &WidthTable<'_>) -> bool
        requires { IsWidthTable table.now }
        ensures { IsTrue result ↔ act.IsSound self.now (widths table.now.signals.now) }
    {
        match self {
            Act::Empty => true,
            Act::Block(acts) => acts.are_sound(table),
            Act::If(condition, first, second) => {
                condition.width_in(table).is_some()
                    && first.is_sound(table)
                    && second.is_sound(table)
            }
            Act::Case(_, value, labels, items, other) => {
                is_choice(value, labels, items.len(), table)
                    && items.are_sound(table)
                    && other.is_sound(table)
            }
            Act::Blocking(target, value) | Act::Nonblocking(target, value, _) => {
                fits(target, value, table)
            }
        }
    }
}

impl Acts {
    /// Whether each statement is sound.
    #[cycle(soundness)]
    fn are_sound(&self, table: &WidthTable<'_>) -> bool
        requires { IsWidthTable table.now }
        ensures { IsTrue result ↔ SoundList (acts_of self.now) (widths table.now.signals.now) }
    {
        for at in 0..self.len() {
            if !self.get(at).is_sound(table) {
                return false;
            }
        }
        true
    }
}
