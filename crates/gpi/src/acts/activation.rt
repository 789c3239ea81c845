//! One activation of a statement.
ghost use Rattle.std.specs.Prelude.{◌≡◌, ℕ, ◌+◌, ◌<◌, ◌≤◌, ◌++◌, ◌∷◌, [], List, length, take, drop, map, OnOk, OnErr};
ghost use Rattle.gpi.specs.Limits.{most_elements};
ghost use Rattle.gpi.specs.Terms.{widths_of, read};
ghost use Rattle.gpi.specs.Targets.{target_width, IsSoundTarget, updates_of, AreFitting, IsFitting};
ghost use Rattle.gpi.specs.Cases.{first_match, AreLabels};
ghost use Rattle.gpi.specs.Activation.{activation, after, blocking, written, IsSound, AreHidden, with_part};

use super::{Act, CaseKind, Label};
use crate::targets::Target;
use crate::types::{SigId, Update};
use four_value::{Bits, Digit};
use port_io::{NoMemory, Sequence};

impl Act {
    /// Runs the statement from its beginning to its end: the shown and the hidden values become what the activation leaves, and
    /// its updates are appended. `hidden` has one place for each signal. Without memory both maps and what was appended are of no
    /// use; what was there before in `updates` is kept.
    pub fn run(
        &self,
        signals: &mut Vec<Bits>,
        hidden: &mut Vec<Option<Bits>>,
        updates: &mut Vec<Update>,
    ) -> Result<(), NoMemory>
        requires few { length signals.old.items ≤ most_elements }
        requires sound { IsSound self.now (widths_of signals.old.items) }
        requires hidden { AreHidden hidden.old.items (widths_of signals.old.items) }
        requires fits { AreFitting updates.old.items (widths_of signals.old.items) }
        ensures widths { widths_of signals.new.items ≡ widths_of signals.old.items }
        ensures hidden { AreHidden hidden.new.items (widths_of signals.old.items) }
        ensures is { OnOk result (record { signals = signals.new.items; hidden = hidden.new.items; updates = updates.new.items }
            ≡ activation self.now (record { signals = signals.old.items; hidden = hidden.old.items; updates = updates.old.items })) }
        ensures fits { OnOk result (AreFitting updates.new.items (widths_of signals.old.items)) }
        ensures kept { take (length updates.old.items) updates.new.items ≡ updates.old.items }
    {
        match self {
            Act::Empty => Ok(()),
            Act::Block(acts) => {
                for act in &acts.list {
                    act.run(signals, hidden, updates)?;
                }
                Ok(())
            }
            Act::If(condition, first, second) => {
                let truth = condition.eval(signals).reduce_or();
                match truth {
                    Digit::One => first.run(signals, hidden, updates),
                    _ => second.run(signals, hidden, updates),
                }
            }
            Act::Case(kind, value, labels, items, other) => {
                let bits = value.eval(signals);
                match first_match(*kind, bits, labels, signals) {
                    Some(item) => items.list[item as usize].run(signals, hidden, updates),
                    None => other.run(signals, hidden, updates),
                }
            }
            Act::Blocking(target, value) => {
                let bits = value.eval(signals);
                assign(target, bits, signals, hidden, updates)
            }
            Act::Nonblocking(target, value, delay) => {
                let bits = value.eval(signals);
                push_updates(target, bits, *delay, signals, updates)
            }
        }
    }
}

/// The item of the first label that agrees with a value.
#[tactic(auto, using(crate::proofs::Steps::labels))]
fn first_match(
    kind: CaseKind,
    value: Bits,
    labels: &Sequence<Label>,
    signals: &[Bits],
) -> Option<u32>
    requires few { length signals.now ≤ most_elements }
    requires sound { AreLabels labels.now (length value) (widths_of signals.now) }
    ensures { result ≡ first_match kind value labels.now (read signals.now) }
{
    for at in 0..labels.len() {
        let label = labels.get(at);
        if kind.all_agree(value, label.value.eval(signals)) {
            return Some(label.item);
        }
    }
    None
}

/// A blocking assignment of a value.
#[tactic(auto, using(crate::proofs::Steps::assigns))]
fn assign(
    target: &Target,
    bits: Bits,
    signals: &mut Vec<Bits>,
    hidden: &mut Vec<Option<Bits>>,
    updates: &mut Vec<Update>,
) -> Result<(), NoMemory>
    requires few { length signals.old.items ≤ most_elements }
    requires sound { IsSoundTarget target.now (widths_of signals.old.items) }
    requires hidden { AreHidden hidden.old.items (widths_of signals.old.items) }
    requires wide { length bits ≡ target_width target.now }
    requires fits { AreFitting updates.old.items (widths_of signals.old.items) }
    ensures widths { widths_of signals.new.items ≡ widths_of signals.old.items }
    ensures hidden { AreHidden hidden.new.items (widths_of signals.old.items) }
    ensures is { OnOk result (record { signals = signals.new.items; hidden = hidden.new.items; updates = updates.new.items }
        ≡ blocking (updates_of target.now (read signals.old.items) bits)
        (record { signals = signals.old.items; hidden = hidden.old.items; updates = updates.old.items })) }
    ensures list { OnOk result (updates.new.items ≡ updates.old.items) }
    ensures kept { take (length updates.old.items) updates.new.items ≡ updates.old.items }
{
    let from = updates.len();
    push_updates(target, bits, 0, signals, updates)?;
    write_from(from, signals, hidden, updates);
    Ok(())
}

/// Writes the updates from number `from` on, in order, and takes them away.
#[tactic(auto, using(crate::proofs::Steps::applies))]
fn write_from(
    from: usize,
    signals: &mut Vec<Bits>,
    hidden: &mut Vec<Option<Bits>>,
    updates: &mut Vec<Update>,
)
    requires inside { from ≤ length updates.old.items }
    requires hidden { AreHidden hidden.old.items (widths_of signals.old.items) }
    requires fits { AreFitting updates.old.items (widths_of signals.old.items) }
    ensures widths { widths_of signals.new.items ≡ widths_of signals.old.items }
    ensures hidden { AreHidden hidden.new.items (widths_of signals.old.items) }
    ensures is { (us : List Update) → record { signals = signals.new.items; hidden = hidden.new.items; updates = us }
        ≡ blocking (drop from updates.old.items) (record { signals = signals.old.items; hidden = hidden.old.items; updates = us }) }
    ensures list { updates.new.items ≡ take from updates.old.items }
{
    let mut at = from;
    while at < updates.len() {
        let update = updates[at];
        write(&update, signals, hidden);
        at += 1;
    }
    updates.truncate(from);
}

/// Writes the digits of an update: into the hidden value of a signal that has one, else into the one that it shows.
#[tactic(auto, using(crate::proofs::Widths::widths, crate::proofs::Steps::hidden))]
fn write(update: &Update, signals: &mut Vec<Bits>, hidden: &mut Vec<Option<Bits>>)
    requires fits { IsFitting update.now (widths_of signals.old.items) }
    requires hidden { AreHidden hidden.old.items (widths_of signals.old.items) }
    ensures widths { widths_of signals.new.items ≡ widths_of signals.old.items }
    ensures hidden { AreHidden hidden.new.items (widths_of signals.old.items) }
    ensures is { (us : List Update) → record { signals = signals.new.items; hidden = hidden.new.items; updates = us }
        ≡ written update.now (record { signals = signals.old.items; hidden = hidden.old.items; updates = us }) }
{
    let at = update.sig.0 as usize;
    match hidden[at] {
        Some(bits) => hidden[at] = Some(placed(bits, update.low, update.bits)),
        None => signals[at] = placed(signals[at], update.low, update.bits),
    }
}

/// A vector with the digits of `part` from the place `low` on.
pub fn placed(bits: Bits, low: u8, part: Bits) -> Bits
    requires { low + length part ≤ length bits }
    ensures is { result ≡ with_part bits low part }
    ensures wide { length result ≡ length bits }
{
    let high = low + part.width();
    let upper = if high < bits.width() {
        bits.slice(high, bits.width() - high).concat(part)
    } else {
        part
    };
    if low > 0 {
        upper.concat(bits.slice(0, low))
    } else {
        upper
    }
}

/// Appends the updates that give a target these digits, so many steps later.
#[tactic(auto, using(crate::proofs::Steps::pushes))]
fn push_updates(
    target: &Target,
    bits: Bits,
    delay: u64,
    signals: &[Bits],
    updates: &mut Vec<Update>,
) -> Result<(), NoMemory>
    requires few { length signals.now ≤ most_elements }
    requires sound { IsSoundTarget target.now (widths_of signals.now) }
    requires wide { length bits ≡ target_width target.now }
    requires fits { AreFitting updates.old.items (widths_of signals.now) }
    ensures is { OnOk result (updates.new.items ≡ updates.old.items ++ map (after delay) (updates_of target.now (read signals.now) bits)) }
    ensures fits { OnOk result (AreFitting updates.new.items (widths_of signals.now)) }
    ensures kept { take (length updates.old.items) updates.new.items ≡ updates.old.items }
{
    match target {
        Target::Whole(object) => match object.at(signals) {
            Some(s) => push(
                updates,
                &Update {
                    sig: SigId(s),
                    low: 0,
                    bits,
                    delay,
                },
            ),
            None => Ok(()),
        },
        Target::Select(object, range, index, w) => {
            let base = index.eval(signals).to_number();
            match object.at(signals) {
                Some(s) => match range.overlap(object.width(), base, *w) {
                    Some(overlap) => push(
                        updates,
                        &Update {
                            sig: SigId(s),
                            low: overlap.place,
                            bits: bits.slice(overlap.skip, overlap.count),
                            delay,
                        },
                    ),
                    None => Ok(()),
                },
                None => Ok(()),
            }
        }
        Target::Join(high, low) => {
            let low_width = low.width(signals);
            let high_width = high.width(signals);
            push_updates(
                high,
                bits.slice(low_width, high_width),
                delay,
                signals,
                updates,
            )?;
            push_updates(low, bits.slice(0, low_width), delay, signals, updates)
        }
    }
}

/// Adds an update at the end.
fn push(updates: &mut Vec<Update>, update: &Update) -> Result<(), NoMemory>
    ensures ok { OnOk result (updates.new.items ≡ updates.old.items ++ update.now ∷ []) }
    ensures err { OnErr result (updates.new.items ≡ updates.old.items) }
{
    updates.push(*update)?;
    Ok(())
}
