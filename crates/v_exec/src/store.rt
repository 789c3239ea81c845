//! The instructions that store.
ghost use Rattle.std.specs.Prelude.{◌≡◌, ◌<◌, ◌≤◌, ◌+◌, ◌++◌, ◌∷◌, [], ℕ, List, length, vec_len, vec_capacity, IfSome, slice_index};
ghost use Rattle.gpi.specs.Limits.{most_elements};
ghost use Rattle.gpi.specs.declared.types.Update.{Update};
ghost use Rattle.gpi.specs.Terms.{widths_of};
ghost use Rattle.gpi.specs.Targets.{whole_update, part_update, IsFitting, AreFitting};
ghost use Rattle.gpi.specs.Activation.{Map, AreHidden, written, blocking};
ghost use Rattle.v_exec.specs.Machine.{updates_to, below_store, stored};
ghost use Rattle.v_exec.specs.Fits.{Takes_place};
ghost use Rattle.v_exec.specs.Stack.{stack_of, stack_room};
ghost use Rattle.v_exec.specs.Workspace.{AreMarks, AreTouched};
ghost use Rattle.v_exec.specs.Running.{listed, machine_of, IsRunning, HasSpace, Grows};

use crate::instruction::{Mode, Place};
use crate::stack::Stack;
use crate::workspace::{Touched, Workspace};
use four_value::Bits;
use gpi::{Overlap, SigId, Update, placed};

/// Takes the operands of a store off, and gives its update; none where an index is unknown or outside (clauses 5.2.1 and 5.2.2).
#[inline(always)]
#[tactic(auto, using(gpi::proofs::Widths::widths, crate::proofs::Operands::operands))]
fn take_update(place: Place, shown: &[Bits], stack: &mut Stack) -> Option<Update>
    requires few { length shown.now ≤ most_elements }
    requires takes { Takes_place place (widths_of shown.now) (widths_of (stack_of stack.old)) }
    ensures is { listed result ≡ updates_to place (stack_of stack.old) }
    ensures fits { IfSome result (λ u. IsFitting u (widths_of shown.now)) }
    ensures below { stack_of stack.new ≡ below_store place (stack_of stack.old) }
    ensures room { stack_room stack.new ≡ stack_room stack.old }
{
    match place {
        Place::Signal(sig) => whole(Some(sig.0), stack.pop()),
        Place::Word(words) => {
            let index = stack.pop().to_number();
            whole(words.at(index), stack.pop())
        }
        Place::SignalPart {
            sig,
            range,
            width,
            count,
        } => {
            let index = stack.pop().to_number();
            part(Some(sig.0), range.overlap(width, index, count), stack.pop())
        }
        Place::WordPart {
            words,
            range,
            width,
            count,
        } => {
            let index = stack.pop().to_number();
            let at = stack.pop().to_number();
            part(
                words.at(at),
                range.overlap(width, index, count),
                stack.pop(),
            )
        }
    }
}

/// The update of a whole signal.
#[inline(always)]
fn whole(sig: Option<u32>, bits: Bits) -> Option<Update>
    ensures is { listed result ≡ whole_update sig bits }
    ensures fits { (ws : List ℕ) → IfSome sig (λ s. (s < length ws) × (slice_index ws s ≡ length bits))
        → IfSome result (λ u. IsFitting u ws) }
{
    Some(Update {
        sig: SigId(sig?),
        low: 0,
        bits,
        delay: 0,
    })
}

/// The update of those digits of a select that lie inside.
#[inline(always)]
fn part(sig: Option<u32>, overlap: Option<Overlap>, bits: Bits) -> Option<Update>
    requires { IfSome overlap (λ o. (1 ≤ o.count) × (o.skip + o.count ≤ length bits)) }
    ensures is { listed result ≡ part_update sig overlap bits }
    ensures fits { (ws : List ℕ) → IfSome sig (λ s. (s < length ws) × IfSome overlap (λ o. o.place + o.count ≤ slice_index ws s))
        → IfSome result (λ u. IsFitting u ws) }
{
    let sig = sig?;
    let overlap = overlap?;
    Some(Update {
        sig: SigId(sig),
        low: overlap.place,
        bits: bits.slice(overlap.skip, overlap.count),
        delay: 0,
    })
}

/// Writes the digits of an update: into the hidden value of a signal that has one, else into the one that it shows, and then the signal is
/// touched.
#[inline(always)]
#[tactic(auto, using(gpi::proofs::Widths::widths, gpi::proofs::Steps::hidden, crate::proofs::Touches::touches))]
fn write(
    update: Update,
    shown: &mut [Bits],
    hidden: &mut [Option<Bits>],
    touched: &mut Vec<Touched>,
    flags: &mut Vec<bool>,
)
    ghost before: { Map }
    requires fits { IsFitting update (widths_of shown.old) }
    requires hidden { AreHidden hidden.old (widths_of shown.old) }
    requires count { length flags.old.items ≡ length shown.old }
    requires marks { AreMarks flags.old.items touched.old.items }
    requires touched { AreTouched before shown.old touched.old.items }
    requires space { vec_len touched.old < vec_capacity touched.old }
    ensures widths { widths_of shown.new ≡ widths_of shown.old }
    ensures hidden { AreHidden hidden.new (widths_of shown.old) }
    ensures is { (us : List Update) → record { signals = shown.new; hidden = hidden.new; updates = us }
        ≡ written update (record { signals = shown.old; hidden = hidden.old; updates = us }) }
    ensures count { length flags.new.items ≡ length flags.old.items }
    ensures marks { AreMarks flags.new.items touched.new.items }
    ensures touched { AreTouched before shown.new touched.new.items }
    ensures few { length touched.new.items ≤ length touched.old.items + 1 }
    ensures room { vec_capacity touched.new ≡ vec_capacity touched.old }
{
    let sig = update.sig;
    let at = sig.0 as usize;
    let kept = hidden[at];
    match kept {
        Some(bits) => hidden[at] = Some(placed(bits, update.low, update.bits)),
        None => {
            let before = shown[at];
            shown[at] = placed(before, update.low, update.bits);
            if !flags[at] {
                flags[at] = true;
                touched.push_reserved(Touched { sig, before });
            }
        }
    }
}

/// Does a store.
#[inline(always)]
#[tactic(auto, using(gpi::proofs::Steps::pushes, gpi::proofs::Widths::widths))]
pub(crate) fn store(
    place: Place,
    mode: Mode,
    shown: &mut [Bits],
    hidden: &mut [Option<Bits>],
    later: &mut Vec<Update>,
    work: &mut Workspace,
)
    ghost before: { Map }
    requires running { IsRunning before shown.old hidden.old work.old }
    requires fits { AreFitting later.old.items (widths_of shown.old) }
    requires takes { Takes_place place (widths_of shown.old) (widths_of (stack_of work.old.stack)) }
    requires space { HasSpace work.old (vec_len later.old) (vec_capacity later.old) }
    ensures is { machine_of work.new shown.new hidden.new later.new.items ≡ stored mode (updates_to place (stack_of work.old.stack))
        (below_store place (stack_of work.old.stack)) (machine_of work.old shown.old hidden.old later.old.items) }
    ensures widths { widths_of shown.new ≡ widths_of shown.old }
    ensures running { IsRunning before shown.new hidden.new work.new }
    ensures fits { AreFitting later.new.items (widths_of shown.old) }
    ensures grows { Grows 1 work.old work.new }
    ensures few { length later.new.items ≤ 1 + length later.old.items }
    ensures room { vec_capacity later.new ≡ vec_capacity later.old }
{
    if let Some(update) = take_update(place, shown, &mut work.stack) {
        match mode {
            Mode::Now => write(update, shown, hidden, &mut work.touched, &mut work.flags),
            Mode::Noted => work.noted.push_reserved(update),
            Mode::Later(delay) => {
                let mut waiting = update;
                waiting.delay = delay;
                later.push_reserved(waiting);
            }
        }
    }
}

/// Writes what was noted, in order.
#[tactic(auto, using(gpi::proofs::Steps::applies, gpi::proofs::Widths::widths))]
pub(crate) fn write_noted(shown: &mut [Bits], hidden: &mut [Option<Bits>], work: &mut Workspace)
    ghost before: { Map }
    requires { IsRunning before shown.old hidden.old work.old }
    ensures widths { widths_of shown.new ≡ widths_of shown.old }
    ensures is { (us : List Update) → record { signals = shown.new; hidden = hidden.new; updates = us }
        ≡ blocking work.old.noted.items (record { signals = shown.old; hidden = hidden.old; updates = us }) }
    ensures none { work.new.noted.items ≡ [] }
    ensures stack { work.new.stack ≡ work.old.stack }
    ensures running { IsRunning before shown.new hidden.new work.new }
    ensures grows { Grows 0 work.old work.new }
{
    write_all(
        &work.noted,
        shown,
        hidden,
        &mut work.touched,
        &mut work.flags,
    );
    work.noted.clear();
}

/// Writes updates, in order.
#[tactic(auto, using(gpi::proofs::Steps::applies, gpi::proofs::Widths::widths))]
fn write_all(
    updates: &[Update],
    shown: &mut [Bits],
    hidden: &mut [Option<Bits>],
    touched: &mut Vec<Touched>,
    flags: &mut Vec<bool>,
)
    ghost before: { Map }
    requires fits { AreFitting updates.now (widths_of shown.old) }
    requires hidden { AreHidden hidden.old (widths_of shown.old) }
    requires count { length flags.old.items ≡ length shown.old }
    requires marks { AreMarks flags.old.items touched.old.items }
    requires touched { AreTouched before shown.old touched.old.items }
    requires space { length touched.old.items + length updates.now ≤ vec_capacity touched.old }
    ensures widths { widths_of shown.new ≡ widths_of shown.old }
    ensures hidden { AreHidden hidden.new (widths_of shown.old) }
    ensures is { (us : List Update) → record { signals = shown.new; hidden = hidden.new; updates = us }
        ≡ blocking updates.now (record { signals = shown.old; hidden = hidden.old; updates = us }) }
    ensures count { length flags.new.items ≡ length flags.old.items }
    ensures marks { AreMarks flags.new.items touched.new.items }
    ensures touched { AreTouched before shown.new touched.new.items }
    ensures few { length touched.new.items ≤ length touched.old.items + length updates.now }
    ensures room { vec_capacity touched.new ≡ vec_capacity touched.old }
{
    let mut at = 0;
    while at < updates.len() {
        write(updates[at], shown, hidden, touched, flags);
        at += 1;
    }
}
