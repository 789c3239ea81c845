//! What the signals show, and what is hidden of those that are forced.
ghost use Rattle.std.specs.Prelude.{◌≡◌, ◌<◌, ◌≤◌, [], true, false, None, Some, length, replicate, is_some, slice_set, IfOk, OnOk, IsTrue};
ghost use Rattle.four_value.specs.Limits.{most_digits};
ghost use Rattle.gpi.specs.Limits.{most_elements};
ghost use Rattle.gpi.specs.Terms.{widths_of};
ghost use Rattle.gpi.specs.Targets.{AreFitting};
ghost use Rattle.gpi.specs.Soundness.{are_wide};
ghost use Rattle.gpi.specs.Design.{start_map, start_hidden};
ghost use Rattle.gpi.specs.Activation.{activation, hidden_in, IsSound};
ghost use Rattle.gpi.specs.Events.{or_shown};
ghost use Rattle.list_kernel.specs.Values.{shown_in, AreSized, AreValues};

use four_value::Bits;
use gpi::{Act, SigId, Signal, Update};
use kernel_base::{start_signals, unforced};
use port_io::{NoMemory, Sequence};
use std::alloc::Global;

/// What the signals show and hide, by number, and what they did before the last activation. With no signal forced none has a
/// hidden value, before it either.
#[derive(Drop)]
pub struct Values {
    pub shown: Vec<Bits>,
    pub shown_before: Vec<Bits>,
    pub hidden: Vec<Option<Bits>>,
    pub hidden_before: Vec<Option<Bits>>,
    pub any_forced: bool,
}

impl Values {
    /// No signals.
    pub fn new(alloc: Global) -> Values
        ensures shown { result.shown.items ≡ [] }
        ensures hidden { result.hidden.items ≡ [] }
    {
        Values {
            shown: Vec::new(alloc),
            shown_before: Vec::new(alloc),
            hidden: Vec::new(alloc),
            hidden_before: Vec::new(alloc),
            any_forced: false,
        }
    }

    /// The signals of a design in its opening state.
    pub fn opened(alloc: Global, signals: &Sequence<Signal>) -> Result<Values, NoMemory>
        requires few { length signals.now ≤ most_elements }
        requires wide { IsTrue (are_wide signals.now) }
        ensures shown { IfOk result (λ values. values.shown.items ≡ start_map signals.now) }
        ensures hidden { IfOk result (λ values. values.hidden.items ≡ start_hidden signals.now) }
        ensures values { IfOk result AreValues }
    {
        let shown = start_signals(alloc, signals)?;
        let shown_before = Vec::from_slice(alloc, &shown)?;
        let hidden = unforced(alloc, signals.len())?;
        let hidden_before = unforced(alloc, signals.len())?;
        Ok(Values {
            shown,
            shown_before,
            hidden,
            hidden_before,
            any_forced: false,
        })
    }

    /// The hidden value of a signal, which it has while it is forced.
    pub fn hidden_of(&self, sig: SigId) -> Option<Bits>
        requires { sig.0 < length self.now.hidden.items }
        ensures { result ≡ hidden_in self.now.hidden.items sig.0 }
    {
        self.hidden[sig.0 as usize]
    }

    /// Whether a signal is forced.
    pub fn is_forced(&self, sig: SigId) -> bool
        requires { sig.0 < length self.now.hidden.items }
        ensures { result ≡ is_some (hidden_in self.now.hidden.items sig.0) }
    {
        self.hidden_of(sig).is_some()
    }

    /// The value that writes go to: the hidden one of a forced signal, the shown one of another.
    pub fn stored(&self, sig: SigId) -> Bits
        requires hidden { sig.0 < length self.now.hidden.items }
        requires shown { sig.0 < length self.now.shown.items }
        ensures { result ≡ or_shown (hidden_in self.now.hidden.items sig.0) (shown_in self.now sig.0) }
    {
        match self.hidden_of(sig) {
            Some(bits) => bits,
            None => self.shown[sig.0 as usize],
        }
    }

    /// A signal is forced, with this hidden value.
    #[tactic(auto, using(kernel_base::proofs::Hiding::hiding))]
    pub fn hide(&mut self, sig: SigId, bits: Bits)
        requires values { AreValues self.old }
        requires sig { sig.0 < length self.old.shown.items }
        requires width { length bits ≡ length (shown_in self.old sig.0) }
        ensures values { AreValues self.new }
        ensures shown { self.new.shown.items ≡ self.old.shown.items }
        ensures is { self.new.hidden.items ≡ slice_set self.old.hidden.items sig.0 (Some bits) }
    {
        self.hidden[sig.0 as usize] = Some(bits);
        self.any_forced = true;
    }

    /// A signal isn't forced any more.
    #[tactic(auto, using(kernel_base::proofs::Hiding::hiding))]
    pub fn unhide(&mut self, sig: SigId)
        requires values { AreValues self.old }
        requires sig { sig.0 < length self.old.shown.items }
        ensures values { AreValues self.new }
        ensures shown { self.new.shown.items ≡ self.old.shown.items }
        ensures is { self.new.hidden.items ≡ slice_set self.old.hidden.items sig.0 None }
    {
        self.hidden[sig.0 as usize] = None;
        self.any_forced = has_forced(&self.hidden);
        self.hidden_before.copy_from_slice(&self.hidden);
    }

    /// A signal shows these digits.
    #[tactic(auto, using(gpi::proofs::Widths::widths, crate::proofs::Loaded::loaded))]
    pub fn show(&mut self, sig: SigId, bits: Bits)
        requires values { AreValues self.old }
        requires sig { sig.0 < length self.old.shown.items }
        requires width { length bits ≡ length (shown_in self.old sig.0) }
        ensures values { AreValues self.new }
        ensures widths { widths_of self.new.shown.items ≡ widths_of self.old.shown.items }
        ensures hidden { self.new.hidden.items ≡ self.old.hidden.items }
        ensures is { self.new.shown.items ≡ slice_set self.old.shown.items sig.0 bits }
    {
        self.shown[sig.0 as usize] = bits;
    }

    /// Keeps all values, for `put_back`.
    #[tactic(auto, using(kernel_base::proofs::Hiding::hidden_places))]
    pub fn keep(&mut self)
        requires { AreValues self.old }
        ensures values { AreValues self.new }
        ensures shown { self.new.shown.items ≡ self.old.shown.items }
        ensures hidden { self.new.hidden.items ≡ self.old.hidden.items }
        ensures shown_kept { self.new.shown_before.items ≡ self.old.shown.items }
        ensures hidden_kept { self.new.hidden_before.items ≡ self.old.hidden.items }
        ensures any_forced { self.new.any_forced ≡ self.old.any_forced }
    {
        self.shown_before.copy_from_slice(&self.shown);
        if self.any_forced {
            self.hidden_before.copy_from_slice(&self.hidden);
        }
    }

    /// Puts back what was kept.
    #[tactic(auto, using(kernel_base::proofs::Hiding::hidden_places))]
    pub fn put_back(&mut self)
        requires { AreSized self.old }
        ensures shown { self.new.shown.items ≡ self.old.shown_before.items }
        ensures hidden { self.new.hidden.items ≡ self.old.hidden_before.items }
        ensures shown_before { self.new.shown_before.items ≡ self.old.shown_before.items }
        ensures hidden_before { self.new.hidden_before.items ≡ self.old.hidden_before.items }
        ensures any_forced { self.new.any_forced ≡ self.old.any_forced }
    {
        self.shown.copy_from_slice(&self.shown_before);
        self.hidden.copy_from_slice(&self.hidden_before);
    }

    /// Runs a statement, whose updates are appended to an empty list. Without memory the values are of no use until they
    /// are put back.
    pub fn run(&mut self, act: &Act, updates: &mut Vec<Update>) -> Result<(), NoMemory>
        requires values { AreValues self.old }
        requires sound { IsSound act.now (widths_of self.old.shown.items) }
        requires none { updates.old.items ≡ [] }
        ensures sized { AreSized self.new }
        ensures values { OnOk result (AreValues self.new) }
        ensures widths { widths_of self.new.shown.items ≡ widths_of self.old.shown.items }
        ensures shown_kept { self.new.shown_before.items ≡ self.old.shown_before.items }
        ensures hidden_kept { self.new.hidden_before.items ≡ self.old.hidden_before.items }
        ensures any_forced { self.new.any_forced ≡ self.old.any_forced }
        ensures is { OnOk result (record { signals = self.new.shown.items; hidden = self.new.hidden.items; updates = updates.new.items }
            ≡ activation act.now (record { signals = self.old.shown.items; hidden = self.old.hidden.items; updates = [] })) }
        ensures fits { OnOk result (AreFitting updates.new.items (widths_of self.old.shown.items)) }
    {
        act.run(&mut self.shown, &mut self.hidden, updates)
    }
}

/// Whether a signal is forced.
fn has_forced(hidden: &[Option<Bits>]) -> bool
    ensures { result ≡ false → hidden.now ≡ replicate (length hidden.now) None }
{
    let mut at = 0;
    while at < hidden.len() {
        if hidden[at].is_some() {
            return true;
        }
        at += 1;
    }
    false
}
