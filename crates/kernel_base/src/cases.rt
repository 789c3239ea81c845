//! A design that is simulated, and the cases of an event.
ghost use Rattle.std.specs.Prelude.{◌≡◌, ◌<◌, ◌≤◌, ◌+◌, ◌∷◌, [], Bool, true, false, None, Some, length, IfOk, OnErr, IfSome, MatchOption, is_some, slice_index_or};
ghost use Rattle.gpi.specs.Terms.{widths_of};
ghost use Rattle.gpi.specs.Activation.{with_part};
ghost use Rattle.gpi.specs.Keys.{fired_of};
ghost use Rattle.gpi.specs.Events.{
  show,
  put,
  force,
  release,
  release_over,
  hidden_at,
  stored_at,
  value_at,
  with_hidden,
  active_case,
  settle_case,
  end_case,
  edge_keys,
  tells,
};
ghost use Rattle.gpi.specs.Content.{Content, Does, Answers, IsRunning};
ghost use Rattle.kernel_base.specs.Steps.{
  TellsIt,
  Answered,
  moved_if,
  from_time,
  from_end,
  from_settle,
  from_later,
  from_active,
  from_due,
  from_reports,
};

use crate::quiet::unseen;
use four_value::Bits;
use gpi::{Advance, Fired, Moved, Region, Report, SigId, Told, Update, placed};
use port_io::NoMemory;

/// A design that is simulated: what a simulator does with the parts that it keeps in its own way, and what all simulators do alike with these.
///
/// Contracts see what it holds as a `Content`.
pub trait Simulated {
    ghost use Rattle.std.specs.Prelude.{◌≡◌, ◌<◌, ◌≤◌, ◌+◌, ◌∷◌, [], Bool, true, false, None, Some, length, IfOk, OnErr, IfSome, MatchOption, is_some, slice_index_or};
    ghost use Rattle.gpi.specs.Terms.{widths_of};
    ghost use Rattle.gpi.specs.Activation.{with_part};
    ghost use Rattle.gpi.specs.Keys.{fired_of};
    ghost use Rattle.gpi.specs.declared.types.Region.TheVariants as region;
    ghost use Rattle.gpi.specs.Events.{
      show,
      put,
      force,
      release,
      release_over,
      hidden_at,
      stored_at,
      value_at,
      with_hidden,
      active_case,
      settle_case,
      end_case,
      edge_keys,
      tells,
    };
    ghost use Rattle.gpi.specs.Content.{Content, Does, Answers, IsRunning};
    ghost use Rattle.kernel_base.specs.Steps.{
      TellsIt,
      Answered,
      moved_if,
      from_time,
      from_end,
      from_settle,
      from_later,
      from_active,
      from_due,
      from_reports,
    };

    /// The processes, which signals are nets, the state, the registered keys and the counts.
    ghost held: { Self → Content };

    /// It holds a design.
    ghost is_held: { Self → Type 0 };

    /// The simulation stands in this region from now on.
    fn enter(&mut self, region: Region)
        requires { is_held self.old }
        ensures held { is_held self.new }
        ensures is { held self.new ≡ record (held self.old) { state = record (held self.old).state { region = region } } };

    /// The value that a signal shows.
    fn shown_at(&self, sig: SigId) -> Bits
        requires held { is_held self.now }
        requires sig { sig.0 < length (held self.now).state.signals }
        ensures { result ≡ value_at (held self.now).state sig };

    /// The hidden value of a signal, which it has while it is forced.
    fn hidden_at(&self, sig: SigId) -> Option<Bits>
        requires held { is_held self.now }
        requires sig { sig.0 < length (held self.now).state.signals }
        ensures is { result ≡ hidden_at (held self.now).state sig }
        ensures wide { IfSome result (λ bits. length bits ≡ length (value_at (held self.now).state sig)) };

    /// A signal gets this hidden value, or another one than it has.
    fn hide(&mut self, sig: SigId, bits: Bits)
        requires held { is_held self.old }
        requires sig { sig.0 < length (held self.old).state.signals }
        requires width { length bits ≡ length (value_at (held self.old).state sig) }
        ensures held { is_held self.new }
        ensures is { held self.new ≡ record (held self.old) { state = with_hidden (held self.old).state sig (Some bits) } };

    /// A signal has no hidden value any more.
    fn unhide(&mut self, sig: SigId)
        requires held { is_held self.old }
        requires sig { sig.0 < length (held self.old).state.signals }
        ensures held { is_held self.new }
        ensures is { held self.new ≡ record (held self.old) { state = with_hidden (held self.old).state sig None } };

    /// Whether a signal is a net.
    fn is_net(&self, sig: SigId) -> bool
        requires held { is_held self.now }
        requires sig { sig.0 < length (held self.now).state.signals }
        ensures { result ≡ slice_index_or (held self.now).nets sig.0 false };

    /// A signal shows these digits from now on.
    fn show(&mut self, sig: SigId, bits: Bits) -> Moved
        requires held { is_held self.old }
        requires sig { sig.0 < length (held self.old).state.signals }
        requires width { length bits ≡ length (value_at (held self.old).state sig) }
        ensures held { is_held self.new }
        ensures widths { widths_of (held self.new).state.signals ≡ widths_of (held self.old).state.signals }
        ensures is { let c = held self.old in TellsIt c (show c.procs c.state c.keys sig bits) result (held self.new) };

    /// Fires the keys of a change.
    fn fire(&mut self, report: &Report) -> Fired
        requires held { is_held self.old }
        requires sig { report.now.sig.0 < length (held self.old).state.signals }
        ensures held { is_held self.new }
        ensures fired { result ≡ fired_of (edge_keys report.now (held self.old).keys) }
        ensures is { let c = held self.old in
            Does c (record { state = c.state; told = None; fired = edge_keys report.now c.keys }) (held self.new) };

    /// Takes the next change that is still to be told.
    fn next_report(&mut self) -> Option<Report>
        requires { is_held self.old }
        ensures held { is_held self.new }
        ensures is { MatchOption result (((held self.old).state.reports ≡ []) × (held self.new ≡ held self.old))
            (λ report. held self.old
            ≡ record (held self.new) { state = record (held self.new).state { reports = report ∷ (held self.new).state.reports } }) }
        ensures inside { IfSome result (λ report. report.sig.0 < length (held self.new).state.signals) };

    /// Takes the next update that is due.
    fn next_due(&mut self) -> Option<Update>
        requires { is_held self.old }
        ensures held { is_held self.new }
        ensures is { MatchOption result (((held self.old).state.due ≡ []) × (held self.new ≡ held self.old))
            (λ update. held self.old ≡ record (held self.new) { state = record (held self.new).state { due = update ∷ (held self.new).state.due } }) }
        ensures sig { IfSome result (λ update. update.sig.0 < length (held self.new).state.signals) }
        ensures inside { IfSome result (λ update.
            update.low + length update.bits ≤ length (value_at (held self.new).state update.sig)) };

    /// Takes the first update that waits for the running processes, where none is due; the others become due.
    fn next_later(&mut self) -> Option<Update>
        requires held { is_held self.old }
        requires none { (held self.old).state.due ≡ [] }
        ensures held { is_held self.new }
        ensures is { MatchOption result (((held self.old).state.later ≡ []) × (held self.new ≡ held self.old))
            (λ update. held self.old ≡ record (held self.new) {
              state = record (held self.new).state { due = []; later = update ∷ (held self.new).state.due };
            }) }
        ensures none { IfSome result (λ update. (held self.new).state.later ≡ []) }
        ensures sig { IfSome result (λ update. update.sig.0 < length (held self.new).state.signals) }
        ensures inside { IfSome result (λ update.
            update.low + length update.bits ≤ length (value_at (held self.new).state update.sig)) };

    /// 3: the first active process is run, if one is active; tells whether one was.
    fn run_first(&mut self) -> Result<bool, NoMemory>
        requires held { is_held self.old }
        requires quiet { (held self.old).state.reports ≡ [] }
        ensures held { is_held self.new }
        ensures widths { widths_of (held self.new).state.signals ≡ widths_of (held self.old).state.signals }
        ensures is { let c = held self.old in IfOk result
            (λ ran. Answered c (active_case c.procs c.state c.state.active) (moved_if ran) (held self.new)) }
        ensures kept { OnErr result (held self.new ≡ held self.old) }
        ensures cause { OnErr result (0 < length (held self.old).state.active) };

    /// 5: ReadWrite fires.
    fn settle(&mut self) -> Option<Moved>
        requires { is_held self.old }
        ensures held { is_held self.new }
        ensures widths { widths_of (held self.new).state.signals ≡ widths_of (held self.old).state.signals }
        ensures is { Answered (held self.old) (settle_case (held self.old).state (held self.old).keys) result (held self.new) };

    /// 6: ReadOnly fires.
    fn end(&mut self) -> Option<Moved>
        requires { is_held self.old }
        ensures held { is_held self.new }
        ensures widths { widths_of (held self.new).state.signals ≡ widths_of (held self.old).state.signals }
        ensures is { Answered (held self.old) (end_case (held self.old).state (held self.old).keys) result (held self.new) };

    /// 7: time moves on, and the updates that waited for it become the later ones.
    fn move_time(&mut self) -> Option<Moved>
        requires { is_held self.old }
        ensures held { is_held self.new }
        ensures widths { widths_of (held self.new).state.signals ≡ widths_of (held self.old).state.signals }
        ensures is { Answered (held self.old) (from_time (held self.old)) result (held self.new) };

    /// The value that writes go to: the hidden one of a forced signal, the shown one of another.
    fn stored_at(&self, sig: SigId) -> Bits
        requires held { is_held self.now }
        requires sig { sig.0 < length (held self.now).state.signals }
        ensures is { result ≡ stored_at (held self.now).state sig }
        ensures wide { length result ≡ length (value_at (held self.now).state sig) }
    {
        match self.hidden_at(sig) {
            Some(bits) => bits,
            None => self.shown_at(sig),
        }
    }

    /// Writes a signal: of a forced one the hidden value alone.
    fn put(&mut self, sig: SigId, bits: Bits) -> Moved
        requires held { is_held self.old }
        requires sig { sig.0 < length (held self.old).state.signals }
        requires width { length bits ≡ length (value_at (held self.old).state sig) }
        ensures held { is_held self.new }
        ensures widths { widths_of (held self.new).state.signals ≡ widths_of (held self.old).state.signals }
        ensures is { let c = held self.old in TellsIt c (put c.procs c.state c.keys sig bits) result (held self.new) }
    {
        match self.hidden_at(sig) {
            Some(_) => {
                self.hide(sig, bits);
                unseen()
            }
            None => self.show(sig, bits),
        }
    }

    /// Forces a signal.
    fn put_force(&mut self, sig: SigId, bits: Bits) -> Moved
        requires held { is_held self.old }
        requires sig { sig.0 < length (held self.old).state.signals }
        requires width { length bits ≡ length (value_at (held self.old).state sig) }
        ensures held { is_held self.new }
        ensures widths { widths_of (held self.new).state.signals ≡ widths_of (held self.old).state.signals }
        ensures is { let c = held self.old in TellsIt c (force c.procs c.state c.keys sig bits) result (held self.new) }
    {
        let stored = self.stored_at(sig);
        self.hide(sig, stored);
        self.show(sig, bits)
    }

    /// Ends a force, if there is one.
    fn end_force(&mut self, sig: SigId) -> Moved
        requires held { is_held self.old }
        requires sig { sig.0 < length (held self.old).state.signals }
        ensures held { is_held self.new }
        ensures widths { widths_of (held self.new).state.signals ≡ widths_of (held self.old).state.signals }
        ensures is { let c = held self.old in TellsIt c (release c.procs c.nets c.state c.keys sig) result (held self.new) }
    {
        match self.hidden_at(sig) {
            Some(bits) => self.end_over(sig, bits),
            None => unseen(),
        }
    }

    /// Ends the force of a signal with this hidden value: a net shows it, a register goes on with what it shows.
    fn end_over(&mut self, sig: SigId, bits: Bits) -> Moved
        requires held { is_held self.old }
        requires sig { sig.0 < length (held self.old).state.signals }
        requires width { length bits ≡ length (value_at (held self.old).state sig) }
        ensures held { is_held self.new }
        ensures widths { widths_of (held self.new).state.signals ≡ widths_of (held self.old).state.signals }
        ensures is { let c = held self.old in
            TellsIt c (release_over (Some bits) (slice_index_or c.nets sig.0 false) c.procs c.state c.keys sig) result (held self.new) }
    {
        let net = self.is_net(sig);
        self.unhide(sig);
        if net {
            return self.show(sig, bits);
        }
        unseen()
    }

    /// A report is told.
    fn tell(&mut self, report: &Report) -> Moved
        requires held { is_held self.old }
        requires sig { report.now.sig.0 < length (held self.old).state.signals }
        ensures held { is_held self.new }
        ensures widths { widths_of (held self.new).state.signals ≡ widths_of (held self.old).state.signals }
        ensures is { let c = held self.old in TellsIt c (record {
          state = record c.state { region = region.Active };
          told = tells report.now;
          fired = edge_keys report.now c.keys;
        }) result (held self.new) }
    {
        self.enter(Region::Active);
        let fired = self.fire(report);
        Moved {
            change: Some(Told {
                sig: report.sig,
                bits: report.after,
            }),
            fired,
        }
    }

    /// An update is applied.
    fn apply(&mut self, update: &Update) -> Moved
        requires held { is_held self.old }
        requires sig { update.now.sig.0 < length (held self.old).state.signals }
        requires inside { update.now.low + length update.now.bits ≤ length (value_at (held self.old).state update.now.sig) }
        ensures held { is_held self.new }
        ensures widths { widths_of (held self.new).state.signals ≡ widths_of (held self.old).state.signals }
        ensures is { let c = held self.old in
            TellsIt c (put c.procs (record c.state { region = region.Active }) c.keys update.now.sig
            (with_part (stored_at c.state update.now.sig) update.now.low update.now.bits)) result (held self.new) }
    {
        self.enter(Region::Active);
        let bits = placed(self.stored_at(update.sig), update.low, update.bits);
        self.put(update.sig, bits)
    }

    /// The cases of an event, from 6 on.
    fn from_end(&mut self) -> Option<Moved>
        requires { is_held self.old }
        ensures held { is_held self.new }
        ensures widths { widths_of (held self.new).state.signals ≡ widths_of (held self.old).state.signals }
        ensures is { Answered (held self.old) (from_end (held self.old)) result (held self.new) }
    {
        match self.end() {
            Some(moved) => Some(moved),
            None => self.move_time(),
        }
    }

    /// From 5 on.
    fn from_settle(&mut self) -> Advance
        requires { is_held self.old }
        ensures held { is_held self.new }
        ensures widths { widths_of (held self.new).state.signals ≡ widths_of (held self.old).state.signals }
        ensures is { Answers (held self.old) (from_settle (held self.old)) result (held self.new) }
    {
        if let Some(moved) = self.settle() {
            return Advance::Moved(moved);
        }
        match self.from_end() {
            Some(moved) => Advance::Moved(moved),
            None => Advance::Idle,
        }
    }

    /// From 4 on.
    fn from_later(&mut self) -> Advance
        requires held { is_held self.old }
        requires none { (held self.old).state.due ≡ [] }
        ensures held { is_held self.new }
        ensures widths { widths_of (held self.new).state.signals ≡ widths_of (held self.old).state.signals }
        ensures is { Answers (held self.old) (from_later (held self.old)) result (held self.new) }
    {
        match self.next_later() {
            Some(update) => Advance::Moved(self.apply(&update)),
            None => self.from_settle(),
        }
    }

    /// From 3 on.
    fn from_active(&mut self) -> Result<Advance, NoMemory>
        requires held { is_held self.old }
        requires quiet { (held self.old).state.reports ≡ [] }
        requires none { (held self.old).state.due ≡ [] }
        ensures held { is_held self.new }
        ensures widths { widths_of (held self.new).state.signals ≡ widths_of (held self.old).state.signals }
        ensures is { IfOk result (λ answer. Answers (held self.old) (from_active (held self.old)) answer (held self.new)) }
        ensures kept { OnErr result (held self.new ≡ held self.old) }
        ensures cause { OnErr result (IsRunning (held self.old).state) }
    {
        match self.run_first() {
            Ok(true) => Ok(Advance::Moved(unseen())),
            Ok(false) => Ok(self.from_later()),
            Err(e) => Err(e),
        }
    }

    /// From 2 on.
    fn from_due(&mut self) -> Result<Advance, NoMemory>
        requires held { is_held self.old }
        requires quiet { (held self.old).state.reports ≡ [] }
        ensures held { is_held self.new }
        ensures widths { widths_of (held self.new).state.signals ≡ widths_of (held self.old).state.signals }
        ensures is { IfOk result (λ answer. Answers (held self.old) (from_due (held self.old)) answer (held self.new)) }
        ensures kept { OnErr result (held self.new ≡ held self.old) }
        ensures cause { OnErr result (IsRunning (held self.old).state) }
    {
        match self.next_due() {
            Some(update) => Ok(Advance::Moved(self.apply(&update))),
            None => self.from_active(),
        }
    }

    /// One event: the first of all cases that applies.
    fn one_event(&mut self) -> Result<Advance, NoMemory>
        requires { is_held self.old }
        ensures held { is_held self.new }
        ensures widths { widths_of (held self.new).state.signals ≡ widths_of (held self.old).state.signals }
        ensures is { IfOk result (λ answer. Answers (held self.old) (from_reports (held self.old)) answer (held self.new)) }
        ensures kept { OnErr result (held self.new ≡ held self.old) }
        ensures cause { OnErr result (IsRunning (held self.old).state) }
    {
        match self.next_report() {
            Some(report) => Ok(Advance::Moved(self.tell(&report))),
            None => self.from_due(),
        }
    }
}
