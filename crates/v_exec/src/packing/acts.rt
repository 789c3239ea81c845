//! The instructions of statements.
ghost use Rattle.std.specs.Prelude.{◌≡◌, ◌+◌, ◌≤◌, ◌<◌, [], length, Some, slice_get, OnOk, IfOk};
ghost use Rattle.gpi.specs.Cases.{AreItems};
ghost use Rattle.gpi.specs.Activation.{acts_of, IsSound, SoundList};
ghost use Rattle.gpi.specs.Design.{widths};
ghost use Rattle.gpi.specs.Targets.{IsSoundTarget};
ghost use Rattle.gpi.specs.declared.acts.Act.{Blocking, Nonblocking};
ghost use Rattle.v_exec.specs.Packing.{too_many};
ghost use Rattle.v_exec.specs.Packed.{PacksAct, PacksActs, ItemsStand, AreStarts, labels_front, labels_depth};

use super::backwards::Backwards;
use super::needs::Needs;
use super::terms::deepest;
use crate::instruction::{Instruction, Mode};
use gpi::{Act, Acts, CaseKind, Label, Signal, Target, Term};
use port_io::{NoMemory, Sequence};
use std::alloc::Global;

impl Backwards {
    /// Adds the instructions of a statement over these signals, in front of all others, and tells what they need.
    #[cycle(acts)]
    pub(crate) fn act(
        &mut self,
        alloc: Global,
        act: &Act,
        signals: &Sequence<Signal>,
    ) -> Result<Needs, NoMemory>
        requires small { length self.old < too_many }
        requires sound { IsSound act.now (widths signals.now) }
        ensures packs { IfOk result (λ needs. PacksAct self.old self.new act.now needs) }
        ensures fits { OnOk result (length self.new < too_many) }
    {
        match act {
            Act::Empty => Ok(Needs::none()),
            Act::Block(acts) => self.acts(alloc, acts, signals),
            Act::If(condition, first, second) => {
                let end = self.len();
                let second = self.act(alloc, second, signals)?;
                let other = self.len();
                self.skip(other - end)?;
                let first = self.act(alloc, first, signals)?;
                let passed = self.len() - other;
                self.put(Instruction::Unless(passed))?;
                Ok(first.or(second).behind(self.term(condition)?))
            }
            Act::Case(kind, value, labels, items, other) => {
                let end = self.len();
                let mut starts = Vec::new(alloc);
                let items = self.items(alloc, items, &mut starts, signals)?;
                let passed = self.len() - end;
                self.skip(passed)?;
                let other = self.act(alloc, other, signals)?;
                self.put(Instruction::Discard)?;
                let labels = self.labels(*kind, labels, &starts)?;
                Ok(items.or(other).behind(labels).behind(self.term(value)?))
            }
            Act::Blocking(target, value) => self.at_once(target, value, signals),
            Act::Nonblocking(target, value, delay) => self.later(target, value, *delay, signals),
        }
    }

    /// The same of a blocking assignment.
    fn at_once(
        &mut self,
        target: &Target,
        value: &Term,
        signals: &Sequence<Signal>,
    ) -> Result<Needs, NoMemory>
        requires small { length self.old < too_many }
        requires sound { IsSoundTarget target.now (widths signals.now) }
        ensures packs { IfOk result (λ needs. PacksAct self.old self.new (Blocking target.now value.now) needs) }
        ensures fits { OnOk result (length self.new < too_many) }
    {
        let target = self.blocking(target, signals)?;
        let value = self.term(value)?;
        Ok(target.above(value))
    }

    /// The same of a nonblocking one.
    fn later(
        &mut self,
        target: &Target,
        value: &Term,
        delay: u64,
        signals: &Sequence<Signal>,
    ) -> Result<Needs, NoMemory>
        requires small { length self.old < too_many }
        requires sound { IsSoundTarget target.now (widths signals.now) }
        ensures packs { IfOk result (λ needs. PacksAct self.old self.new (Nonblocking target.now value.now delay) needs) }
        ensures fits { OnOk result (length self.new < too_many) }
    {
        let target = self.target(target, Mode::Later(delay), signals)?;
        let value = self.term(value)?;
        Ok(target.above(value))
    }

    /// The same of statements that run one after the other.
    #[cycle(acts)]
    fn acts(
        &mut self,
        alloc: Global,
        acts: &Acts,
        signals: &Sequence<Signal>,
    ) -> Result<Needs, NoMemory>
        requires small { length self.old < too_many }
        requires sound { SoundList (acts_of acts.now) (widths signals.now) }
        ensures packs { IfOk result (λ needs. PacksActs self.old self.new (acts_of acts.now) needs) }
        ensures fits { OnOk result (length self.new < too_many) }
    {
        let mut needs = Needs::none();
        let mut at = acts.len();
        'back: while at > 0 {
            at -= 1;
            needs = self
                .act(alloc, sound_statement(acts, at, signals), signals)?
                .then(needs);
        }
        Ok(needs)
    }

    /// The same of the items of a case statement, each of which takes the value off and goes on at the end. `starts` gets how many
    /// instructions there are from the start of each one on.
    #[cycle(acts)]
    fn items(
        &mut self,
        alloc: Global,
        items: &Acts,
        starts: &mut Vec<usize>,
        signals: &Sequence<Signal>,
    ) -> Result<Needs, NoMemory>
        requires small { length self.old < too_many }
        requires sound { SoundList (acts_of items.now) (widths signals.now) }
        requires empty { starts.old.items ≡ [] }
        ensures packs { IfOk result (λ needs. ItemsStand self.old self.new starts.new.items (acts_of items.now) needs) }
        ensures fits { OnOk result (length self.new < too_many) }
    {
        let end = self.len();
        let mut needs = Needs::none();
        for at in 0..items.len() {
            let passed = self.len() - end;
            self.skip(passed)?;
            let item = self.act(alloc, sound_statement(items, at, signals), signals)?;
            self.put(Instruction::Discard)?;
            starts.push(self.len())?;
            needs = needs.or(item);
        }
        Ok(needs)
    }

    /// Adds the labels of a case statement, in front of all others: each leads to the start of its item where it agrees with the value, which
    /// stays. Tells how many operands they need room for, the value among them.
    fn labels(
        &mut self,
        kind: CaseKind,
        labels: &Sequence<Label>,
        starts: &[usize],
    ) -> Result<usize, NoMemory>
        requires small { length self.old < too_many }
        requires items { AreItems labels.now (length starts.now) }
        requires starts { AreStarts starts.now (length self.old) }
        ensures is { OnOk result (self.new ≡ labels_front kind starts.now labels.now self.old) }
        ensures depth { IfOk result (λ depth. depth ≡ labels_depth labels.now) }
        ensures few { IfOk result (λ depth. depth + length self.old ≤ length self.new + 1) }
        ensures fits { OnOk result (length self.new < too_many) }
    {
        let mut depth = 1;
        let mut at = labels.len();
        'back: while at > 0 {
            at -= 1;
            let label = labels.get(at);
            let passed = self.len() - starts[label.item as usize];
            self.put(Instruction::Match(kind, passed))?;
            depth = deepest(depth, self.term(&label.value)?);
        }
        Ok(depth)
    }
}

/// The statement at a place, which is sound over these signals as all are.
#[tactic(auto, using(crate::proofs::Labels::sound_here))]
fn sound_statement<'a>(acts: &'a Acts, at: usize, signals: &Sequence<Signal>) -> &'a Act
    requires inside { at < length (acts_of acts.now) }
    requires sound { SoundList (acts_of acts.now) (widths signals.now) }
    ensures is { slice_get (acts_of acts.now) at ≡ Some result.now }
    ensures sound { IsSound result.now (widths signals.now) }
{
    acts.get(at)
}
