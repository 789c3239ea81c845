//! The instructions of targets.
ghost use Rattle.v_exec.specs.declared.instruction.Instruction.TheVariants as code;
ghost use Rattle.std.specs.Prelude.{◌≡◌, ◌∷◌, ◌+◌, ◌≤◌, ◌<◌, length, max, OnOk, IfOk};
ghost use Rattle.gpi.specs.Design.{widths};
ghost use Rattle.gpi.specs.Targets.{target_width, IsSoundTarget};
ghost use Rattle.v_exec.specs.Packing.{
  too_many,
  object_front,
  object_depth,
  target_front,
  target_depth,
  target_stores,
  blocking_front,
  whole_place,
  part_place,
};

use super::backwards::Backwards;
use super::needs::Needs;
use super::terms::deepest;
use crate::instruction::{Instruction, Mode, Place};
use gpi::{Object, Range, Signal, Target};
use port_io::{NoMemory, Sequence};

impl Backwards {
    /// Adds the instructions that store the digits on top of the operands in a target of these signals, in front of all others. Tells what
    /// they need besides those digits.
    pub(crate) fn target(
        &mut self,
        target: &Target,
        mode: Mode,
        signals: &Sequence<Signal>,
    ) -> Result<Needs, NoMemory>
        requires { IsSoundTarget target.now (widths signals.now) }
        ensures is { OnOk result (self.new ≡ target_front mode target.now self.old) }
        ensures depth { IfOk result (λ needs. needs.depth ≡ target_depth target.now) }
        ensures stores { IfOk result (λ needs. needs.stores ≡ target_stores target.now) }
        ensures few_depth { IfOk result (λ needs. needs.depth + length self.old ≤ length self.new) }
        ensures few_stores { IfOk result (λ needs. needs.stores + length self.old ≤ length self.new) }
        ensures fits { OnOk result (length self.new < too_many) }
    {
        match target {
            Target::Whole(object) => {
                self.put(Instruction::Store(whole_place(object), mode))?;
                let depth = self.object(object)?;
                Ok(Needs { depth, stores: 1 })
            }
            Target::Select(object, range, index, count) => {
                self.put(Instruction::Store(part_place(object, *range, *count), mode))?;
                let index = self.term(index)?;
                let depth = deepest(self.object(object)?, index);
                Ok(Needs { depth, stores: 1 })
            }
            Target::Join(high, low) => {
                let (high_width, low_width) = (width_of(high, signals), width_of(low, signals));
                self.put(Instruction::Discard)?;
                let low = self.target(low, mode, signals)?;
                self.part(0, low_width)?;
                let high = self.target(high, mode, signals)?;
                self.part(low_width, high_width)?;
                Ok(high.then(low).above(0))
            }
        }
    }

    /// Adds the instruction that pushes so many digits of the top, from a place on, in front of all others.
    fn part(&mut self, low: u8, width: u8) -> Result<(), NoMemory>
        ensures is { OnOk result (self.new ≡ code.Part low width ∷ self.old) }
        ensures fits { OnOk result (length self.new < too_many) }
    {
        self.put(Instruction::Part { low, width })
    }

    /// The same for a blocking assignment: the parts of a braced target are noted, and then written (clause 9.2.1).
    pub(crate) fn blocking(
        &mut self,
        target: &Target,
        signals: &Sequence<Signal>,
    ) -> Result<Needs, NoMemory>
        requires { IsSoundTarget target.now (widths signals.now) }
        ensures is { OnOk result (self.new ≡ blocking_front target.now self.old) }
        ensures depth { IfOk result (λ needs. needs.depth ≡ target_depth target.now) }
        ensures stores { IfOk result (λ needs. needs.stores ≡ target_stores target.now) }
        ensures few_depth { IfOk result (λ needs. needs.depth + length self.old ≤ length self.new) }
        ensures few_stores { IfOk result (λ needs. needs.stores + length self.old ≤ length self.new) }
        ensures fits { OnOk result (length self.new < too_many) }
    {
        match target {
            Target::Whole(_) | Target::Select(_, _, _, _) => self.target(
                target,
                Mode::Now,
                signals,
            ),
            Target::Join(_, _) => {
                self.put(Instruction::WriteNoted)?;
                self.target(target, Mode::Noted, signals)
            }
        }
    }

    /// Adds the instructions that put the index of a word on top of the operands, in front of all others. Tells how many operands they need
    /// room for. A signal has none.
    fn object(&mut self, object: &Object) -> Result<usize, NoMemory>
        requires { length self.old < too_many }
        ensures is { OnOk result (self.new ≡ object_front object.now self.old) }
        ensures depth { IfOk result (λ depth. depth ≡ object_depth object.now) }
        ensures few { IfOk result (λ depth. depth + length self.old ≤ length self.new) }
        ensures fits { OnOk result (length self.new < too_many) }
    {
        match object {
            Object::Signal(_, _) => Ok(0),
            Object::Word(_, index, _) => self.term(index),
        }
    }
}

/// Where all digits of an object are stored.
fn whole_place(object: &Object) -> Place
    ensures { result ≡ whole_place object.now }
{
    match object {
        Object::Signal(sig, _) => Place::Signal(*sig),
        Object::Word(words, _, _) => Place::Word(*words),
    }
}

/// Where `count` digits of an object of this range are stored.
fn part_place(object: &Object, range: Range, count: u8) -> Place
    ensures { result ≡ part_place object.now range count }
{
    match object {
        Object::Signal(sig, width) => Place::SignalPart {
            sig: *sig,
            range,
            width: *width,
            count,
        },
        Object::Word(words, _, width) => Place::WordPart {
            words: *words,
            range,
            width: *width,
            count,
        },
    }
}

/// How many digits a target of these signals has.
fn width_of(target: &Target, signals: &Sequence<Signal>) -> u8
    requires { IsSoundTarget target.now (widths signals.now) }
    ensures { result ≡ target_width target.now }
{
    match target {
        Target::Whole(object) => object.width(),
        Target::Select(_, _, _, count) => *count,
        Target::Join(high, low) => width_of(high, signals) + width_of(low, signals),
    }
}
