//! Where an assignment writes.
ghost use Rattle.std.specs.Prelude.{◌≡◌, ℕ, ◌<◌, ◌≤◌, List, length, IfOk, IfSome, slice_index};
ghost use Rattle.four_value.specs.Limits.{most_digits};
ghost use Rattle.gpi.specs.Limits.{most_elements};
ghost use Rattle.gpi.specs.Terms.{widths_of, read};
ghost use Rattle.gpi.specs.Targets.{target_width, IsSoundTarget, IsSoundObject, IsObjectCopy, IsTargetCopy, MakesJoin, object_at, object_width};

use crate::both_ok::both_ok;
use crate::selects::{Range, Words};
use crate::terms::Term;
use crate::types::SigId;
use four_value::Bits;
use port_io::{NoMemory, boxed, boxed_both};
use std::alloc::Global;

/// A signal, or a word of a memory that is chosen by an index; and its width.
#[derive(Drop)]
pub enum Object {
    Signal(SigId, u8),
    Word(Words, Term, u8),
}

/// The left side of an assignment (clause 6).
#[derive(Drop)]
pub enum Target {
    /// All digits of an object.
    Whole(Object),
    /// Digits of an object that has this range: as many as the last field, from this index upwards.
    Select(Object, Range, Term, u8),
    /// A braced target of two, with the high part first.
    Join(Box<Target>, Box<Target>),
}

impl Object {
    /// A copy, which means the same.
    pub fn copy(&self, alloc: Global) -> Result<Object, NoMemory>
        ensures { IfOk result (IsObjectCopy self.now) }
    {
        match self {
            Object::Signal(s, w) => Ok(Object::Signal(*s, *w)),
            Object::Word(words, index, w) => Ok(Object::Word(*words, index.copy(alloc)?, *w)),
        }
    }

    /// How many digits it has.
    pub fn width(&self) -> u8
        ensures { result ≡ object_width self.now }
    {
        match self {
            Object::Signal(_, w) | Object::Word(_, _, w) => *w,
        }
    }

    /// The signal that is meant, by the values of the signals; none where the index is unknown or outside.
    #[tactic(auto, using(crate::proofs::Widths::widths))]
    pub fn at(&self, signals: &[Bits]) -> Option<u32>
        requires few { length signals.now ≤ most_elements }
        requires sound { IsSoundObject self.now (widths_of signals.now) }
        ensures is { result ≡ object_at self.now (read signals.now) }
        ensures inside { IfSome result (λ s. (s < length signals.now) × (slice_index (widths_of signals.now) s ≡ object_width self.now)) }
    {
        match self {
            Object::Signal(s, _) => Some(s.0),
            Object::Word(words, index, _) => {
                let at = index.eval(signals).to_number();
                words.at(at)
            }
        }
    }
}

impl Target {
    /// How many digits it has.
    pub fn width(&self, signals: &[Bits]) -> u8
        requires { IsSoundTarget self.now (widths_of signals.now) }
        ensures is { result ≡ target_width self.now }
        ensures low { 1 ≤ result }
        ensures high { result ≤ most_digits }
    {
        match self {
            Target::Whole(object) => object.width(),
            Target::Select(_, _, _, w) => *w,
            Target::Join(a, b) => a.width(signals) + b.width(signals),
        }
    }

    /// A copy, which means the same.
    #[cycle(target_copies)]
    pub fn copy(&self, alloc: Global) -> Result<Target, NoMemory>
        ensures { IfOk result (IsTargetCopy self.now) }
    {
        match self {
            Target::Whole(object) => Ok(Target::Whole(object.copy(alloc)?)),
            Target::Select(object, range, index, w) => {
                let (object, index) = both_ok(object.copy(alloc), index.copy(alloc))?;
                Ok(Target::Select(object, *range, index, *w))
            }
            Target::Join(a, b) => {
                let (a, b) = both_ok(a.copy_boxed(alloc), b.copy_boxed(alloc))?;
                Ok(Target::Join(a, b))
            }
        }
    }

    /// A copy on the heap.
    #[cycle(target_copies)]
    fn copy_boxed(&self, alloc: Global) -> Result<Box<Target>, NoMemory>
        ensures { IfOk result (λ made. IsTargetCopy self.now made.value) }
    {
        boxed(alloc, self.copy(alloc)?)
    }

    /// `{high, low}`
    pub fn join(alloc: Global, high: Target, low: Target) -> Result<Target, NoMemory>
        ensures { IfOk result (MakesJoin high low) }
    {
        let (high, low) = boxed_both(alloc, high, low)?;
        Ok(Target::Join(high, low))
    }
}
