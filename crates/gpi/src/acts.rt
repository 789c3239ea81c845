//! Statements.
ghost use Rattle.std.specs.Prelude.{◌≡◌, ℕ, ◌<◌, ◌≤◌, ◌++◌, ◌∷◌, [], length, IfOk, OnOk, OnErr, Some, slice_get};
ghost use Rattle.gpi.specs.Terms.{widths_of, read};
ghost use Rattle.gpi.specs.Cases.{digits_agree, all_agree, first_match};
ghost use Rattle.gpi.specs.Activation.{acts_of, MakesBlock, MakesIf, MakesCase, IsActCopy, AreActCopies};
ghost use Rattle.gpi.specs.Cases.{AreLabelCopies};
ghost use Rattle.gpi.specs.Made.{IsCopy};
ghost use Rattle.gpi.specs.Targets.{IsTargetCopy};

use crate::both_ok::both_ok;
use crate::targets::Target;
use crate::terms::Term;
pub use activation::placed;
use four_value::{Bits, Digit};
use port_io::{NoMemory, Sequence, boxed, boxed_both};
use std::alloc::Global;

mod activation;

/// A statement (clause 9) whose names are signals. A loop stands as the block of its turns.
#[cycle(acts)]
#[derive(Drop)]
pub enum Act {
    /// A statement without effect.
    Empty,
    /// Statements one after the other.
    Block(Acts),
    /// The first where the condition is true, else the second.
    If(Term, Box<Act>, Box<Act>),
    /// The item of the first label that agrees with the value, by its number in the list, else the last statement. The
    /// value and the labels have the greatest width of them all.
    Case(CaseKind, Term, Sequence<Label>, Acts, Box<Act>),
    /// A blocking assignment (clause 9.2.1) of a value of the target's width.
    Blocking(Target, Term),
    /// A nonblocking assignment (clause 9.2.2) of a value of the target's width, whose updates come so many steps later.
    Nonblocking(Target, Term, u64),
}

/// Statements in order, which contracts see as their list, `acts_of`.
#[cycle(acts)]
#[derive(Drop)]
pub struct Acts {
    list: Vec<Act>,
}

/// Which digits agree with any digit (clause 9.5.1).
#[derive(Clone, Copy, Debug, PartialEq, Eq)]
pub enum CaseKind {
    /// `case`: none.
    Exact,
    /// `casez`: z.
    AnyZ,
    /// `casex`: x and z.
    AnyXz,
}

/// A label of a case statement, and the number of its item.
#[derive(Drop)]
pub struct Label {
    pub value: Term,
    pub item: u32,
}

impl Acts {
    /// No statement. It takes no memory.
    pub fn new(alloc: Global) -> Acts
        ensures { acts_of result ≡ [] }
    {
        Acts {
            list: Vec::new(alloc),
        }
    }

    /// Adds a statement at the end.
    pub fn push(&mut self, act: Act) -> Result<(), NoMemory>
        ensures ok { OnOk result (acts_of self.new ≡ acts_of self.old ++ act ∷ []) }
        ensures err { OnErr result (acts_of self.new ≡ acts_of self.old) }
    {
        self.list.push(act)?;
        Ok(())
    }

    /// How many statements there are.
    pub fn len(&self) -> usize
        ensures { result ≡ length (acts_of self.now) }
    {
        self.list.len()
    }

    /// The statement at that place, counted from 0.
    pub fn get(&self, at: usize) -> &Act
        requires { at < length (acts_of self.now) }
        ensures { slice_get (acts_of self.now) at ≡ Some result.now }
    {
        &self.list[at]
    }
}

impl Act {
    /// Statements one after the other.
    pub fn block(list: Acts) -> Act
        ensures { MakesBlock list result }
    {
        Act::Block(list)
    }

    /// `if`
    pub fn choice(alloc: Global, condition: Term, a: Act, b: Act) -> Result<Act, NoMemory>
        ensures { IfOk result (MakesIf condition a b) }
    {
        let (a, b) = boxed_both(alloc, a, b)?;
        Ok(Act::If(condition, a, b))
    }

    /// A case statement over these items.
    pub fn case(
        alloc: Global,
        kind: CaseKind,
        value: Term,
        labels: Sequence<Label>,
        items: Acts,
        other: Act,
    ) -> Result<Act, NoMemory>
        ensures { IfOk result (MakesCase kind value labels items other) }
    {
        let other = boxed(alloc, other)?;
        Ok(case_of(kind, value, labels, items, other))
    }

    /// A copy, which means the same.
    pub fn copy(&self, alloc: Global) -> Result<Act, NoMemory>
        ensures { IfOk result (IsActCopy self.now) }
    {
        copy_act(alloc, self)
    }
}

/// A case statement over these items, whose last statement is on the heap.
fn case_of(
    kind: CaseKind,
    value: Term,
    labels: Sequence<Label>,
    items: Acts,
    other: Box<Act>,
) -> Act
    ensures { MakesCase kind value labels items other.value result }
{
    Act::Case(kind, value, labels, items, other)
}

/// A copy of a statement.
#[cycle(copying)]
fn copy_act(alloc: Global, act: &Act) -> Result<Act, NoMemory>
    ensures { IfOk result (IsActCopy act.now) }
{
    match act {
        Act::Empty => Ok(Act::Empty),
        Act::Block(list) => Ok(Act::block(copy_acts(alloc, list)?)),
        Act::If(test, a, b) => {
            let branches = both_ok(copy_boxed(alloc, a), copy_boxed(alloc, b));
            let (test, (a, b)) = both_ok(test.copy(alloc), branches)?;
            Ok(Act::If(test, a, b))
        }
        Act::Case(kind, value, labels, items, other) => {
            let choice = both_ok(value.copy(alloc), copy_labels(alloc, labels));
            let branches = both_ok(copy_acts(alloc, items), copy_boxed(alloc, other));
            let ((value, labels), (items, other)) = both_ok(choice, branches)?;
            Ok(case_of(*kind, value, labels, items, other))
        }
        Act::Blocking(target, value) => {
            let (target, value) = copy_assignment(alloc, target, value)?;
            Ok(Act::Blocking(target, value))
        }
        Act::Nonblocking(target, value, delay) => {
            let (target, value) = copy_assignment(alloc, target, value)?;
            Ok(Act::Nonblocking(target, value, *delay))
        }
    }
}

/// A copy of a statement, on the heap.
#[cycle(copying)]
fn copy_boxed(alloc: Global, act: &Act) -> Result<Box<Act>, NoMemory>
    ensures { IfOk result (λ made. IsActCopy act.now made.value) }
{
    boxed(alloc, copy_act(alloc, act)?)
}

/// Copies of the two sides of an assignment.
fn copy_assignment(alloc: Global, target: &Target, value: &Term) -> Result<(Target, Term), NoMemory>
    ensures { IfOk result (λ made. IsTargetCopy target.now made.0 × IsCopy value.now made.1) }
{
    both_ok(target.copy(alloc), value.copy(alloc))
}

/// Copies of statements.
#[cycle(copying)]
fn copy_acts(alloc: Global, acts: &Acts) -> Result<Acts, NoMemory>
    ensures { IfOk result (λ copies. AreActCopies (acts_of acts.now) (acts_of copies)) }
{
    let mut copies = Acts::new(alloc);
    for act in &acts.list {
        copies.push(copy_act(alloc, act)?)?;
    }
    Ok(copies)
}

/// Copies of labels.
#[tactic(auto, using(crate::proofs::Copies::label_copies))]
fn copy_labels(alloc: Global, labels: &Sequence<Label>) -> Result<Sequence<Label>, NoMemory>
    ensures { IfOk result (AreLabelCopies labels.now) }
{
    let mut copies = Sequence::new(alloc);
    for at in 0..labels.len() {
        let label = labels.get(at);
        copies.push(Label {
            value: label.value.copy(alloc)?,
            item: label.item,
        })?;
    }
    Ok(copies)
}

impl CaseKind {
    /// Whether two digits agree.
    fn agrees(self, a: Digit, b: Digit) -> bool
        ensures { result ≡ digits_agree self a b }
    {
        match (self, a, b) {
            (CaseKind::AnyZ | CaseKind::AnyXz, Digit::Z, _) => true,
            (CaseKind::AnyZ | CaseKind::AnyXz, _, Digit::Z) => true,
            (CaseKind::AnyXz, Digit::X, _) => true,
            (CaseKind::AnyXz, _, Digit::X) => true,
            _ => a == b,
        }
    }

    /// Whether two vectors of one width agree.
    #[tactic(auto, using(crate::proofs::Lists::agree_drop))]
    pub fn all_agree(self, a: Bits, b: Bits) -> bool
        requires { length a ≡ length b }
        ensures { result ≡ all_agree self a b }
    {
        for i in 0..a.width() {
            if !self.agrees(a.digit(i), b.digit(i)) {
                return false;
            }
        }
        true
    }
}
