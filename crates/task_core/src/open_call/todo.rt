//! What a call has still to do, as a stack.
ghost use Rattle.std.specs.Prelude.{◌≡◌, ◌++◌, ◌∷◌, [], List, MatchOption, OnOk};
ghost use Rattle.rig_model.specs.Task.Cost.{first_cost, todo_cost};
ghost use Rattle.rig_model.specs.Task.Frame as frame;
ghost use Rattle.rig_model.specs.Task.Frame.{items};
ghost use Rattle.task_core.specs.Code.Reading.{Reading};
ghost use Rattle.task_core.specs.OpenCall.Parts.{from_mark, mark_in, part_todo, stop_in, todo_of, todos_in};

use crate::code::{Code, Head};
use port_io::{Name, NoMemory};
use py_syntax::Expression;
use py_value::{LockNo, TaskNo};
use std::alloc::Global;
use task_step::loop_span::Left;

/// What is done with a value that is given, but for the entry of a block.
#[derive(Clone, Copy)]
pub enum Use<'a> {
    /// It gets a name.
    Assigns(&'a Name),
    /// It is written to this signal.
    Writes(&'a Expression),
    /// The function returns it.
    Returns,
    /// It is the task that a `with_timeout` has started, and waits for, for so many steps.
    Times(u64),
    /// It is what this task gave, which a `with_timeout` has started.
    Limited(TaskNo),
}

/// A mark among what is to do.
#[derive(Clone, Copy)]
pub enum Mark<'a, C> {
    /// A `while`, whose condition is asked again, with its block.
    Again(&'a Expression, C),
    /// A `for`, which asks for its next element, with its block.
    Each(&'a Name, Left<'a>, C),
    /// The use of a value that is given.
    Uses(Use<'a>),
    /// The lock of an `async with` was acquired, and this block comes.
    Enters(LockNo, C),
    /// The handlers of a `try` whose block runs.
    Handles(C),
    /// The name behind `as` of an `except` whose block runs.
    Bound(&'a Name),
    /// The lock of an `async with` whose block runs.
    Holds(LockNo),
}

/// The first thing to do.
#[derive(Clone, Copy)]
pub enum Todo<'a, C> {
    /// A statement.
    Do(Head<'a, C>),
    /// A mark.
    Mark(Mark<'a, C>),
}

/// A mark that counts where blocks are left.
#[derive(Clone, Copy)]
pub enum Stop<'a, C> {
    /// A `while`, with its condition and its block.
    Again(&'a Expression, C),
    /// A `for`, with its name, what it has still to go over, and its block.
    Each(&'a Name, Left<'a>, C),
    /// What this task gave is waited for, which a `with_timeout` has started.
    Limit(TaskNo),
    /// The handlers of a `try`.
    Handles(C),
    /// The name behind `as` of an `except`.
    Bound(&'a Name),
    /// The lock of an `async with`.
    Holds(LockNo),
}

/// A block from some statement on, or a mark.
#[derive(Clone, Copy)]
pub(crate) enum Part<'a, C> {
    Block(C),
    Mark(Mark<'a, C>),
}

impl<'a, C: Copy> Mark<'a, C> {
    /// Where it stops what leaves blocks; None of one that is passed.
    fn stop(self) -> Option<Stop<'a, C>>
        ensures { (reads : C → Reading) (rest : List frame.Todo) → MatchOption result
            (from_mark (mark_in reads self.entry ∷ rest) ≡ from_mark rest)
            (λ stop. from_mark (mark_in reads self.entry ∷ rest) ≡ stop_in reads stop ∷ rest) }
    {
        match self {
            Mark::Again(condition, block) => Some(Stop::Again(condition, block)),
            Mark::Each(name, left, block) => Some(Stop::Each(name, left, block)),
            Mark::Uses(Use::Limited(task)) => Some(Stop::Limit(task)),
            Mark::Uses(_) | Mark::Enters(..) => None,
            Mark::Handles(handlers) => Some(Stop::Handles(handlers)),
            Mark::Bound(name) => Some(Stop::Bound(name)),
            Mark::Holds(lock) => Some(Stop::Holds(lock)),
        }
    }

    /// What it costs as the first thing to do: a question of a loop one, all else nothing.
    fn cost(&self) -> u64
        ensures { (reads : C → Reading) → result ≡ todo_cost (mark_in reads self.now) }
    {
        match self {
            Mark::Again(..) | Mark::Each(..) => 1,
            _ => 0,
        }
    }
}

impl<'a, C: Code<'a>> Part<'a, C> {
    /// What its first thing costs; None where it is empty.
    fn cost(&self) -> Option<u64>
        ensures { MatchOption result (part_todo C.reads self.now ≡ [])
            (λ n. (rest : List frame.Todo) → first_cost (part_todo C.reads self.now ++ rest) ≡ n) }
    {
        match self {
            Part::Mark(mark) => Some(mark.cost()),
            Part::Block(block) => block.cost(),
        }
    }
}

/// What is to do, of which contracts see the list (`todos_in`). What stands on it doesn't grow with the blocks of the file, and each call but
/// those that push takes no memory.
#[derive(Drop)]
pub struct TodoStack<'a, C> {
    parts: Vec<Part<'a, C>>,
}

impl<'a, C: Code<'a>> TodoStack<'a, C> {
    /// Nothing to do.
    pub fn new(alloc: Global) -> TodoStack<'a, C>
        ensures { todos_in C.reads result ≡ [] }
    {
        TodoStack {
            parts: Vec::new(alloc),
        }
    }

    /// Puts the statements of a block before the rest. Only want of memory is an error.
    #[tactic(auto, using(crate::proofs::OpenCallLemmas::Unwound::unwound_last))]
    pub fn push_block(&mut self, block: C) -> Result<(), NoMemory>
        ensures { OnOk result (todos_in C.reads self.new ≡ items (C.reads block).block ++ todos_in C.reads self.old) }
    {
        self.parts.push(Part::Block(block))?;
        Ok(())
    }

    /// Puts a mark before the rest. Only want of memory is an error.
    #[tactic(auto, using(crate::proofs::OpenCallLemmas::Unwound::unwound_last))]
    pub fn push(&mut self, mark: Mark<'a, C>) -> Result<(), NoMemory>
        ensures { OnOk result (todos_in C.reads self.new ≡ mark_in C.reads mark.entry ∷ todos_in C.reads self.old) }
    {
        self.parts.push(Part::Mark(mark))?;
        Ok(())
    }

    /// Puts the statements of a block, and behind them a mark, before the rest. Only want of memory is an error.
    pub fn push_marked(&mut self, block: C, mark: Mark<'a, C>) -> Result<(), NoMemory>
        ensures { OnOk result (todos_in C.reads self.new
            ≡ (items (C.reads block).block ++ mark_in C.reads mark.entry ∷ []) ++ todos_in C.reads self.old) }
    {
        self.push(mark)?;
        self.push_block(block)
    }

    /// Takes the first thing to do off; None where nothing is to do.
    #[tactic(auto, using(crate::proofs::OpenCallLemmas::Unwound::taken_item, crate::proofs::OpenCallLemmas::Unwound::taken_mark, crate::proofs::OpenCallLemmas::Unwound::taken_nothing))]
    pub fn take(&mut self) -> Option<Todo<'a, C>>
        ensures { MatchOption result ((todos_in C.reads self.old ≡ []) × (todos_in C.reads self.new ≡ []))
            (λ todo. todos_in C.reads self.old ≡ todo_of C.reads todo ∷ todos_in C.reads self.new) }
    {
        while let Some(part) = self.parts.pop() {
            match part {
                Part::Mark(mark) => return Some(Todo::Mark(mark)),
                Part::Block(block) => {
                    if let Some(first) = block.first() {
                        match self.parts.push(Part::Block(first.rest)) {
                            Ok(()) => return Some(Todo::Do(first.head)),
                            Err(_) => unreachable!(),
                        }
                    }
                }
            }
        }
        None
    }

    /// What the first thing to do costs as a step; nothing where nothing is to do.
    pub fn cost(&self) -> u64
        ensures { result ≡ first_cost (todos_in C.reads self.now) }
    {
        for at in (0..self.parts.len()).rev() {
            match self.parts[at].cost() {
                Some(cost) => return cost,
                None => {}
            }
        }
        0
    }

    /// Takes off what is to do up to the first mark that counts where blocks are left, and that mark; None where there is none, and nothing is to do
    /// then. Statements are passed, and so are uses of values, but for that of a limit.
    #[tactic(auto, using(crate::proofs::OpenCallLemmas::Unwound::passed_mark, crate::proofs::OpenCallLemmas::Unwound::passed_block))]
    pub fn take_mark(&mut self) -> Option<Stop<'a, C>>
        ensures { MatchOption result ((from_mark (todos_in C.reads self.old) ≡ []) × (todos_in C.reads self.new ≡ []))
            (λ stop. from_mark (todos_in C.reads self.old) ≡ stop_in C.reads stop ∷ todos_in C.reads self.new) }
    {
        while let Some(part) = self.parts.pop() {
            if let Part::Mark(mark) = part {
                if let Some(stop) = mark.stop() {
                    return Some(stop);
                }
            }
        }
        None
    }
}
