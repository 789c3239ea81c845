//! What stands first in a block, and first among handlers.
ghost use Rattle.std.specs.Prelude.{◌≡◌};
ghost use Rattle.rig_model.specs.Task.Cost.{item_cost};
ghost use Rattle.test_meaning.specs.Body.BodyTrees.{Block, Handlers};
ghost use Rattle.task_core.specs.Code.Head.{begun_with};

use py_syntax::{Caught, Expression};
use test_meaning::body::Item;

/// What begins.
#[derive(Clone, Copy)]
pub enum Begun<'a> {
    /// A statement (the language reference, 7 and 8).
    Item(&'a Item),
    /// An `elif`, which is an `if` in the `else` of the condition before (8.1), with this condition.
    Elif(&'a Expression),
}

/// A statement as it begins, with the places of its blocks.
#[derive(Clone, Copy)]
pub struct Head<'a, C> {
    pub begun: Begun<'a>,
    /// Its block, where it has one.
    pub first: C,
    /// The block of its `else`; of a `try` its handlers.
    pub second: C,
}

/// The first statement of a block, and the place behind it.
#[derive(Clone, Copy)]
pub struct First<'a, C> {
    pub head: Head<'a, C>,
    pub rest: C,
}

/// The first `except` of a `try` (the language reference, 8.4): what it catches, its block, and those behind it.
#[derive(Clone, Copy)]
pub struct FirstHandler<'a, C> {
    pub caught: &'a Caught,
    pub block: C,
    pub rest: C,
}

impl<'a> Begun<'a> {
    /// What it costs to begin it: one, and a `try` nothing.
    pub fn cost(self) -> u64
        ensures { (block other : Block) (handlers : Handlers) → result ≡ item_cost (begun_with self.entry block other handlers) }
    {
        match self {
            Begun::Item(Item::Try { .. }) => 0,
            _ => 1,
        }
    }
}
