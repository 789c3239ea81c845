//! Places in the code of functions.
ghost use Rattle.std.specs.Prelude.{◌≡◌, ◌++◌, List, MatchOption};
ghost use Rattle.py_syntax.specs.StatementTrees.{view_caught};
ghost use Rattle.test_meaning.specs.Body.BodyTrees.{Catch, NoHandler, NoItem, Then};
ghost use Rattle.rig_model.specs.Task.Cost.{first_cost};
ghost use Rattle.rig_model.specs.Task.Frame.{Todo, items};
ghost use Rattle.task_core.specs.Code.Head.{head_in};
ghost use Rattle.task_core.specs.Code.Reading.{Reading};

use crate::code::first::{First, FirstHandler};

/// A place in the code of a function: a block from some statement on, or the handlers of a `try` from some `except` on.
pub trait Code<'a>: Copy {
    /// The block and the handlers that stand there; one of them is empty.
    ghost reads: { Self → Reading };

    /// The first statement of the block and the place behind it; None where the block is empty. It takes no memory.
    fn first(self) -> Option<First<'a, Self>>
        ensures { MatchOption result ((reads self).block ≡ NoItem)
            (λ first. (reads self).block ≡ Then (head_in reads first.head) (reads first.rest).block) };

    /// What the first statement of the block costs when it begins; None where the block is empty. It takes no memory.
    fn cost(self) -> Option<u64>
        ensures { MatchOption result ((reads self).block ≡ NoItem) (λ n. (rest : List Todo) → first_cost (items (reads self).block ++ rest) ≡ n) };

    /// The first of the handlers and the place behind it; None where there is none. It takes no memory.
    fn first_handler(self) -> Option<FirstHandler<'a, Self>>
        ensures { MatchOption result ((reads self).handlers ≡ NoHandler)
            (λ first. (reads self).handlers ≡ Catch (view_caught first.caught.now) (reads first.block).block (reads first.rest).handlers) };
}
