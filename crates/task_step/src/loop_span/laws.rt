//! What a question is.
ghost use Rattle.std.specs.Prelude.{◌≡◌, ℕ, List};
ghost use Rattle.test_meaning.specs.Body.BodyTrees.{Block};
ghost use Rattle.rig_model.specs.Task.Blocks as meaning;
ghost use Rattle.rig_model.specs.Task.Frame.{Left};
ghost use Rattle.rig_model.specs.Task.Moves.{At};
ghost use Rattle.task_step.specs.LoopSpan.Question.{asked, found};

/// The question of a `for` is what it finds, and then what is done with that.
#[tactic(auto, using(crate::proofs::LoopSpanLemmas::Questions::asks_found))]
pub fn questions_find()
    ensures { (n : List ℕ) (left : Left) (block : Block) (a : At) → meaning.ask_next n left block a ≡ asked n (found left) block a }
{}
