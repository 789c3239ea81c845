//! Random numbers.
ghost use Rattle.std.specs.Prelude.{◌≡◌, ◌≤◌, ◌*◌, ◌/◌, ◌^◌, ◌<◌, ◌+ℤ◌, ◌-ℤ◌, pos, IsTrue, Ok, None};
ghost use Rattle.py_value.specs.Integer.Integer.{is_whole};
ghost use Rattle.py_value.specs.declared.trigger.TaskNo.{TaskNo};
ghost use Rattle.run_view.specs.RandomStream.Generator.{next, word};
ghost use Rattle.rig_model.specs.Run.Rig.{Setup};
ghost use Rattle.scheduler.specs.Turns.{LeadsTo, next_fault};
ghost use Rattle.rig_model.specs.declared.task.task.Turned.TheVariants.{Draw};

use crate::test::RunningTest;
use crate::turned::Next;
use await_tree::Given;
use await_tree::wait_list::Awaits;
use py_value::Value;
use rig_model::task::FlowMaker;
use run_view::random_stream::RandomStream;

/// The next word of a stream.
fn next_word(random: &mut RandomStream) -> u32
    ensures word { result ≡ word random.old.state }
    ensures next { random.new ≡ next random.old }
{
    random.draw(0, 1 << 32) as u32
}

/// What a word gives of a range of so many numbers, by its place in the range from 0.
fn share(word: u32, span: u64) -> u64
    requires { 1 ≤ span }
    ensures value { result ≡ word * span / 2 ^ 32 }
    ensures below { result < span }
{
    (u128::from(word) * u128::from(span) >> 32) as u64
}

impl<M: FlowMaker + Drop, W: Awaits> RunningTest<M, W> {
    ghost use Rattle.scheduler.specs.Parts.{RelatesAside, means};

    /// A task draws one of `span` numbers from `low` on (the library reference, `random.randint`), by the next word. It takes no memory.
    pub(crate) fn draw(&mut self, low: i128, span: u64) -> Next
        requires some { 1 ≤ span }
        requires low { IsTrue (is_whole low) }
        requires high { IsTrue (is_whole (low +ℤ pos span -ℤ pos 1)) }
        ensures leads { (setup : Setup) → (task : TaskNo)
            → RelatesAside (means M.FlowMaker M.Flow.Flow W.Awaits) (λ c d. LeadsTo setup task (Draw low span) c result d) self.old self.new }
        ensures fine { next_fault (Ok result) ≡ None }
        ensures queue { self.new.queue ≡ self.old.queue }
        ensures tasks { self.new.tasks ≡ self.old.tasks }
    {
        let place = share(next_word(&mut self.random), span);
        Next::GoesOn(Given::Value(Value::Whole(low + i128::from(place))))
    }
}
