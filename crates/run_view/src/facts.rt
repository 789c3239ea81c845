//! What a tree asks when it begins.
ghost use Rattle.std.specs.Prelude.{◌≡◌};
ghost use Rattle.await_tree.specs.Begin as begin;
ghost use Rattle.await_tree.specs.Steps.{step_of, rest_of};
ghost use Rattle.await_tree.specs.Whole.{tree_in};
ghost use Rattle.run_view.specs.Facts.{facts_of, objects_of};

use await_tree::ended_tasks::EndedTasks;
use await_tree::sync_objects::Objects;
use await_tree::{Facts, Step, Tree};
use py_value::{EventNo, LockNo, TaskNo};
use std::alloc::Global;
use std::marker::Model;
use std::mem;

/// What the events, locks and tasks of a test tell a tree that begins, which contracts see as the `Facts` that `facts_of` of
/// `specs/Facts.antt` gives of these. It has the events and locks by value, since locks are taken, and gives them back.
#[derive(Drop)]
pub struct TestFacts<'a> {
    objects: Objects,
    ended: &'a EndedTasks,
}

impl<'a> Model for TestFacts<'a> {
    ghost use Rattle.await_tree.specs.Begin.{Facts};
    ghost use Rattle.run_view.specs.Facts.{facts_of};

    ghost Value = { Facts };

    ghost view = { λ f. facts_of f.objects f.ended.now };
}

impl<'a> TestFacts<'a> {
    /// The facts of these events and locks, and of tasks that have ended so. It takes no memory.
    pub fn new(objects: Objects, ended: &'a EndedTasks) -> TestFacts<'a>
        ensures { result ≡ facts_of objects ended.now }
    {
        TestFacts { objects, ended }
    }

    /// The events and the locks, with those that were taken. It takes no memory.
    pub fn into_objects(self) -> Objects
        ensures { result ≡ objects_of self.entry }
    {
        let TestFacts { objects, ended: _ } = self;
        objects
    }
}

impl<'a> Facts for TestFacts<'a> {
    ghost facts = { λ f. f };

    fn is_set(&self, event: EventNo) -> bool {
        self.objects.is_set(event)
    }

    fn take(&mut self, lock: LockNo) -> bool {
        self.objects.take(lock)
    }

    fn ended(&self, task: TaskNo) -> Option<bool> {
        self.ended.failed(task)
    }
}

/// A tree that hasn't begun begins (cocotb 1.8, "Triggers"), and takes the locks that it finds free on the way. Each event, lock and task
/// that it waits for must have been made in the test. It takes no memory. After `Done` nothing of the tree is left.
pub fn begin_tree(alloc: Global, tree: &mut Tree, objects: &mut Objects, ended: &EndedTasks) -> Step
    requires { begin.Knows (begin.made (facts_of objects.old ended.now)) (tree_in tree.old) }
    ensures answer { result ≡ step_of (begin.begin (tree_in tree.old) (facts_of objects.old ended.now)).tree }
    ensures rest { tree_in tree.new ≡ rest_of (begin.begin (tree_in tree.old) (facts_of objects.old ended.now)).tree }
    ensures objects { objects.new ≡ objects_of (begin.begin (tree_in tree.old) (facts_of objects.old ended.now)).facts }
{
    let own = mem::replace(objects, Objects::new(alloc));
    let mut facts = TestFacts::new(own, ended);
    let step = tree.begin(&mut facts);
    *objects = facts.into_objects();
    step
}
