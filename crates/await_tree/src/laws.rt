//! Worked trees, and laws of trees.
ghost use Rattle.await_tree.specs.Rows.{TreesWork};
ghost use Rattle.await_tree.specs.Laws.{DoneIsBare, LeavesAreFew, LeavesKeepOrder, LeavesOnlyGo, StaysSettled, UnawaitedIsStill};

/// The worked trees of `specs/Rows.antt` begin, are fired and are granted as it says.
#[tactic(auto, using(crate::proofs::Rows::trees_work))]
pub fn trees_work()
    ensures { TreesWork }
{}

/// A tree that is done waits for nothing.
#[tactic(auto, using(crate::proofs::Few::over_bare))]
pub fn done_is_bare()
    ensures { DoneIsBare }
{}

/// The tree of a sound trigger has as many leaves as the trigger, and at most 64.
#[tactic(auto, using(crate::proofs::Few::leaves_are_few))]
pub fn leaves_are_few()
    ensures { LeavesAreFew }
{}

/// No part of a tree that has begun waits where it would be done, whatever reaches it.
#[tactic(auto, using(crate::proofs::Settled::stays_settled))]
pub fn stays_settled()
    ensures { StaysSettled }
{}

/// A cause that no waiting leaf is on changes no tree that has begun.
#[tactic(auto, using(crate::proofs::Settled::fire_still))]
pub fn unawaited_is_still()
    ensures { UnawaitedIsStill }
{}

/// What a tree waits for after a call it waited for before.
#[tactic(auto, using(crate::proofs::Within::leaves_only_go))]
pub fn leaves_only_go()
    ensures { LeavesOnlyGo }
{}

/// What a tree waits for after a call it waited for before, in the same order.
#[tactic(auto, using(crate::proofs::Within::leaves_keep_order))]
pub fn leaves_keep_order()
    ensures { LeavesKeepOrder }
{}
