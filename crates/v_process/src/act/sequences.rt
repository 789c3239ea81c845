//! Blocks.

ghost use Rattle.std.specs.Prelude.{IfOk};
ghost use Rattle.v_flat.specs.Scope.Found.{both};
ghost use Rattle.v_process.specs.Act.Made.{AreInOrder};
ghost use Rattle.v_process.specs.Act.Sequences.{AreBlocks, AreMoreStatements, HasFirst, MakesWhole};
ghost use Rattle.v_process.specs.Act.Statements.{ChecksBlock, ChecksMoreStatements, ChecksNoStatement};

use crate::act::waiting::with_last;
use gpi::{Act, Acts};
use port_io::NoMemory;
use std::alloc::Global;
use v_flat::scope::Found;

/// The statements of a block (IEEE 1364-2005, clause 9.8.1), or the turns of a loop. Where a rule is broken in one of them, they don't
/// count.
#[derive(Drop)]
pub struct BlockParts {
    /// Each statement, the last one first.
    pub acts: Vec<Act>,
}

/// A statement before others. Only want of memory is an error.
fn with_first(first: Act, rest: BlockParts) -> Result<BlockParts, NoMemory>
    ensures { IfOk result (HasFirst first rest) }
{
    let BlockParts { acts } = rest;
    Ok(BlockParts {
        acts: with_last(acts, first)?,
    })
}

/// What is made of a statement and others. Only want of memory is an error.
fn of_both(found: Found<(Act, BlockParts)>) -> Result<Found<BlockParts>, NoMemory>
    ensures { IfOk result (AreMoreStatements found) }
{
    match found {
        Found::Sound((first, rest)) => Ok(Found::Sound(with_first(first, rest)?)),
        Found::Noted(fault, (first, rest)) => Ok(Found::Noted(fault, with_first(first, rest)?)),
        Found::Lost(fault) => Ok(Found::Lost(fault)),
    }
}

impl BlockParts {
    /// No statement.
    pub fn none(alloc: Global) -> Found<BlockParts>
        ensures { ChecksNoStatement result }
    {
        Found::Sound(BlockParts {
            acts: Vec::new(alloc),
        })
    }

    /// A statement before those that stand behind it. Only want of memory is an error.
    pub fn before(first: Found<Act>, rest: Found<BlockParts>) -> Result<Found<BlockParts>, NoMemory>
        ensures checks { IfOk result (ChecksMoreStatements first rest) }
        ensures made { IfOk result (AreMoreStatements (both first rest)) }
    {
        of_both(first.both(rest))
    }
}

/// Statements of which the last one is the first of the list, in their order. Only want of memory is an error.
fn in_order(alloc: Global, mut acts: Vec<Act>) -> Result<Acts, NoMemory>
    ensures { IfOk result (AreInOrder acts.items) }
{
    let mut all = Acts::new(alloc);
    while let Some(act) = acts.pop() {
        all.push(act)?;
    }
    Ok(all)
}

/// All statements as one. Only want of memory is an error.
fn whole(alloc: Global, parts: BlockParts) -> Result<Act, NoMemory>
    ensures { IfOk result (MakesWhole parts) }
{
    let BlockParts { acts } = parts;
    Ok(Act::block(in_order(alloc, acts)?))
}

/// `begin first .. end` (IEEE 1364-2005, clause 9.8.1), with a label or without, from what was found in its statements. Only want of
/// memory is an error.
pub fn block(alloc: Global, parts: Found<BlockParts>) -> Result<Found<Act>, NoMemory>
    ensures checks { IfOk result (ChecksBlock parts) }
    ensures made { IfOk result (AreBlocks parts) }
{
    of_parts(alloc, parts)
}

/// What is made of the statements. Only want of memory is an error.
fn of_parts(alloc: Global, found: Found<BlockParts>) -> Result<Found<Act>, NoMemory>
    ensures { IfOk result (AreBlocks found) }
{
    match found {
        Found::Sound(parts) => Ok(Found::Sound(whole(alloc, parts)?)),
        Found::Noted(fault, parts) => Ok(Found::Noted(fault, whole(alloc, parts)?)),
        Found::Lost(fault) => Ok(Found::Lost(fault)),
    }
}
