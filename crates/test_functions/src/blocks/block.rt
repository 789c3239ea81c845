//! Blocks.

ghost use Rattle.std.specs.Prelude.{◌≡◌, IfOk};
ghost use Rattle.py_syntax.specs.BlockTrees.{block_of, view_item};
ghost use Rattle.test_meaning.specs.Body.Views as made;
ghost use Rattle.test_functions.specs.Blocks.Kept.{tail_in};
ghost use Rattle.test_meaning.specs.Bodies.{block_in, item_in};

use crate::blocks::clause::clause;
use crate::blocks::tail::Tail;
use crate::expressions::Meanings;
use crate::statements::statement;
use port_io::{NoMemory, boxed};
use py_syntax::BlockItem;
use std::alloc::Global;
use test_meaning::body::Item;

/// An item of a block before what stands behind it. Only want of memory is an error.
#[cycle(blocks)]
fn item<M: Meanings>(
    alloc: Global,
    meanings: &M,
    item: &BlockItem,
    rest: Tail,
) -> Result<Tail, NoMemory>
    ensures { IfOk result (λ tail. tail_in tail ≡ item_in (M.inside meanings.now) (view_item item.now) (tail_in rest)) }
{
    match item {
        BlockItem::Docstring { .. } => Ok(Tail::behind(alloc, rest.items)),
        BlockItem::Statement {
            statement: line,
            ..
        } => {
            let made = statement(alloc, meanings, line)?;
            rest.with_item(alloc, Item::Statement(boxed(alloc, made)?))
        }
        BlockItem::Clause {
            header,
            block: inner,
            ..
        } => {
            let inner = block(alloc, meanings, inner)?;
            clause(alloc, meanings, header, inner.in_order(), rest)
        }
    }
}

/// A block, from its last item to the first. Only want of memory is an error.
#[cycle(blocks)]
fn block<M: Meanings>(alloc: Global, meanings: &M, items: &[BlockItem]) -> Result<Tail, NoMemory>
    ensures { IfOk result (λ tail. tail_in tail ≡ block_in (M.inside meanings.now) (block_of items.now)) }
{
    let mut tail = Tail::behind(alloc, Vec::new(alloc));
    for at in (0..items.len()).rev() {
        tail = item(alloc, meanings, &items[at], tail)?;
    }
    Ok(tail)
}

/// The body that a block stands for. Only want of memory is an error.
pub fn body<M: Meanings>(
    alloc: Global,
    meanings: &M,
    items: &[BlockItem],
) -> Result<Vec<Item>, NoMemory>
    ensures { IfOk result (λ made_items. made.block_of made_items.items ≡ (block_in (M.inside meanings.now) (block_of items.now)).items) }
{
    Ok(block(alloc, meanings, items)?.in_order())
}
