//! Blocks.

ghost use Rattle.std.specs.Prelude.{◌≡◌, IfOk};
ghost use Rattle.std.specs.List.{flat_map};
ghost use Rattle.py_syntax.specs.BlockTrees.{view_item};
ghost use Rattle.python_tests.specs.Trees.ModuleText.{item_text};

use crate::trees::piece::joined;
use crate::trees::statement::{header_text, statement_text};
use py_syntax::BlockItem;
use std::alloc::{AllocError, Global};

/// An item of a block, behind a space; nothing of a docstring.
#[cycle(blocks)]
fn item_text(alloc: Global, item: &BlockItem) -> Result<Vec<u8>, AllocError>
    ensures { IfOk result (λ text. text.items ≡ item_text (view_item item.now)) }
{
    match item {
        BlockItem::Docstring { .. } => Ok(Vec::new(alloc)),
        BlockItem::Statement { statement, .. } => {
            let text = statement_text(alloc, statement)?;
            joined(alloc, &[b" ", &text])
        }
        BlockItem::Clause { header, block, .. } => {
            let header = header_text(alloc, header)?;
            let block = block_text(alloc, block)?;
            joined(alloc, &[b" ", &header, &block, b")"])
        }
    }
}

/// The items of a block, each behind a space. It is read recursively, in as many calls as the block is deep.
#[cycle(blocks)]
pub fn block_text(alloc: Global, block: &[BlockItem]) -> Result<Vec<u8>, AllocError>
    ensures { IfOk result (λ text. text.items ≡ flat_map (λ x. item_text (view_item x)) block.now) }
{
    let mut text = Vec::new(alloc);
    for item in block {
        let more = item_text(alloc, item)?;
        text.extend_from_slice(&more)?;
    }
    Ok(text)
}
