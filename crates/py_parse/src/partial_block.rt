//! Blocks while their lines are read from the last to the first.

ghost use Rattle.std.specs.Prelude.{◌≡◌, reverse, IfOk, OnOk};
ghost use Rattle.py_syntax.specs.BlockTrees.{BlockItem, view_item, block_of};
ghost use Rattle.py_parse.specs.Kept.{blocks_in};
ghost use Rattle.py_parse.specs.Nesting;

use crate::list::push;
use port_io::NoMemory;
use py_syntax::BlockItem;
use std::alloc::Global;

/// A block whose last lines have been read.
#[derive(Drop)]
pub struct PartialBlock {
    /// How many blocks its lines stand in.
    pub depth: u32,
    /// What stands in it, the last first.
    pub items: Vec<BlockItem>,
}

/// The blocks that have been read in part, the innermost last.
#[derive(Drop)]
pub struct PartialBlocks {
    pub blocks: Vec<PartialBlock>,
}

impl PartialBlocks {
    /// No blocks.
    pub fn new(alloc: Global) -> PartialBlocks
        ensures { blocks_in result ≡ Nesting.no_blocks }
    {
        PartialBlocks {
            blocks: Vec::new(alloc),
        }
    }

    /// Whether the innermost block stands deeper.
    #[tactic(auto, using(crate::proofs::RowLaws::reverse_more))]
    fn is_deeper(&self, depth: u32) -> bool
        ensures { result ≡ Nesting.is_deeper depth (blocks_in self.now) }
    {
        match self.blocks.last() {
            Some(block) => depth < block.depth,
            None => false,
        }
    }

    /// Whether the innermost block stands in so many.
    #[tactic(auto, using(crate::proofs::RowLaws::reverse_more))]
    fn is_at(&self, depth: u32) -> bool
        ensures { result ≡ Nesting.is_at depth (blocks_in self.now) }
    {
        match self.blocks.last() {
            Some(block) => block.depth == depth,
            None => false,
        }
    }

    /// The items of the innermost block, and the blocks around it.
    #[tactic(auto, using(crate::proofs::RowLaws::reverse_more))]
    fn pop(&mut self, alloc: Global) -> Vec<BlockItem>
        ensures items { block_of (reverse result.items) ≡ Nesting.innermost (blocks_in self.old) }
        ensures blocks { blocks_in self.new ≡ Nesting.outer (blocks_in self.old) }
    {
        match self.blocks.pop() {
            Some(block) => block.items,
            None => Vec::new(alloc),
        }
    }

    /// The block of a line that stands in so many blocks: the innermost, if it is deeper.
    pub fn take_under(&mut self, alloc: Global, depth: u32) -> Vec<BlockItem>
        ensures block { block_of result.items ≡ Nesting.block_under depth (blocks_in self.old) }
        ensures blocks { blocks_in self.new ≡ Nesting.blocks_over depth (blocks_in self.old) }
    {
        if self.is_deeper(depth) {
            let mut items = self.pop(alloc);
            items.reverse();
            items
        } else {
            Vec::new(alloc)
        }
    }

    /// The items of the block of a line that stands in so many blocks, if some of its lines have been read.
    fn take_at(&mut self, alloc: Global, depth: u32) -> Vec<BlockItem>
        ensures block { block_of (reverse result.items) ≡ Nesting.block_at depth (blocks_in self.old) }
        ensures blocks { blocks_in self.new ≡ Nesting.blocks_around depth (blocks_in self.old) }
    {
        if self.is_at(depth) {
            self.pop(alloc)
        } else {
            Vec::new(alloc)
        }
    }

    /// Puts an item in front of its block.
    #[tactic(auto, using(crate::proofs::RowLaws::reverse_more, crate::proofs::RowLaws::with_item_parts))]
    pub fn put(&mut self, alloc: Global, depth: u32, item: BlockItem) -> Result<(), NoMemory>
        ensures { OnOk result (blocks_in self.new ≡ Nesting.with_item depth (view_item item) (blocks_in self.old)) }
    {
        let mut items = self.take_at(alloc, depth);
        push(&mut items, item)?;
        push(&mut self.blocks, PartialBlock { depth, items })
    }
}
