//! The blocks that are open before a line.

ghost use Rattle.std.specs.Prelude.{◌≡◌, ◌∷◌, IfOk};
ghost use Rattle.py_syntax.specs.Outline;
ghost use Rattle.py_parse.specs.Blocks.{innermost, outer, is_deeper};

use port_io::NoMemory;
use py_syntax::{Keyword, OpenBlock};
use std::alloc::Global;
use std::marker::Model;

/// The open blocks, the innermost first.
#[derive(Drop)]
pub struct Blocks {
    blocks: Vec<OpenBlock>,
}

impl Model for Blocks {
    ghost use Rattle.std.specs.Prelude.{List};
    ghost use Rattle.py_syntax.specs.declared.outline.OpenBlock.{OpenBlock};

    ghost Value = { List OpenBlock };

    ghost use Rattle.py_parse.specs.BlocksView.{blocks_view};

    ghost view = { blocks_view };
}

impl Blocks {
    /// Before the first line the module's block is open.
    pub fn at_start(alloc: Global) -> Result<Blocks, NoMemory>
        ensures { IfOk result (λ b. b ≡ Outline.at_start) }
    {
        let mut blocks = Vec::new(alloc);
        blocks.push(OpenBlock {
            indentation: 0,
            last: None,
        })?;
        Ok(Blocks { blocks })
    }

    /// The innermost block.
    pub fn innermost(&self) -> Option<OpenBlock>
        ensures { result ≡ innermost self.now }
    {
        self.blocks.last().copied()
    }

    /// The word with which the last line of the innermost begins.
    pub fn last_word(&self) -> Option<Keyword>
        ensures { result ≡ Outline.last_word self.now }
    {
        self.innermost()?.last
    }

    /// How many there are, the module's not counted.
    pub fn depth(&self) -> usize
        ensures { result ≡ Outline.depth self.now }
    {
        self.blocks.len().saturating_sub(1)
    }

    /// Opens one more.
    pub fn open(mut self, block: OpenBlock) -> Result<Blocks, NoMemory>
        ensures { IfOk result (λ b. b ≡ block ∷ self) }
    {
        self.blocks.push(block)?;
        Ok(self)
    }

    /// Whether the innermost is indented deeper.
    fn is_deeper(&self, indentation: u32) -> bool
        ensures { result ≡ is_deeper indentation self.now }
    {
        match self.innermost() {
            Some(block) => indentation < block.indentation,
            None => false,
        }
    }

    /// Closes the innermost.
    fn close(&mut self)
        ensures { self.new ≡ outer self.old }
    {
        let _ = self.blocks.pop();
    }

    /// Closes those that are indented deeper.
    #[tactic(auto, using(crate::proofs::BlockFacts::within_deeper, crate::proofs::BlockFacts::within_here, crate::proofs::BlockFacts::fewer_outside))]
    pub fn close_deeper(&mut self, indentation: u32)
        ensures { self.new ≡ Outline.within indentation self.old }
    {
        while self.is_deeper(indentation) {
            self.close();
        }
    }

    /// The innermost, with a line that begins with this word.
    pub fn with_last(mut self, word: Option<Keyword>) -> Result<Blocks, NoMemory>
        ensures { IfOk result (λ b. b ≡ Outline.with_last word self) }
    {
        match self.blocks.pop() {
            Some(block) => self.open(OpenBlock {
                indentation: block.indentation,
                last: word,
            }),
            None => Ok(self),
        }
    }
}
