//! What stands in a block from some place on.

ghost use Rattle.std.specs.Prelude.{◌≡◌, reverse, IfOk};
ghost use Rattle.py_syntax.specs.ExpressionTrees.{view};
ghost use Rattle.py_syntax.specs.StatementTrees.{view_caught};
ghost use Rattle.test_functions.specs.Blocks.Kept.{tail_in};
ghost use Rattle.test_meaning.specs.Body.BodyTrees.{Catch, If, NoHandler, NoItem, Then, Try};
ghost use Rattle.test_meaning.specs.Body.Views.{block_of, view_item};
ghost use Rattle.test_meaning.specs.Bodies.{before, behind};

use crate::blocks::items::{branch, handler, if_item, try_item};
use port_io::NoMemory;
use py_syntax::{Caught, Expression};
use std::alloc::Global;
use test_meaning::body::{Branch, Handler, Item};

/// What stands in a block from some place on, made from the last item to the first.
#[derive(Drop)]
pub(crate) struct Tail {
    /// The items, the last one first.
    pub items: Vec<Item>,
    /// Each `elif` of the statement above, the last one first, where the clause of one stands at this place.
    pub elifs: Vec<Branch>,
    /// The block of the `else` behind them, or at this place; else empty.
    pub other: Vec<Item>,
    /// The handlers of the statement above, the last one first, where the clause of one stands at this place.
    pub handlers: Vec<Handler>,
}

impl Tail {
    /// These items, the last one first, and no clause in front of them.
    pub fn behind(alloc: Global, items: Vec<Item>) -> Tail
        ensures { tail_in result ≡ behind (block_of (reverse items.items)) }
    {
        Tail {
            items,
            elifs: Vec::new(alloc),
            other: Vec::new(alloc),
            handlers: Vec::new(alloc),
        }
    }

    /// An item before these, whose clauses are none of its own. Only want of memory is an error.
    #[tactic(auto, using(crate::proofs::BlocksLemmas::Tails::reverse_more))]
    pub fn with_item(self, alloc: Global, item: Item) -> Result<Tail, NoMemory>
        ensures { IfOk result (λ tail. tail_in tail ≡ before (view_item item) (tail_in self)) }
    {
        let mut items = self.items;
        items.push(item)?;
        Ok(Tail::behind(alloc, items))
    }

    /// `if` with its block before these, whose `else` is its own. Only want of memory is an error.
    #[tactic(auto, using(crate::proofs::BlocksLemmas::Tails::reverse_more))]
    pub fn with_if(
        self,
        alloc: Global,
        condition: Expression,
        block: Vec<Item>,
    ) -> Result<Tail, NoMemory>
        ensures { IfOk result (λ tail. tail_in tail ≡ before (If (view condition) (block_of block.items) (tail_in self).other) (tail_in self)) }
    {
        let Tail {
            mut items,
            mut elifs,
            other,
            ..
        } = self;
        elifs.reverse();
        items.push(if_item(condition, block, elifs, other))?;
        Ok(Tail::behind(alloc, items))
    }

    /// `elif` with its block before these: it stands for an `if` that is alone in an `else`. Only want of memory is an error.
    #[tactic(auto, using(crate::proofs::BlocksLemmas::Tails::reverse_more))]
    pub fn with_elif(
        self,
        alloc: Global,
        condition: Expression,
        block: Vec<Item>,
    ) -> Result<Tail, NoMemory>
        ensures { IfOk result (λ tail. tail_in tail ≡ record {
          items = (tail_in self).items;
          other = Then (If (view condition) (block_of block.items) (tail_in self).other) NoItem;
          handlers = NoHandler;
        }) }
    {
        let Tail {
            items,
            mut elifs,
            other,
            ..
        } = self;
        elifs.push(branch(condition, block))?;
        Ok(Tail {
            items,
            elifs,
            other,
            handlers: Vec::new(alloc),
        })
    }

    /// `else` with its block before these.
    pub fn with_else(self, alloc: Global, block: Vec<Item>) -> Tail
        ensures { tail_in result ≡ record { items = (tail_in self).items; other = block_of block.items; handlers = NoHandler } }
    {
        Tail {
            items: self.items,
            elifs: Vec::new(alloc),
            other: block,
            handlers: Vec::new(alloc),
        }
    }

    /// `try` with its block before these, whose handlers are its own. Only want of memory is an error.
    #[tactic(auto, using(crate::proofs::BlocksLemmas::Tails::reverse_more))]
    pub fn with_try(self, alloc: Global, block: Vec<Item>) -> Result<Tail, NoMemory>
        ensures { IfOk result (λ tail. tail_in tail ≡ before (Try (block_of block.items) (tail_in self).handlers) (tail_in self)) }
    {
        let Tail {
            mut items,
            mut handlers,
            ..
        } = self;
        handlers.reverse();
        items.push(try_item(block, handlers))?;
        Ok(Tail::behind(alloc, items))
    }

    /// `except` with its block before these. Only want of memory is an error.
    #[tactic(auto, using(crate::proofs::BlocksLemmas::Tails::reverse_more))]
    pub fn with_handler(
        self,
        alloc: Global,
        caught: Caught,
        block: Vec<Item>,
    ) -> Result<Tail, NoMemory>
        ensures { IfOk result (λ tail. tail_in tail ≡ record {
          items = (tail_in self).items;
          other = NoItem;
          handlers = Catch (view_caught caught) (block_of block.items) (tail_in self).handlers;
        }) }
    {
        let Tail {
            items,
            mut handlers,
            ..
        } = self;
        handlers.push(handler(caught, block))?;
        Ok(Tail {
            items,
            elifs: Vec::new(alloc),
            other: Vec::new(alloc),
            handlers,
        })
    }

    /// The items in order.
    pub fn in_order(self) -> Vec<Item>
        ensures { block_of result.items ≡ (tail_in self).items }
    {
        let mut items = self.items;
        items.reverse();
        items
    }
}
