//! Compound statements and handlers, made of their parts.

ghost use Rattle.std.specs.Prelude.{◌≡◌};
ghost use Rattle.py_syntax.specs.ExpressionTrees.{view};
ghost use Rattle.py_syntax.specs.StatementTrees.{view_caught, view_span};
ghost use Rattle.test_meaning.specs.Body.BodyTrees as body;
ghost use Rattle.test_meaning.specs.Body.BodyTrees.{Block, Handlers};
ghost use Rattle.test_meaning.specs.Body.Views.{block_of, else_of, handlers_of, view_branch, view_item, with_handler};

use port_io::Name;
use py_syntax::{Caught, Expression, Span};
use test_meaning::body::{Branch, Handler, Item};

/// An `if` with its block, each `elif` behind it, in order, and the block of the `else`.
pub(crate) fn if_item(
    condition: Expression,
    block: Vec<Item>,
    elifs: Vec<Branch>,
    other: Vec<Item>,
) -> Item
    ensures { view_item result ≡ body.If (view condition) (block_of block.items) (else_of elifs.items (block_of other.items)) }
{
    Item::If {
        condition,
        block,
        elifs,
        other,
    }
}

/// An `elif` with its block.
pub(crate) fn branch(condition: Expression, block: Vec<Item>) -> Branch
    ensures { (other : Block) → view_branch result other ≡ body.If (view condition) (block_of block.items) other }
{
    Branch::Elif { condition, block }
}

/// A `while` with its block.
pub fn while_item(condition: Expression, block: Vec<Item>) -> Item
    ensures { view_item result ≡ body.While (view condition) (block_of block.items) }
{
    Item::While { condition, block }
}

/// A `for` with its block.
pub(crate) fn for_item(name: Name, span: Span, block: Vec<Item>) -> Item
    ensures { view_item result ≡ body.For name (view_span span) (block_of block.items) }
{
    Item::For { name, span, block }
}

/// A `try` with its block and its handlers.
pub(crate) fn try_item(block: Vec<Item>, handlers: Vec<Handler>) -> Item
    ensures { view_item result ≡ body.Try (block_of block.items) (handlers_of handlers.items) }
{
    Item::Try { block, handlers }
}

/// An `async with` with its block.
pub(crate) fn with_item(lock: Expression, block: Vec<Item>) -> Item
    ensures { view_item result ≡ body.With (view lock) (block_of block.items) }
{
    Item::With { lock, block }
}

/// An `except` with its block.
pub(crate) fn handler(caught: Caught, block: Vec<Item>) -> Handler
    ensures { (rest : Handlers) → with_handler result rest ≡ body.Catch (view_caught caught) (block_of block.items) rest }
{
    Handler::Catch { caught, block }
}
