//! Places in trees.
ghost use Rattle.std.specs.Prelude.{◌≡◌, MatchOption};
ghost use Rattle.test_meaning.specs.Body.BodyTrees.{NoHandler, NoItem, Then};
ghost use Rattle.test_meaning.specs.Body.Views.{block_of, else_of, view_item};
ghost use Rattle.task_core.specs.Code.Head.{begun_with, head_in};
ghost use Rattle.plain_task.specs.Tree.{read_tree};

use task_core::code::{Begun, Code, First, FirstHandler, Head};
use test_meaning::body::{Branch, Handler, Item};

/// A place in the trees of a file.
#[derive(Clone, Copy)]
pub enum Tree<'a> {
    /// The statements of a block from one on.
    Items(&'a [Item]),
    /// The `else` of an `if`: these `elif`, and behind the last one this block.
    Else(&'a [Branch], &'a [Item]),
    /// The handlers of a `try` from one on.
    Handlers(&'a [Handler]),
}

/// No statement.
fn empty<'a>() -> Tree<'a>
    ensures { read_tree result ≡ record { block = NoItem; handlers = NoHandler } }
{
    Tree::Items(&[])
}

/// What begins with this block, and no other.
fn with_block<'a>(begun: Begun<'a>, block: &'a [Item]) -> Head<'a, Tree<'a>>
    ensures { head_in read_tree result ≡ begun_with begun.entry (block_of block.now) NoItem NoHandler }
{
    Head {
        begun,
        first: Tree::Items(block),
        second: empty(),
    }
}

/// A statement as it begins, with the places of its blocks.
fn head_of<'a>(item: &'a Item) -> Head<'a, Tree<'a>>
    ensures { head_in read_tree result ≡ view_item item.now }
{
    let begun = Begun::Item(item);
    match item {
        Item::Statement(_) => Head {
            begun,
            first: empty(),
            second: empty(),
        },
        Item::If {
            block,
            elifs,
            other,
            ..
        } => Head {
            begun,
            first: Tree::Items(block),
            second: Tree::Else(elifs, other),
        },
        Item::Try { block, handlers } => Head {
            begun,
            first: Tree::Items(block),
            second: Tree::Handlers(handlers),
        },
        Item::While { block, .. } => with_block(begun, block),
        Item::For { block, .. } => with_block(begun, block),
        Item::With { block, .. } => with_block(begun, block),
    }
}

/// The first of the statements, and the place behind it; None where there is none.
fn first_item<'a>(items: &'a [Item]) -> Option<First<'a, Tree<'a>>>
    ensures { MatchOption result (block_of items.now ≡ NoItem)
        (λ first. block_of items.now ≡ Then (head_in read_tree first.head) (read_tree first.rest).block) }
{
    let (first, rest) = items.split_first()?;
    Some(First {
        head: head_of(first),
        rest: Tree::Items(rest),
    })
}

/// The `if` that stands alone in an `else`, whose `else` has the other `elif` and this block.
fn first_elif<'a>(elifs: &'a [Branch], other: &'a [Item]) -> Option<First<'a, Tree<'a>>>
    ensures { MatchOption result (else_of elifs.now (block_of other.now) ≡ block_of other.now)
        (λ first. else_of elifs.now (block_of other.now) ≡ Then (head_in read_tree first.head) (read_tree first.rest).block) }
{
    let (Branch::Elif { condition, block }, rest) = elifs.split_first()?;
    Some(First {
        head: Head {
            begun: Begun::Elif(condition),
            first: Tree::Items(block),
            second: Tree::Else(rest, other),
        },
        rest: empty(),
    })
}

impl<'a> Code<'a> for Tree<'a> {
    ghost reads = { read_tree };

    fn first(self) -> Option<First<'a, Tree<'a>>> {
        match self {
            Tree::Items(items) => first_item(items),
            Tree::Else(elifs, other) => match first_elif(elifs, other) {
                Some(first) => Some(first),
                None => first_item(other),
            },
            Tree::Handlers(_) => None,
        }
    }

    fn cost(self) -> Option<u64> {
        Some(self.first()?.head.begun.cost())
    }

    fn first_handler(self) -> Option<FirstHandler<'a, Tree<'a>>> {
        match self {
            Tree::Handlers(handlers) => {
                let (Handler::Catch { caught, block }, rest) = handlers.split_first()?;
                Some(FirstHandler {
                    caught,
                    block: Tree::Items(block),
                    rest: Tree::Handlers(rest),
                })
            }
            Tree::Items(_) | Tree::Else(..) => None,
        }
    }
}
