//! The states of statements, from the last to the first.
ghost use Rattle.std.specs.Prelude.{◌≡◌, ◌≤◌, length, IfOk, OnOk, map};
ghost use Rattle.py_syntax.specs.ExpressionTrees.{view};
ghost use Rattle.test_meaning.specs.Body.BodyTrees as body;
ghost use Rattle.test_meaning.specs.Body.Views.{block_of, else_of, handlers_of, view_branch, view_item, with_handler};
ghost use Rattle.task_compile.specs.Reading.{Adds, AddsHandlers, IsAdded, LeadsBack, block_at, handlers_at, with_blocks};

use crate::program::{Action, State};
use port_io::NoMemory;
use py_syntax::Expression;
use test_meaning::body::{Branch, Handler, Item};

/// Adds a state behind the others, whose numbers it leads to. Only want of memory is an error.
fn add<'a>(states: &mut Vec<State<'a>>, state: State<'a>) -> Result<usize, NoMemory>
    requires { LeadsBack states.old.items state }
    ensures { IfOk result (λ n. IsAdded states.old.items states.new.items state.entry n) }
{
    states.push(state)?;
    Ok(states.len())
}

/// Adds the state that begins a statement. Only want of memory is an error.
fn begin<'a>(
    states: &mut Vec<State<'a>>,
    item: &'a Item,
    next: usize,
    first: usize,
    second: usize,
) -> Result<usize, NoMemory>
    requires next { next ≤ length states.old.items }
    requires first { first ≤ length states.old.items }
    requires second { second ≤ length states.old.items }
    ensures { IfOk result (λ n. Adds states.old.items states.new.items n (body.Then
        (with_blocks item.now (block_at states.old.items first) (block_at states.old.items second) (handlers_at states.old.items second))
        (block_at states.old.items next))) }
{
    add(
        states,
        State {
            action: Action::Begin(item),
            next,
            first,
            second,
        },
    )
}

/// Adds the state that begins a statement with one block. Only want of memory is an error.
fn begin_block<'a>(
    states: &mut Vec<State<'a>>,
    item: &'a Item,
    next: usize,
    first: usize,
) -> Result<usize, NoMemory>
    requires next { next ≤ length states.old.items }
    requires first { first ≤ length states.old.items }
    ensures { IfOk result (λ n. Adds states.old.items states.new.items n (body.Then
        (with_blocks item.now (block_at states.old.items first) body.NoItem body.NoHandler) (block_at states.old.items next))) }
{
    begin(states, item, next, first, 0)
}

/// Adds the states of a block. Only want of memory is an error.
#[cycle(blocks)]
pub(crate) fn add_block<'a>(
    states: &mut Vec<State<'a>>,
    block: &'a [Item],
) -> Result<usize, NoMemory>
    ensures { IfOk result (λ n. Adds states.old.items states.new.items n (block_of block.now)) }
{
    let mut next = 0;
    let mut at = block.len();
    while at > 0 {
        at -= 1;
        next = add_item(states, &block[at], next)?;
    }
    Ok(next)
}

/// Adds the states of a statement, behind which this state stands in its block. Only want of memory is an error.
#[cycle(blocks)]
fn add_item<'a>(states: &mut Vec<State<'a>>, item: &'a Item, next: usize) -> Result<usize, NoMemory>
    requires { next ≤ length states.old.items }
    ensures { IfOk result (λ n. Adds states.old.items states.new.items n (body.Then (view_item item.now) (block_at states.old.items next))) }
{
    match item {
        Item::Statement(_) => begin(states, item, next, 0, 0),
        Item::If {
            block,
            elifs,
            other,
            ..
        } => {
            let first = add_block(states, block)?;
            let last = add_block(states, other)?;
            let second = add_elifs(states, elifs, last)?;
            begin(states, item, next, first, second)
        }
        Item::Try { block, handlers } => {
            let first = add_block(states, block)?;
            let second = add_handlers(states, handlers)?;
            begin(states, item, next, first, second)
        }
        Item::While { block, .. } => {
            let first = add_block(states, block)?;
            begin_block(states, item, next, first)
        }
        Item::For { block, .. } => {
            let first = add_block(states, block)?;
            begin_block(states, item, next, first)
        }
        Item::With { block, .. } => {
            let first = add_block(states, block)?;
            begin_block(states, item, next, first)
        }
    }
}

/// Adds the states of each `elif`; the `else` of the last one begins with this state. Only want of memory is an error.
#[cycle(blocks)]
fn add_elifs<'a>(
    states: &mut Vec<State<'a>>,
    elifs: &'a [Branch],
    mut second: usize,
) -> Result<usize, NoMemory>
    requires { second ≤ length states.old.items }
    ensures { IfOk result (λ n. Adds states.old.items states.new.items n (else_of elifs.now (block_at states.old.items second))) }
{
    let mut at = elifs.len();
    while at > 0 {
        at -= 1;
        second = add_elif(states, &elifs[at], second)?;
    }
    Ok(second)
}

/// Adds the states of an `elif`, whose `else` begins with this state. Only want of memory is an error.
#[cycle(blocks)]
fn add_elif<'a>(
    states: &mut Vec<State<'a>>,
    elif: &'a Branch,
    second: usize,
) -> Result<usize, NoMemory>
    requires { second ≤ length states.old.items }
    ensures { IfOk result (λ n. Adds states.old.items states.new.items n
        (body.Then (view_branch elif.now (block_at states.old.items second)) body.NoItem)) }
{
    match elif {
        Branch::Elif { condition, block } => {
            let first = add_block(states, block)?;
            add(
                states,
                State {
                    action: Action::Elif(condition),
                    next: 0,
                    first,
                    second,
                },
            )
        }
    }
}

/// Adds the states of the handlers of a `try`. Only want of memory is an error.
#[cycle(blocks)]
fn add_handlers<'a>(states: &mut Vec<State<'a>>, handlers: &'a [Handler]) -> Result<usize, NoMemory>
    ensures { IfOk result (λ n. AddsHandlers states.old.items states.new.items n (handlers_of handlers.now)) }
{
    let mut next = 0;
    let mut at = handlers.len();
    while at > 0 {
        at -= 1;
        next = add_handler(states, &handlers[at], next)?;
    }
    Ok(next)
}

/// Adds the states of an `except`, behind which this one stands. Only want of memory is an error.
#[cycle(blocks)]
fn add_handler<'a>(
    states: &mut Vec<State<'a>>,
    handler: &'a Handler,
    next: usize,
) -> Result<usize, NoMemory>
    requires { next ≤ length states.old.items }
    ensures { IfOk result (λ n. AddsHandlers states.old.items states.new.items n
        (with_handler handler.now (handlers_at states.old.items next))) }
{
    match handler {
        Handler::Catch { caught, block } => {
            let first = add_block(states, block)?;
            add(
                states,
                State {
                    action: Action::Except(caught),
                    next,
                    first,
                    second: 0,
                },
            )
        }
    }
}
