//! `Queue.put` and `Queue.get`.

ghost use Rattle.std.specs.Prelude.{◌≡◌, IfOk};
ghost use Rattle.test_meaning.specs.Body.Views.{block_of, view_function};
ghost use Rattle.test_meaning.specs.Library.{queue_get, queue_put};

use crate::blocks::while_item;
use crate::clock::simple;
use crate::expressions::{method_call, name};
use port_io::{Name, NoMemory, Sequence};
use py_syntax::Method;
use std::alloc::Global;
use test_meaning::body::{Awaited, Function, Item, RightSide, Statement};

/// The body of `Queue.put`. Only want of memory is an error.
fn put_body(alloc: Global) -> Result<Vec<Item>, NoMemory>
    ensures { IfOk result (λ made. block_of made.items ≡ queue_put.body) }
{
    let mut waits = Vec::new(alloc);
    waits.push(simple(alloc, Statement::Await(Awaited::Room(name(alloc, b"q")?)))?)?;
    let is_full = method_call(alloc, name(alloc, b"q")?, Method::Full)?;
    let mut items = Vec::new(alloc);
    items.push(while_item(is_full, waits))?;
    let put = Statement::PutNow(name(alloc, b"q")?, name(alloc, b"x")?);
    items.push(simple(alloc, put)?)?;
    Ok(items)
}

/// `Queue.put` (cocotb 1.8, `cocotb.queue.Queue.put`). Only want of memory is an error.
pub(crate) fn queue_put(alloc: Global) -> Result<Function, NoMemory>
    ensures { IfOk result (λ made. view_function made ≡ queue_put) }
{
    let mut parameters = Sequence::new(alloc);
    parameters.push(Name::of(alloc, b"q")?)?;
    parameters.push(Name::of(alloc, b"x")?)?;
    Ok(Function {
        parameters,
        others: Sequence::new(alloc),
        body: put_body(alloc)?,
    })
}

/// The body of `Queue.get`. Only want of memory is an error.
fn get_body(alloc: Global) -> Result<Vec<Item>, NoMemory>
    ensures { IfOk result (λ made. block_of made.items ≡ queue_get.body) }
{
    let mut waits = Vec::new(alloc);
    waits.push(simple(alloc, Statement::Await(Awaited::Items(name(alloc, b"q")?)))?)?;
    let is_empty = method_call(alloc, name(alloc, b"q")?, Method::Empty)?;
    let mut items = Vec::new(alloc);
    items.push(while_item(is_empty, waits))?;
    let get = RightSide::GetNow(name(alloc, b"q")?);
    items.push(simple(alloc, Statement::Return(Some(get)))?)?;
    Ok(items)
}

/// `Queue.get` (cocotb 1.8, `cocotb.queue.Queue.get`). Only want of memory is an error.
pub(crate) fn queue_get(alloc: Global) -> Result<Function, NoMemory>
    ensures { IfOk result (λ made. view_function made ≡ queue_get) }
{
    let mut parameters = Sequence::new(alloc);
    parameters.push(Name::of(alloc, b"q")?)?;
    Ok(Function {
        parameters,
        others: Sequence::new(alloc),
        body: get_body(alloc)?,
    })
}
