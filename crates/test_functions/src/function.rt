//! One function.

ghost use Rattle.std.specs.Prelude.{◌≡◌, ◌≤◌, ◌-◌, drop, length, take, IfOk};
ghost use Rattle.py_syntax.specs.BlockTrees.{block_of};
ghost use Rattle.test_meaning.specs.Body.Views.{view_function};
ghost use Rattle.test_functions.specs.Inside.{file_of_whole};
ghost use Rattle.test_meaning.specs.Bodies.{function_in};

use crate::blocks::body;
use crate::{ModuleMeanings, Whole};
use port_io::{Name, NoMemory, Sequence};
use py_syntax::{BlockItem, Parameter};
use std::alloc::Global;
use test_meaning::body::Function;
use test_names::locals::own_names;

/// The names from one place on, up to another. Only want of memory is an error.
fn names_between(
    alloc: Global,
    names: &Sequence<Name>,
    start: usize,
    end: usize,
) -> Result<Sequence<Name>, NoMemory>
    requires { end ≤ length names.now }
    ensures { IfOk result (λ some. some ≡ take (end - start) (drop start names.now)) }
{
    let mut some = Sequence::new(alloc);
    for at in start..end {
        some.push(Name::of(alloc, names.get(at).bytes())?)?;
    }
    Ok(some)
}

/// A function of a module, with these parameters and this block. Only want of memory is an error.
pub(crate) fn function(
    alloc: Global,
    whole: &Whole<'_, '_>,
    parameters: &[Parameter],
    block: &[BlockItem],
) -> Result<Function, NoMemory>
    ensures { IfOk result (λ made. view_function made ≡ function_in (file_of_whole whole.now) parameters.now (block_of block.now)) }
{
    let own = own_names(alloc, parameters, block)?;
    let body = body(alloc, &ModuleMeanings { whole, own: &own }, block)?;
    Ok(Function {
        parameters: names_between(alloc, &own.names, 0, parameters.len())?,
        others: names_between(alloc, &own.names, parameters.len(), own.names.len())?,
        body,
    })
}
