//! The operands of calls.

ghost use Rattle.std.specs.Prelude.{◌≡◌, ◌++◌, [], ◌∷◌, ℕ, List, length, map, IfOk};
ghost use Rattle.py_syntax.specs.ExpressionTrees as tree;
ghost use Rattle.py_syntax.specs.ExpressionTrees.{view};
ghost use Rattle.py_syntax.specs.StatementTrees.{view_argument};
ghost use Rattle.test_names.specs.Arguments.Marks.{AreMarks};
ghost use Rattle.test_meaning.specs.Body.Views.{view_operand};
ghost use Rattle.test_meaning.specs.Bodies.{default_operand, default_operands, given_operands, operands_in};
ghost use Rattle.test_meaning.specs.Rules.Rules.{is_in};

use crate::expressions::{Meanings, constant, expression};
use port_io::NoMemory;
use py_syntax::{Argument, Const, Parameter};
use std::alloc::Global;
use test_meaning::body::Operand;
use test_names::arguments::{mark, numbers, place_of};

/// The operands that are written, in that order, each with its parameter. Only want of memory is an error.
pub(crate) fn given_operands<M: Meanings>(
    alloc: Global,
    meanings: &M,
    parameters: &[Parameter],
    arguments: &[Argument],
) -> Result<Vec<Operand>, NoMemory>
    ensures { IfOk result
        (λ operands. map view_operand operands.items ≡ given_operands (M.inside meanings.now) parameters.now 0 (map view_argument arguments.now)) }
{
    let names = numbers(alloc, parameters)?;
    let mut operands = Vec::new(alloc);
    for (number, argument) in arguments.iter().enumerate() {
        let parameter = place_of(parameters, &names, number, argument);
        let value = expression(alloc, meanings, &argument.value)?;
        operands.push(Operand { parameter, value })?;
    }
    Ok(operands)
}

/// Of each of so many parameters whether an operand is for it. Only want of memory is an error.
fn marks(alloc: Global, count: usize, operands: &[Operand]) -> Result<Vec<bool>, NoMemory>
    ensures { IfOk result (λ given. AreMarks count (map (λ o. o.parameter) operands.now) given.items) }
{
    let mut given = vec![in alloc; false; count]?;
    for operand in operands {
        let _ = mark(&mut given, operand.parameter);
    }
    Ok(given)
}

/// Operands with one more behind them. Only want of memory is an error.
fn with_operand(mut operands: Vec<Operand>, operand: Operand) -> Result<Vec<Operand>, NoMemory>
    ensures { IfOk result (λ all. all.items ≡ operands.items ++ operand ∷ []) }
{
    operands.push(operand)?;
    Ok(operands)
}

/// Operands with the default of a parameter behind them, where it has one and no operand is given for it. Only want of memory is an error.
fn with_default<M: Meanings>(
    alloc: Global,
    meanings: &M,
    is_given: bool,
    parameter: usize,
    default: &Option<Const>,
    operands: Vec<Operand>,
) -> Result<Vec<Operand>, NoMemory>
    ensures { IfOk result (λ all. (ks : List ℕ) → is_given ≡ is_in parameter ks
        → map view_operand all.items ≡ map view_operand operands.items ++ default_operand (M.inside meanings.now).file ks parameter default.now) }
{
    if is_given {
        return Ok(operands);
    }
    match default {
        Some(default) => {
            let value = constant(alloc, meanings.value_of(default))?;
            with_operand(operands, Operand { parameter, value })
        }
        None => Ok(operands),
    }
}

/// Operands with the defaults behind them of those parameters that aren't marked. Only want of memory is an error.
fn with_defaults<M: Meanings>(
    alloc: Global,
    meanings: &M,
    parameters: &[Parameter],
    given: &[bool],
    written: Vec<Operand>,
) -> Result<Vec<Operand>, NoMemory>
    requires { length given.now ≡ length parameters.now }
    ensures { IfOk result (λ all. (ks : List ℕ) → AreMarks (length parameters.now) ks given.now
        → map view_operand all.items ≡ map view_operand written.items ++ default_operands (M.inside meanings.now).file ks 0 parameters.now) }
{
    let mut all = written;
    for (number, parameter) in parameters.iter().enumerate() {
        all = with_default(
            alloc,
            meanings,
            given[number],
            number,
            &parameter.default,
            all,
        )?;
    }
    Ok(all)
}

/// The operands of a call of a function with these parameters: those that are written, and the defaults of the others. Only want of memory is
/// an error.
pub(crate) fn operands<M: Meanings>(
    alloc: Global,
    meanings: &M,
    parameters: &[Parameter],
    arguments: &[Argument],
) -> Result<Vec<Operand>, NoMemory>
    ensures { IfOk result (λ all. map view_operand all.items ≡ operands_in (M.inside meanings.now) parameters.now (map view_argument arguments.now)) }
{
    let written = given_operands(alloc, meanings, parameters, arguments)?;
    let given = marks(alloc, parameters.len(), &written)?;
    with_defaults(alloc, meanings, parameters, &given, written)
}
