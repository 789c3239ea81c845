//! The walk over the statements of a procedure.

ghost use Rattle.std.specs.Prelude.{◌≡◌, length, IfOk, None, Some};
ghost use Rattle.v_flat.specs.declared.scope.meaning.Meaning.TheVariants.{Object};
ghost use Rattle.v_flat.specs.Scope.Scope.{find, means, width_of};
ghost use Rattle.v_syntax.specs.StatementTrees.{For, view as view_statement, view_case, view_header};
ghost use Rattle.v_flat.specs.Statements.{turn};
ghost use Rattle.v_check.specs.Names.Proper.{AreProper};
ghost use Rattle.v_loop.specs.Turns.{HaveWidth};
ghost use Rattle.v_process.specs.Act.Statements.{IsFoundStatement};
ghost use Rattle.v_process.specs.Lists.{AreFoundCases, AreFoundStatements, IsFoundCase, case_list, statement_list};
ghost use Rattle.v_process.specs.Turns.{AreTurns};

use crate::act::{
    BlockParts, CaseParts, assignment, block, case, if_else, if_then, without_effect,
};
use crate::header::{register, turns};
use crate::labels::labels;
use crate::last_value::behind_turns;
use four_value::Bits;
use gpi::Act;
use port_io::NoMemory;
use std::alloc::Global;
use v_check::check;
use v_flat::Timing;
use v_flat::scope::{DataObject, Found, Scope};
use v_loop::{LoopTurns, Unrolled, enter_turn, leave_turn};
use v_syntax::{CaseItem, ForHeader, Statement, TokenNumber};

/// What is found in a statement of a procedure in a module of this timing: what is broken first in it, or else the statement of `gpi` that
/// it is (IEEE 1364-2005, clause 9). It counts in `unrolled`, with each statement and each turn in it. Only want of memory is an error. Whatever
/// the answer, each name means what it meant.
#[cycle(statements)]
pub fn statement(
    alloc: Global,
    scope: &mut Scope,
    timing: Timing,
    unrolled: &mut Unrolled,
    tree: &Statement,
) -> Result<Found<Act>, NoMemory>
    requires { AreProper (means scope.old) }
    ensures found { IfOk result (IsFoundStatement timing (means scope.old) (view_statement tree.now)) }
    ensures scope { means scope.new ≡ means scope.old }
{
    unrolled.count_statement(tree)?;
    match tree {
        Statement::Null => Ok(without_effect()),
        Statement::Block { statements, .. } => {
            let parts = all(alloc, scope, timing, unrolled, statements)?;
            block(alloc, parts)
        }
        Statement::Assignment {
            kind,
            target,
            value,
        } => assignment(alloc, scope, timing, kind, target, value),
        Statement::If { condition, branch } => {
            let test = check(alloc, scope, condition)?;
            let yes = statement(alloc, scope, timing, unrolled, branch)?;
            if_then(alloc, test, yes)
        }
        Statement::IfElse {
            condition,
            branch,
            otherwise,
        } => {
            let test = check(alloc, scope, condition)?;
            let yes = statement(alloc, scope, timing, unrolled, branch)?;
            let no = statement(alloc, scope, timing, unrolled, otherwise)?;
            if_else(alloc, test, yes, no)
        }
        Statement::Case {
            kind,
            selector,
            items,
        } => {
            let value = check(alloc, scope, selector)?;
            let parts = case_items(alloc, scope, timing, unrolled, items)?;
            case(alloc, *kind, value, parts)
        }
        Statement::For { at, header, body } => for_loop(
            alloc, scope, timing, unrolled, *at, header, body,
        ),
        Statement::TaskEnable { .. } => Ok(without_effect()),
        Statement::Delay { .. } => Ok(without_effect()),
    }
}

/// The statements of a block, from the last one to the first (IEEE 1364-2005, clause 9.8.1). Only want of memory is an error. Whatever the
/// answer, each name means what it meant.
#[cycle(statements)]
fn all(
    alloc: Global,
    scope: &mut Scope,
    timing: Timing,
    unrolled: &mut Unrolled,
    statements: &[Statement],
) -> Result<Found<BlockParts>, NoMemory>
    requires { AreProper (means scope.old) }
    ensures found { IfOk result (AreFoundStatements timing (means scope.old) (statement_list statements.now)) }
    ensures scope { means scope.new ≡ means scope.old }
{
    let mut found = BlockParts::none(alloc);
    for at in (0..statements.len()).rev() {
        let first = statement(alloc, scope, timing, unrolled, &statements[at])?;
        found = BlockParts::before(first, found)?;
    }
    Ok(found)
}

/// An item of a case statement before those that stand behind it (IEEE 1364-2005, clause 9.5). Only want of memory is an error. Whatever
/// the answer, each name means what it meant.
#[cycle(statements)]
fn case_item(
    alloc: Global,
    scope: &mut Scope,
    timing: Timing,
    unrolled: &mut Unrolled,
    item: &CaseItem,
    rest: Found<CaseParts>,
) -> Result<Found<CaseParts>, NoMemory>
    requires { AreProper (means scope.old) }
    ensures found { IfOk result (IsFoundCase timing (means scope.old) (view_case item.now) rest) }
    ensures scope { means scope.new ≡ means scope.old }
{
    match item {
        CaseItem::Match {
            labels: expressions,
            statement: tree,
        } => {
            let labels = labels(alloc, scope, expressions)?;
            let act = statement(alloc, scope, timing, unrolled, tree)?;
            CaseParts::item(labels, act, rest)
        }
        CaseItem::Default { statement: tree } => {
            let act = statement(alloc, scope, timing, unrolled, tree)?;
            Ok(CaseParts::default(act, rest))
        }
    }
}

/// The items of a case statement, from the last one to the first (IEEE 1364-2005, clause 9.5). Only want of memory is an error. Whatever
/// the answer, each name means what it meant.
#[cycle(statements)]
fn case_items(
    alloc: Global,
    scope: &mut Scope,
    timing: Timing,
    unrolled: &mut Unrolled,
    items: &[CaseItem],
) -> Result<Found<CaseParts>, NoMemory>
    requires { AreProper (means scope.old) }
    ensures found { IfOk result (AreFoundCases timing (means scope.old) (case_list items.now)) }
    ensures scope { means scope.new ≡ means scope.old }
{
    let mut found = CaseParts::none(alloc);
    for at in (0..items.len()).rev() {
        found = case_item(alloc, scope, timing, unrolled, &items[at], found)?;
    }
    Ok(found)
}

/// The body of a loop in the turn in which the register has this value (IEEE 1364-2005, clause 9.6). Only want of memory is an error.
/// Whatever the answer, each name means what it meant.
#[cycle(statements)]
fn in_turn(
    alloc: Global,
    scope: &mut Scope,
    timing: Timing,
    unrolled: &mut Unrolled,
    name: &[u8],
    object: DataObject,
    value: Bits,
    body: &Statement,
) -> Result<Found<Act>, NoMemory>
    requires proper { AreProper (means scope.old) }
    requires counter { find name.now (means scope.old) ≡ Some (Object object) }
    requires width { length value ≡ width_of object.bounds }
    ensures found { IfOk result (IsFoundStatement timing (turn name.now object value (means scope.old)) (view_statement body.now)) }
    ensures scope { means scope.new ≡ means scope.old }
{
    enter_turn(scope, name, object, value);
    let found = statement(alloc, scope, timing, unrolled, body);
    leave_turn(scope, name, object);
    found
}

/// The turns of a loop, from the last one to the first, and what it leaves behind (IEEE 1364-2005, clause 9.6). Only want of memory is an
/// error. Whatever the answer, each name means what it meant.
#[cycle(statements)]
fn all_turns(
    alloc: Global,
    scope: &mut Scope,
    timing: Timing,
    unrolled: &mut Unrolled,
    name: &[u8],
    object: DataObject,
    turns: &LoopTurns,
    body: &Statement,
) -> Result<Found<BlockParts>, NoMemory>
    requires proper { AreProper (means scope.old) }
    requires counter { find name.now (means scope.old) ≡ Some (Object object) }
    requires plain { object.words ≡ None }
    requires widths { HaveWidth (width_of object.bounds) turns.now }
    ensures found { IfOk result (AreTurns timing (means scope.old) name.now object (view_statement body.now) turns.now) }
    ensures scope { means scope.new ≡ means scope.old }
{
    let values = turns.values();
    let mut found = behind_turns(alloc, object, turns.last())?;
    for at in (0..values.len()).rev() {
        let first = in_turn(
            alloc, scope, timing, unrolled, name, object, values[at], body,
        )?;
        found = BlockParts::before(first, found)?;
    }
    Ok(found)
}

/// `for ( initial ; condition ; step ) body` (IEEE 1364-2005, clause 9.6), where `place` is the number of the `for`. Only want of memory is
/// an error. Whatever the answer, each name means what it meant.
#[cycle(statements)]
fn for_loop(
    alloc: Global,
    scope: &mut Scope,
    timing: Timing,
    unrolled: &mut Unrolled,
    place: TokenNumber,
    header: &ForHeader,
    body: &Statement,
) -> Result<Found<Act>, NoMemory>
    requires { AreProper (means scope.old) }
    ensures found { IfOk result (IsFoundStatement timing (means scope.old) (For place (view_header header.now) (view_statement body.now))) }
    ensures scope { means scope.new ≡ means scope.old }
{
    let name = header.initial.name.name.bytes();
    match register(scope, &header.initial.name) {
        Ok(object) => match turns(alloc, scope, unrolled, place, header, object)? {
            Ok(turns) => {
                let parts = all_turns(alloc, scope, timing, unrolled, name, object, &turns, body)?;
                block(alloc, parts)
            }
            Err(fault) => Ok(Found::Lost(fault)),
        },
        Err(fault) => Ok(Found::Lost(fault)),
    }
}
