//! The walk over the statements of a procedure.
#![tactic(auto, using(gpi::proofs::Steps::kept))]

ghost use Rattle.std.specs.Prelude.{◌≡◌, All, length, map, IfOk, None, Some};
ghost use Rattle.v_flat.specs.declared.scope.meaning.Meaning.TheVariants.{Object};
ghost use Rattle.v_flat.specs.Scope.Scope.{find, means, width_of};
ghost use Rattle.v_syntax.specs.StatementTrees.{For, case_trees, statement_trees, view as view_statement, view_case, view_header};
ghost use Rattle.v_flat.specs.Statements.{
  case_read,
  cases_read,
  known_turns,
  read_in_turns,
  statement_reads,
  statements_read,
  turn,
  turns,
  with_counter,
};
ghost use Rattle.v_check.specs.Names.Proper.{AreProper};
ghost use Rattle.v_loop.specs.Reads.Reads.{Adds, spans_of};

use crate::reads::Span;
use crate::sensitivity::added::{add_expression, add_labels};
use crate::sensitivity::targets::add_target;
use crate::{Unrolled, enter_turn, leave_turn, turns};
use four_value::Bits;
use port_io::NoMemory;
use std::alloc::Global;
use v_flat::scope::{DataObject, Found, Meaning, Scope};
use v_syntax::{CaseItem, ForHeader, Statement, TokenNumber};

/// The data object that a loop counts in by the name of its counter; none where the name is that of no data object.
fn counter(scope: &Scope, name: &[u8]) -> Option<DataObject>
    ensures { result ≡ with_counter (find name.now (means scope.now)) (λ object. Some object) None }
{
    match scope.find(name) {
        Some(Meaning::Object(object)) => Some(*object),
        Some(Meaning::Constant(_, _)) | Some(Meaning::Later) | None => None,
    }
}

/// Adds what a statement reads. Only want of memory is an error. Whatever the answer, each name means what it meant.
#[cycle(statements)]
fn add(
    alloc: Global,
    spans: &mut Vec<Span>,
    scope: &mut Scope,
    unrolled: &mut Unrolled,
    tree: &Statement,
) -> Result<(), NoMemory>
    requires { AreProper (means scope.old) }
    ensures added { Adds spans.old.items spans.new.items (statement_reads (means scope.old) (view_statement tree.now)) result }
    ensures scope { means scope.new ≡ means scope.old }
{
    unrolled.count_statement(tree)?;
    match tree {
        Statement::Null => Ok(()),
        Statement::Block { statements, .. } => add_all(alloc, spans, scope, unrolled, statements),
        Statement::Assignment { target, value, .. } => {
            add_target(alloc, spans, scope, target)?;
            add_expression(alloc, spans, scope, value)
        }
        Statement::If { condition, branch } => {
            add_expression(alloc, spans, scope, condition)?;
            add(alloc, spans, scope, unrolled, branch)
        }
        Statement::IfElse {
            condition,
            branch,
            otherwise,
        } => {
            add_expression(alloc, spans, scope, condition)?;
            add(alloc, spans, scope, unrolled, branch)?;
            add(alloc, spans, scope, unrolled, otherwise)
        }
        Statement::Case {
            selector,
            items,
            ..
        } => {
            add_expression(alloc, spans, scope, selector)?;
            add_items(alloc, spans, scope, unrolled, items)
        }
        Statement::For { at, header, body } => {
            add_loop(alloc, spans, scope, unrolled, *at, header, body)
        }
        Statement::TaskEnable { .. } => Ok(()),
        Statement::Delay { .. } => Ok(()),
    }
}

/// Adds what each of these statements reads. Only want of memory is an error. Whatever the answer, each name means what it meant.
#[cycle(statements)]
fn add_all(
    alloc: Global,
    spans: &mut Vec<Span>,
    scope: &mut Scope,
    unrolled: &mut Unrolled,
    statements: &[Statement],
) -> Result<(), NoMemory>
    requires { AreProper (means scope.old) }
    ensures added { Adds spans.old.items spans.new.items
        (statements_read (means scope.old) (statement_trees (map view_statement statements.now))) result }
    ensures scope { means scope.new ≡ means scope.old }
{
    for statement in statements {
        add(alloc, spans, scope, unrolled, statement)?;
    }
    Ok(())
}

/// Adds what an item of a case statement reads. Only want of memory is an error. Whatever the answer, each name means what it meant.
#[cycle(statements)]
fn add_item(
    alloc: Global,
    spans: &mut Vec<Span>,
    scope: &mut Scope,
    unrolled: &mut Unrolled,
    item: &CaseItem,
) -> Result<(), NoMemory>
    requires { AreProper (means scope.old) }
    ensures added { Adds spans.old.items spans.new.items (case_read (means scope.old) (view_case item.now)) result }
    ensures scope { means scope.new ≡ means scope.old }
{
    match item {
        CaseItem::Match { labels, statement } => {
            add_labels(alloc, spans, scope, labels)?;
            add(alloc, spans, scope, unrolled, statement)
        }
        CaseItem::Default { statement } => add(alloc, spans, scope, unrolled, statement),
    }
}

/// Adds what each of these items reads. Only want of memory is an error. Whatever the answer, each name means what it meant.
#[cycle(statements)]
fn add_items(
    alloc: Global,
    spans: &mut Vec<Span>,
    scope: &mut Scope,
    unrolled: &mut Unrolled,
    items: &[CaseItem],
) -> Result<(), NoMemory>
    requires { AreProper (means scope.old) }
    ensures added { Adds spans.old.items spans.new.items (cases_read (means scope.old) (case_trees (map view_case items.now))) result }
    ensures scope { means scope.new ≡ means scope.old }
{
    for item in items {
        add_item(alloc, spans, scope, unrolled, item)?;
    }
    Ok(())
}

/// Adds what the body of a loop reads in the turn in which the register has this value (IEEE 1364-2005, clause 9.6). Only want of memory is
/// an error. Whatever the answer, each name means what it meant.
#[cycle(statements)]
fn add_turn(
    alloc: Global,
    spans: &mut Vec<Span>,
    scope: &mut Scope,
    unrolled: &mut Unrolled,
    name: &[u8],
    object: DataObject,
    value: Bits,
    body: &Statement,
) -> Result<(), NoMemory>
    requires proper { AreProper (means scope.old) }
    requires counter { find name.now (means scope.old) ≡ Some (Object object) }
    requires width { length value ≡ width_of object.bounds }
    ensures added { Adds spans.old.items spans.new.items
        (statement_reads (turn name.now object value (means scope.old)) (view_statement body.now)) result }
    ensures scope { means scope.new ≡ means scope.old }
{
    enter_turn(scope, name, object, value);
    let done = add(alloc, spans, scope, unrolled, body);
    leave_turn(scope, name, object);
    done
}

/// Adds what the body of a loop reads in each turn (IEEE 1364-2005, clause 9.6). Only want of memory is an error. Whatever the answer, each
/// name means what it meant.
#[cycle(statements)]
fn add_turns(
    alloc: Global,
    spans: &mut Vec<Span>,
    scope: &mut Scope,
    unrolled: &mut Unrolled,
    name: &[u8],
    object: DataObject,
    values: &[Bits],
    body: &Statement,
) -> Result<(), NoMemory>
    requires proper { AreProper (means scope.old) }
    requires counter { find name.now (means scope.old) ≡ Some (Object object) }
    requires widths { All (λ v. length v ≡ width_of object.bounds) values.now }
    ensures added { Adds spans.old.items spans.new.items
        (read_in_turns (λ v. statement_reads (turn name.now object v (means scope.old)) (view_statement body.now)) values.now) result }
    ensures scope { means scope.new ≡ means scope.old }
{
    for value in values {
        add_turn(alloc, spans, scope, unrolled, name, object, *value, body)?;
    }
    Ok(())
}

/// Adds what a loop reads that counts in this data object: what its body reads in each turn, and nothing where its turns are not known. Only
/// want of memory is an error. Whatever the answer, each name means what it meant.
#[cycle(statements)]
fn add_counted(
    alloc: Global,
    spans: &mut Vec<Span>,
    scope: &mut Scope,
    unrolled: &mut Unrolled,
    place: TokenNumber,
    header: &ForHeader,
    object: DataObject,
    body: &Statement,
) -> Result<(), NoMemory>
    requires proper { AreProper (means scope.old) }
    requires counter { find header.now.initial.name.name (means scope.old) ≡ Some (Object object) }
    ensures added { Adds spans.old.items spans.new.items
        (read_in_turns (λ v. statement_reads (turn header.now.initial.name.name object v (means scope.old)) (view_statement body.now))
        (known_turns (turns place (view_header header.now) (means scope.old) object)).0) result }
    ensures scope { means scope.new ≡ means scope.old }
{
    let name = header.initial.name.name.bytes();
    match turns(alloc, scope, unrolled, place, header, object)? {
        Found::Sound(turns) => add_turns(
            alloc,
            spans,
            scope,
            unrolled,
            name,
            object,
            turns.values(),
            body,
        ),
        Found::Noted(_fault, turns) => {
            add_turns(
                alloc,
                spans,
                scope,
                unrolled,
                name,
                object,
                turns.values(),
                body,
            )
        }
        Found::Lost(_fault) => Ok(()),
    }
}

/// Adds what a loop reads (IEEE 1364-2005, clause 9.6), where `place` is the number of the `for`. One whose counter is no data object reads
/// nothing. Only want of memory is an error. Whatever the answer, each name means what it meant.
#[cycle(statements)]
fn add_loop(
    alloc: Global,
    spans: &mut Vec<Span>,
    scope: &mut Scope,
    unrolled: &mut Unrolled,
    place: TokenNumber,
    header: &ForHeader,
    body: &Statement,
) -> Result<(), NoMemory>
    requires { AreProper (means scope.old) }
    ensures added { Adds spans.old.items spans.new.items
        (statement_reads (means scope.old) (For place (view_header header.now) (view_statement body.now))) result }
    ensures scope { means scope.new ≡ means scope.old }
{
    match counter(scope, header.initial.name.name.bytes()) {
        Some(object) => add_counted(alloc, spans, scope, unrolled, place, header, object, body),
        None => Ok(()),
    }
}

/// The signals that a statement of a procedure reads, in the order of the text (IEEE 1364-2005, clause 9.7.5). Only want of memory is an
/// error. Whatever the answer, each name means what it meant.
pub fn statement_reads(
    alloc: Global,
    scope: &mut Scope,
    statement: &Statement,
) -> Result<Vec<Span>, NoMemory>
    requires { AreProper (means scope.old) }
    ensures read { IfOk result (λ spans. spans_of spans.items ≡ statement_reads (means scope.old) (view_statement statement.now)) }
    ensures scope { means scope.new ≡ means scope.old }
{
    let mut spans = Vec::new(alloc);
    let mut unrolled = Unrolled::none();
    add(alloc, &mut spans, scope, &mut unrolled, statement)?;
    Ok(spans)
}
