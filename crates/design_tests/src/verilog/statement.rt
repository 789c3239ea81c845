//! Statements.

use crate::verilog::piece::{Piece, Pieces};
use std::alloc::AllocError;
use v_syntax::{
    AssignmentKind, CaseItem, CaseKind, Expression, ForHeader, Statement, SystemTask, Target,
    TaskArgument, VariableAssignment,
};

/// `name = value`
fn variable<'a>(
    pieces: &mut Pieces<'a>,
    assignment: &'a VariableAssignment,
) -> Result<(), AllocError> {
    pieces.mark(" (set")?;
    pieces.name(assignment.name.name.bytes())?;
    pieces.expression(&assignment.value)?;
    pieces.mark(")")
}

/// The parts of a loop's header.
fn loop_header<'a>(pieces: &mut Pieces<'a>, header: &'a ForHeader) -> Result<(), AllocError> {
    pieces.mark("(for")?;
    variable(pieces, &header.initial)?;
    pieces.expression(&header.condition)?;
    variable(pieces, &header.step)
}

/// A system task with its arguments.
fn task<'a>(
    pieces: &mut Pieces<'a>,
    task: SystemTask,
    arguments: &'a [TaskArgument],
) -> Result<(), AllocError> {
    pieces.mark(match task {
        SystemTask::DumpFile => "(dumpfile",
        SystemTask::DumpVars => "(dumpvars",
    })?;
    for argument in arguments {
        match argument {
            TaskArgument::Expression(value) => pieces.expression(value)?,
            TaskArgument::Text(text) => {
                pieces.mark(" (text")?;
                pieces.name(text.bytes())?;
                pieces.mark(")")?;
            }
        }
    }
    Ok(())
}

/// The statements of a block, with its label.
fn block<'a>(
    pieces: &mut Pieces<'a>,
    label: Option<&'a [u8]>,
    statements: &'a [Statement],
) -> Result<(), AllocError> {
    pieces.mark("(begin")?;
    match label {
        Some(label) => pieces.name(label)?,
        None => pieces.mark(" -")?,
    }
    for statement in statements {
        pieces.node(Piece::Statement(statement))?;
    }
    Ok(())
}

/// The sign of an assignment, and the delay behind it where there is one.
fn assignment_sign<'a>(
    pieces: &mut Pieces<'a>,
    kind: &'a AssignmentKind,
) -> Result<(), AllocError> {
    match kind {
        AssignmentKind::Blocking => pieces.mark("(="),
        AssignmentKind::Nonblocking => pieces.mark("(<="),
        AssignmentKind::Delayed { delay, .. } => {
            pieces.mark("(<= (delay")?;
            pieces.node(Piece::Bits(delay))?;
            pieces.mark(")")
        }
    }
}

/// A target and its value.
fn assignment<'a>(
    pieces: &mut Pieces<'a>,
    kind: &'a AssignmentKind,
    target: &'a Target,
    value: &'a Expression,
) -> Result<(), AllocError> {
    assignment_sign(pieces, kind)?;
    pieces.node(Piece::Target(target))?;
    pieces.expression(value)
}

/// A condition and the statement for it.
fn conditional<'a>(
    pieces: &mut Pieces<'a>,
    condition: &'a Expression,
    statement: &'a Statement,
) -> Result<(), AllocError> {
    pieces.mark("(if")?;
    pieces.expression(condition)?;
    pieces.node(Piece::Statement(statement))
}

/// A selector and the items for it.
fn case<'a>(
    pieces: &mut Pieces<'a>,
    kind: CaseKind,
    selector: &'a Expression,
    items: &'a [CaseItem],
) -> Result<(), AllocError> {
    pieces.mark(match kind {
        CaseKind::Case => "(case",
        CaseKind::CaseZ => "(casez",
        CaseKind::CaseX => "(casex",
    })?;
    pieces.expression(selector)?;
    for item in items {
        pieces.node(Piece::CaseItem(item))?;
    }
    Ok(())
}

/// A statement's node, and its parts.
pub fn open_statement<'a>(
    pieces: &mut Pieces<'a>,
    statement: &'a Statement,
) -> Result<(), AllocError> {
    match statement {
        Statement::Null => pieces.mark("(null")?,
        Statement::Block { label, statements } => {
            block(pieces, label.as_ref().map(|name| name.bytes()), statements)?;
        }
        Statement::Assignment {
            kind,
            target,
            value,
        } => assignment(pieces, kind, target, value)?,
        Statement::If { condition, branch } => conditional(pieces, condition, branch)?,
        Statement::IfElse {
            condition,
            branch,
            otherwise,
        } => {
            conditional(pieces, condition, branch)?;
            pieces.node(Piece::Statement(otherwise))?;
        }
        Statement::Case {
            kind,
            selector,
            items,
        } => case(pieces, *kind, selector, items)?,
        Statement::For { header, body, .. } => {
            loop_header(pieces, header)?;
            pieces.node(Piece::Statement(body))?;
        }
        Statement::TaskEnable {
            task: name,
            arguments,
        } => task(pieces, *name, arguments)?,
        Statement::Delay { delay, .. } => {
            pieces.mark("(delay")?;
            pieces.node(Piece::Bits(delay))?;
        }
    }
    pieces.mark(")")
}

/// An item of a `case`.
pub fn open_case_item<'a>(pieces: &mut Pieces<'a>, item: &'a CaseItem) -> Result<(), AllocError> {
    match item {
        CaseItem::Match { labels, statement } => {
            pieces.mark("(match")?;
            pieces.expressions(labels)?;
            pieces.node(Piece::Statement(statement))?;
        }
        CaseItem::Default { statement } => {
            pieces.mark("(default")?;
            pieces.node(Piece::Statement(statement))?;
        }
    }
    pieces.mark(")")
}
