//! Statements put together of their parts.

ghost use Rattle.std.specs.Prelude.{◌≡◌, map, option_map, IfOk};
ghost use Rattle.v_syntax.specs.ExpressionTrees;
ghost use Rattle.v_syntax.specs.StatementTrees.{view, view_case, view_header, statement_trees, Block};
ghost use Rattle.v_syntax.specs.Statements.{if_tree, for_tree};
ghost use Rattle.v_syntax.specs.Statements as rules;
ghost use Rattle.v_statement.specs.Reading.{case_item_tree, case_with};

use port_io::Name;
use std::alloc::AllocError;
use v_syntax::{CaseItem, CaseKind, Expression, ForHeader, Statement, TokenNumber};

/// A block of its label and its statements.
pub fn block(label: Option<Name>, statements: Vec<Statement>) -> Statement
    ensures { view result ≡ Block label (statement_trees (map view statements.items)) }
{
    Statement::Block { label, statements }
}

/// A case statement of its first parts and its items.
pub fn case_statement(head: (CaseKind, Box<Expression>), items: Vec<CaseItem>) -> Statement
    ensures { view result ≡ case_with (head.0, ExpressionTrees.view head.1.value) (map view_case items.items) }
{
    let (kind, selector) = head;
    Statement::Case {
        kind,
        selector: Box::into_inner(selector),
        items,
    }
}

/// An item of a case statement, with its expressions or as `default`.
pub fn case_item(labels: Option<Vec<Expression>>, statement: Box<Statement>) -> CaseItem
    ensures { view_case result ≡ case_item_tree (option_map (λ v. map ExpressionTrees.view v.items) labels) (view statement.value) }
{
    let statement = Box::into_inner(statement);
    match labels {
        Some(labels) => CaseItem::Match { labels, statement },
        None => CaseItem::Default { statement },
    }
}

/// A loop of its first parts and its body.
pub fn for_statement(head: (TokenNumber, Box<ForHeader>), body: Box<Statement>) -> Statement
    ensures { view result ≡ for_tree (head.0, view_header head.1.value) (view body.value) }
{
    let (at, header) = head;
    Statement::For {
        at,
        header: Box::into_inner(header),
        body,
    }
}

/// With an `else` where there is one.
pub fn if_statement(
    condition: Box<Expression>,
    branch: Box<Statement>,
    otherwise: Option<Box<Statement>>,
) -> Statement
    ensures { view result ≡ if_tree (ExpressionTrees.view condition.value) (view branch.value, option_map (λ b. view b.value) otherwise) }
{
    let condition = Box::into_inner(condition);
    match otherwise {
        None => Statement::If { condition, branch },
        Some(otherwise) => Statement::IfElse {
            condition,
            branch,
            otherwise,
        },
    }
}

/// The statements of a block, and the delay behind them where there is one.
pub fn with_delay(
    mut statements: Vec<Statement>,
    last: Option<Box<Statement>>,
) -> Result<Vec<Statement>, AllocError>
    ensures { IfOk result (λ all. map view all.items ≡ rules.with_delay (map view statements.items) (option_map (λ b. view b.value) last)) }
{
    if let Some(delay) = last {
        statements.push(Box::into_inner(delay))?;
    }
    Ok(statements)
}
