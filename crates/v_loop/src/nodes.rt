//! The nodes of a statement that is unrolled.

ghost use Rattle.std.specs.Prelude.{◌≤◌, [], ◌∷◌, map, OnOk};
ghost use Rattle.v_syntax.specs.ExpressionTrees.{view, view_select, view_selects, view_target, view_targets, views};
ghost use Rattle.v_syntax.specs.StatementTrees.{case_trees, view as view_statement, view_case};
ghost use Rattle.v_loop.specs.Unrolled.{
  Counts,
  all_nodes,
  labels_nodes,
  most_unrolled,
  nodes,
  own_nodes,
  select_nodes,
  selects_nodes,
  target_nodes,
  targets_nodes,
};

use crate::Unrolled;
use port_io::NoMemory;
use v_syntax::{CaseItem, Expression, Select, Selects, Statement, Target};

/// Counts the nodes of an expression.
#[cycle(counting)]
fn count_expression(unrolled: &mut Unrolled, expression: &Expression) -> Result<(), NoMemory>
    ensures { Counts unrolled.old unrolled.new (nodes (view expression.now)) result }
{
    unrolled.count()?;
    match expression {
        Expression::Number { .. } => Ok(()),
        Expression::Operand(operand) => count_selects(unrolled, &operand.selects),
        Expression::Bracketed { inner, .. } => count_expression(unrolled, inner),
        Expression::Unary { operand, .. } => count_expression(unrolled, operand),
        Expression::Binary { left, right, .. } => {
            count_expression(unrolled, left)?;
            count_expression(unrolled, right)
        }
        Expression::Conditional { condition, yes, no } => {
            count_expression(unrolled, condition)?;
            count_expression(unrolled, yes)?;
            count_expression(unrolled, no)
        }
        Expression::Concatenation { parts, .. } => count_all(unrolled, parts),
        Expression::Replication { count, parts, .. } => {
            count_expression(unrolled, count)?;
            count_all(unrolled, parts)
        }
    }
}

/// Counts the nodes of expressions.
#[cycle(counting)]
fn count_all(unrolled: &mut Unrolled, expressions: &[Expression]) -> Result<(), NoMemory>
    ensures { Counts unrolled.old unrolled.new (all_nodes (views expressions.now)) result }
{
    for expression in expressions {
        count_expression(unrolled, expression)?;
    }
    Ok(())
}

/// Counts the nodes of the selects behind a name.
#[cycle(counting)]
fn count_selects(unrolled: &mut Unrolled, selects: &Selects) -> Result<(), NoMemory>
    ensures { Counts unrolled.old unrolled.new (selects_nodes (view_selects selects.now)) result }
{
    match selects {
        Selects::Whole => Ok(()),
        Selects::One(select) => count_select(unrolled, select),
        Selects::OfWord { word, select, .. } => {
            count_expression(unrolled, word)?;
            count_select(unrolled, select)
        }
    }
}

/// Counts the nodes of a select.
#[cycle(counting)]
fn count_select(unrolled: &mut Unrolled, select: &Select) -> Result<(), NoMemory>
    ensures { Counts unrolled.old unrolled.new (select_nodes (view_select select.now)) result }
{
    match select {
        Select::Bit { index, .. } => count_expression(unrolled, index),
        Select::Part { left, right, .. } => {
            count_expression(unrolled, left)?;
            count_expression(unrolled, right)
        }
        Select::IndexedPart { base, width, .. } => {
            count_expression(unrolled, base)?;
            count_expression(unrolled, width)
        }
    }
}

/// Counts the nodes of a target.
#[cycle(targets)]
fn count_target(unrolled: &mut Unrolled, target: &Target) -> Result<(), NoMemory>
    ensures { Counts unrolled.old unrolled.new (target_nodes (view_target target.now)) result }
{
    unrolled.count()?;
    match target {
        Target::Operand(operand) => count_selects(unrolled, &operand.selects),
        Target::Concatenation { parts, .. } => count_targets(unrolled, parts),
    }
}

/// Counts the nodes of targets.
#[cycle(targets)]
fn count_targets(unrolled: &mut Unrolled, targets: &[Target]) -> Result<(), NoMemory>
    ensures { Counts unrolled.old unrolled.new (targets_nodes (view_targets targets.now)) result }
{
    for target in targets {
        count_target(unrolled, target)?;
    }
    Ok(())
}

/// Counts the nodes of the labels of an item of a case statement.
#[tactic(auto, using(crate::proofs::Rows::labels_are))]
fn count_label(unrolled: &mut Unrolled, item: &CaseItem) -> Result<(), NoMemory>
    ensures { Counts unrolled.old unrolled.new (labels_nodes (case_trees (view_case item.now ∷ []))) result }
{
    match item {
        CaseItem::Match { labels, .. } => count_all(unrolled, labels),
        CaseItem::Default { .. } => Ok(()),
    }
}

/// Counts the nodes of the labels of a case statement.
fn count_labels(unrolled: &mut Unrolled, items: &[CaseItem]) -> Result<(), NoMemory>
    ensures { Counts unrolled.old unrolled.new (labels_nodes (case_trees (map view_case items.now))) result }
{
    for item in items {
        count_label(unrolled, item)?;
    }
    Ok(())
}

impl Unrolled {
    /// Counts a statement: itself and the nodes of its expressions and targets, but not the statements in it, nor the header of a loop, whose
    /// parts are constants. Want of memory comes exactly where there are more than a design may have then; as many of them as still may be are
    /// counted.
    pub fn count_statement(&mut self, statement: &Statement) -> Result<(), NoMemory>
        ensures counts { Counts self.old self.new (own_nodes (view_statement statement.now)) result }
        ensures few { OnOk result (self.new ≤ most_unrolled) }
    {
        self.count()?;
        match statement {
            Statement::Assignment { target, value, .. } => {
                count_target(self, target)?;
                count_expression(self, value)
            }
            Statement::If { condition, .. } => count_expression(self, condition),
            Statement::IfElse { condition, .. } => count_expression(self, condition),
            Statement::Case {
                selector,
                items,
                ..
            } => {
                count_expression(self, selector)?;
                count_labels(self, items)
            }
            _ => Ok(()),
        }
    }
}
