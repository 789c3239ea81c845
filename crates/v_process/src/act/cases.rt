//! Case statements.

ghost use Rattle.std.specs.Prelude.{◌≡◌, IfOk, OnOk};
ghost use Rattle.gpi.specs.Activation.{acts_of};
ghost use Rattle.v_check.specs.Contextual.Contexts.{IsLowered};
ghost use Rattle.v_flat.specs.Statements.{agreement_of};
ghost use Rattle.v_process.specs.Act.Cases.{ChecksCase, ChecksDefault, ChecksItem, ChecksMoreLabels, ChecksNoCase, ChecksNoLabel};
ghost use Rattle.v_process.specs.Act.MadeCases.{
  AddsItem,
  AddsLabels,
  AreCaseStatements,
  AreMoreDefaults,
  AreMoreItems,
  AreMoreLabels,
  AreNumbered,
  HasDefault,
  HasItem,
  HasLabel,
  MakesCaseStatement,
};

use crate::act::waiting::{beside, both_ok, in_place_of, with_last};
use gpi::{Act, Acts, CaseKind as Agreement, Label, Term};
use port_io::{NoMemory, Sequence};
use std::alloc::Global;
use v_check::constants::Checked;
use v_check::contextual::Contextual;
use v_flat::scope::Found;
use v_syntax::CaseKind;

/// The labels of an item of a case statement (IEEE 1364-2005, clause 9.5). Where a rule is broken in one of them, they don't count.
#[derive(Drop)]
pub struct CaseLabels {
    /// The greatest number of digits that one of them has by itself; 0 where there is none.
    pub width: u8,
    /// What each is in each context, the last one first.
    pub forms: Vec<Contextual>,
}

/// A label before others. Only want of memory is an error.
fn with_label(first: Checked, rest: CaseLabels) -> Result<CaseLabels, NoMemory>
    ensures { IfOk result (HasLabel first rest) }
{
    let width = first.width.max(rest.width);
    let forms = with_last(rest.forms, first.form)?;
    Ok(CaseLabels { width, forms })
}

/// What is made of a label and others. Only want of memory is an error.
fn more_labels(found: Found<(Checked, CaseLabels)>) -> Result<Found<CaseLabels>, NoMemory>
    ensures { IfOk result (AreMoreLabels found) }
{
    match found {
        Found::Sound((first, rest)) => Ok(Found::Sound(with_label(first, rest)?)),
        Found::Noted(fault, (first, rest)) => Ok(Found::Noted(fault, with_label(first, rest)?)),
        Found::Lost(fault) => Ok(Found::Lost(fault)),
    }
}

impl CaseLabels {
    /// No label.
    pub fn none(alloc: Global) -> Found<CaseLabels>
        ensures { ChecksNoLabel result }
    {
        Found::Sound(CaseLabels {
            width: 0,
            forms: Vec::new(alloc),
        })
    }

    /// A label before those that stand behind it, from what was found in its expression. Only want of memory is an error.
    pub fn before(
        first: Found<Checked>,
        rest: Found<CaseLabels>,
    ) -> Result<Found<CaseLabels>, NoMemory>
        ensures { IfOk result (ChecksMoreLabels first rest) }
    {
        more_labels(first.both(rest))
    }
}

/// An item of a case statement that has labels.
#[derive(Drop)]
pub struct LabeledItem {
    /// Its labels.
    pub labels: CaseLabels,
    /// The statement that runs where one of them agrees.
    pub statement: Act,
}

/// The items of a case statement (IEEE 1364-2005, clause 9.5). Where a rule is broken in one of them, they don't count.
#[derive(Drop)]
pub struct CaseParts {
    /// The greatest number of digits that a label has by itself; 0 where there is none.
    pub width: u8,
    /// Each item that has labels, the last one first.
    pub items: Vec<LabeledItem>,
    /// The statement of the first default, where there is one.
    pub other: Option<Act>,
}

/// An item before others. Only want of memory is an error.
fn with_item(labels: CaseLabels, statement: Act, rest: CaseParts) -> Result<CaseParts, NoMemory>
    ensures { IfOk result (HasItem labels statement rest) }
{
    let width = labels.width.max(rest.width);
    let item = LabeledItem { labels, statement };
    let (items, other) = beside(with_last(rest.items, item), rest.other)?;
    Ok(CaseParts {
        width,
        items,
        other,
    })
}

/// What is made of an item and others. Only want of memory is an error.
fn more_items(found: Found<((CaseLabels, Act), CaseParts)>) -> Result<Found<CaseParts>, NoMemory>
    ensures { IfOk result (AreMoreItems found) }
{
    match found {
        Found::Sound(((labels, statement), rest)) => {
            Ok(Found::Sound(with_item(labels, statement, rest)?))
        }
        Found::Noted(fault, ((labels, statement), rest)) => {
            Ok(Found::Noted(fault, with_item(labels, statement, rest)?))
        }
        Found::Lost(fault) => Ok(Found::Lost(fault)),
    }
}

/// A default before items, among which it is the first one.
fn with_default(statement: Act, rest: CaseParts) -> CaseParts
    ensures { HasDefault statement rest result }
{
    CaseParts {
        width: rest.width,
        items: rest.items,
        other: in_place_of(rest.other, statement),
    }
}

/// What is made of a default and items.
fn more_defaults(found: Found<(Act, CaseParts)>) -> Found<CaseParts>
    ensures { AreMoreDefaults found result }
{
    match found {
        Found::Sound((statement, rest)) => Found::Sound(with_default(statement, rest)),
        Found::Noted(fault, (statement, rest)) => Found::Noted(
            fault,
            with_default(statement, rest),
        ),
        Found::Lost(fault) => Found::Lost(fault),
    }
}

impl CaseParts {
    /// No item.
    pub fn none(alloc: Global) -> Found<CaseParts>
        ensures { ChecksNoCase result }
    {
        Found::Sound(CaseParts {
            width: 0,
            items: Vec::new(alloc),
            other: None,
        })
    }

    /// `label , .. : statement` before those items that stand behind it. Only want of memory is an error.
    pub fn item(
        labels: Found<CaseLabels>,
        statement: Found<Act>,
        rest: Found<CaseParts>,
    ) -> Result<Found<CaseParts>, NoMemory>
        ensures { IfOk result (ChecksItem labels statement rest) }
    {
        more_items(labels.both(statement).both(rest))
    }

    /// `default : statement` before those items that stand behind it.
    pub fn default(statement: Found<Act>, rest: Found<CaseParts>) -> Found<CaseParts>
        ensures { ChecksDefault statement rest result }
    {
        more_defaults(statement.both(rest))
    }
}

/// Adds the labels of an item of that number, in a context of `width` digits. Only want of memory is an error; then the list is of no use.
fn add_labels(
    alloc: Global,
    labels: &mut Sequence<Label>,
    mut forms: Vec<Contextual>,
    width: u8,
    item: u32,
) -> Result<(), NoMemory>
    ensures { OnOk result (AddsLabels width item forms.items labels.old labels.new) }
{
    while let Some(form) = forms.pop() {
        let value = form.lower(alloc, width)?;
        labels.push(Label { value, item })?;
    }
    Ok(())
}

/// The number of an item with so many before it. That they are too many to be counted is want of memory.
fn item_number(count: usize) -> Result<u32, NoMemory>
    ensures { IfOk result (λ number. number ≡ count) }
{
    match u32::try_from(count) {
        Ok(number) => Ok(number),
        Err(_) => Err(NoMemory),
    }
}

/// Adds an item behind those that have numbers: its labels in a context of `width` digits, with its number, and its statement. Only want of
/// memory is an error; then both lists are of no use.
fn add_item(
    alloc: Global,
    labels: &mut Sequence<Label>,
    statements: &mut Acts,
    item: LabeledItem,
    width: u8,
) -> Result<(), NoMemory>
    ensures { OnOk result (AddsItem width item labels.old (acts_of statements.old) labels.new (acts_of statements.new)) }
{
    let (number, item) = beside(item_number(statements.len()), item)?;
    let added = add_labels(alloc, labels, item.labels.forms, width, number);
    let ((), statement) = beside(added, item.statement)?;
    statements.push(statement)?;
    Ok(())
}

/// The labels of all items in a context of `width` digits, each with the number of its item, and the items' statements. The last one of
/// the list is the first item. Only want of memory is an error.
fn numbered(
    alloc: Global,
    mut items: Vec<LabeledItem>,
    width: u8,
) -> Result<(Sequence<Label>, Acts), NoMemory>
    ensures { IfOk result (λ made. AreNumbered width items.items made.0 made.1) }
{
    let mut labels = Sequence::new(alloc);
    let mut statements = Acts::new(alloc);
    while let Some(item) = items.pop() {
        add_item(alloc, &mut labels, &mut statements, item, width)?;
    }
    Ok((labels, statements))
}

/// Which digits agree with any digit (IEEE 1364-2005, clause 9.5.1).
fn agreement(kind: CaseKind) -> Agreement
    ensures { result ≡ agreement_of kind }
{
    match kind {
        CaseKind::Case => Agreement::Exact,
        CaseKind::CaseZ => Agreement::AnyZ,
        CaseKind::CaseX => Agreement::AnyXz,
    }
}

/// The value and the labels of all items in a context of `width` digits, each label with the number of its item, and the items' statements. Only
/// want of memory is an error.
fn lowered(
    alloc: Global,
    value: Contextual,
    items: Vec<LabeledItem>,
    width: u8,
) -> Result<(Term, (Sequence<Label>, Acts)), NoMemory>
    ensures { IfOk result (λ made. IsLowered value width made.0 × AreNumbered width items.items made.1.0 made.1.1) }
{
    both_ok(value.lower(alloc, width), numbered(alloc, items, width))
}

/// A case statement over these items: the value and all labels are evaluated at the greatest width of them all (IEEE 1364-2005, clause
/// 9.5). Only want of memory is an error.
fn made(alloc: Global, kind: CaseKind, value: Checked, parts: CaseParts) -> Result<Act, NoMemory>
    ensures { IfOk result (MakesCaseStatement kind value parts) }
{
    let width = value.width.max(parts.width);
    let lowered = lowered(alloc, value.form, parts.items, width);
    let ((value, (labels, statements)), other) = beside(lowered, parts.other)?;
    let other = other.unwrap_or(Act::Empty);
    Act::case(alloc, agreement(kind), value, labels, statements, other)
}

/// What is made of the value and the items. Only want of memory is an error.
fn of_both(
    alloc: Global,
    kind: CaseKind,
    found: Found<(Checked, CaseParts)>,
) -> Result<Found<Act>, NoMemory>
    ensures { IfOk result (AreCaseStatements kind found) }
{
    match found {
        Found::Sound((value, parts)) => Ok(Found::Sound(made(alloc, kind, value, parts)?)),
        Found::Noted(fault, (value, parts)) => {
            Ok(Found::Noted(fault, made(alloc, kind, value, parts)?))
        }
        Found::Lost(fault) => Ok(Found::Lost(fault)),
    }
}

/// `case ( value ) item .. endcase`, `casez` or `casex` (IEEE 1364-2005, clause 9.5), from what was found in the value and in the items.
/// Only want of memory is an error.
pub fn case(
    alloc: Global,
    kind: CaseKind,
    value: Found<Checked>,
    parts: Found<CaseParts>,
) -> Result<Found<Act>, NoMemory>
    ensures { IfOk result (ChecksCase kind value parts) }
{
    of_both(alloc, kind, value.both(parts))
}
