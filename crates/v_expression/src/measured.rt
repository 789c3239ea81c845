//! Trees with their heights.
//!
//! Each stands behind a `Box`, so that what reads on while it waits has little to let go.

ghost use Rattle.std.specs.Prelude.{◌≡◌, ◌+◌, ◌≤◌, max, [], ◌∷◌, ◌++◌, IfOk};
ghost use Rattle.v_syntax.specs.ExpressionTrees.{
  view,
  views,
  view_select,
  view_selects,
  Number,
  Named,
  Bracketed,
  Unary,
  Binary,
  Conditional,
  Concatenation,
  Replication,
  Bit,
  Part,
  IndexedPart,
  Whole,
  One,
  OfWord,
  none,
  more,
};
ghost use Rattle.v_expression.specs.Lists.{and_last};

use four_value::Bits;
use port_io::{Name, NoMemory, boxed};
use std::alloc::{AllocError, Global};
use v_syntax::{BinaryOperator, Expression, Operand, Select, Selects, TokenNumber, UnaryOperator};

/// An expression and its height.
#[derive(Drop)]
pub struct Measured {
    pub expression: Box<Expression>,
    pub height: usize,
}

/// A select and the height of its highest part.
#[derive(Drop)]
pub struct MeasuredSelect {
    pub select: Box<Select>,
    pub height: usize,
}

/// The selects behind a name, and the height of the name with them.
#[derive(Drop)]
pub struct MeasuredSelects {
    pub selects: Box<Selects>,
    pub height: usize,
}

/// The parts of a concatenation, and the height of the highest.
#[derive(Drop)]
pub struct MeasuredParts {
    pub parts: Vec<Expression>,
    pub height: usize,
}

/// A number, of height 1.
pub fn number(alloc: Global, at: TokenNumber, value: Bits) -> Result<Measured, NoMemory>
    ensures tree { IfOk result (λ x. view x.expression.value ≡ Number at value) }
    ensures height { IfOk result (λ x. x.height ≡ 1) }
{
    let expression = boxed(alloc, Expression::Number { at, value })?;
    let height = 1;
    Ok(Measured { expression, height })
}

/// A name and the selects behind it, of their height.
pub fn named(
    alloc: Global,
    at: TokenNumber,
    name: Name,
    found: MeasuredSelects,
) -> Result<Measured, NoMemory>
    ensures tree { IfOk result (λ x. view x.expression.value ≡ Named at name (view_selects found.selects.value)) }
    ensures height { IfOk result (λ x. x.height ≡ found.height) }
{
    let MeasuredSelects { selects, height } = found;
    let selects = Box::into_inner(selects);
    let operand = Operand { at, name, selects };
    let expression = boxed(alloc, Expression::Operand(operand))?;
    Ok(Measured { expression, height })
}

/// An expression in parentheses, one higher than what stands inside.
pub fn bracketed(alloc: Global, at: TokenNumber, found: Measured) -> Result<Measured, NoMemory>
    requires { found.height ≤ 1000 }
    ensures tree { IfOk result (λ x. view x.expression.value ≡ Bracketed at (view found.expression.value)) }
    ensures height { IfOk result (λ x. x.height ≡ found.height + 1) }
{
    let height = found.height + 1;
    let inner = found.expression;
    let expression = boxed(alloc, Expression::Bracketed { at, inner })?;
    Ok(Measured { expression, height })
}

/// A unary operator, one higher than its operand (IEEE 1364-2005, clause 5.1).
pub fn unary(
    alloc: Global,
    at: TokenNumber,
    operator: UnaryOperator,
    found: Measured,
) -> Result<Measured, NoMemory>
    requires { found.height ≤ 1000 }
    ensures tree { IfOk result (λ x. view x.expression.value ≡ Unary at operator (view found.expression.value)) }
    ensures height { IfOk result (λ x. x.height ≡ found.height + 1) }
{
    let height = found.height + 1;
    let made = Expression::Unary {
        at,
        operator,
        operand: found.expression,
    };
    let expression = boxed(alloc, made)?;
    Ok(Measured { expression, height })
}

/// A binary operator, one higher than the higher of its operands (clause 5.1).
pub fn binary(
    alloc: Global,
    operator: BinaryOperator,
    left: Measured,
    right: Measured,
) -> Result<Measured, NoMemory>
    requires left { left.height ≤ 1000 }
    requires right { right.height ≤ 1000 }
    ensures tree { IfOk result (λ x. view x.expression.value ≡ Binary operator (view left.expression.value) (view right.expression.value)) }
    ensures height { IfOk result (λ x. x.height ≡ 1 + max left.height right.height) }
{
    let height = 1 + left.height.max(right.height);
    let made = Expression::Binary {
        operator,
        left: left.expression,
        right: right.expression,
    };
    let expression = boxed(alloc, made)?;
    Ok(Measured { expression, height })
}

/// `? :`, one higher than the highest of its operands (clause 5.1.13).
pub fn conditional(
    alloc: Global,
    condition: Measured,
    yes: Measured,
    no: Measured,
) -> Result<Measured, NoMemory>
    requires condition { condition.height ≤ 1000 }
    requires first { yes.height ≤ 1000 }
    requires second { no.height ≤ 1000 }
    ensures tree { IfOk result
        (λ x. view x.expression.value ≡ Conditional (view condition.expression.value) (view yes.expression.value) (view no.expression.value)) }
    ensures height { IfOk result (λ x. x.height ≡ 1 + max condition.height (max yes.height no.height)) }
{
    let height = 1 + condition.height.max(yes.height.max(no.height));
    let made = Expression::Conditional {
        condition: condition.expression,
        yes: yes.expression,
        no: no.expression,
    };
    let expression = boxed(alloc, made)?;
    Ok(Measured { expression, height })
}

/// `[ index ]`, as high as the index (clause 5.2.1).
pub fn bit(alloc: Global, at: TokenNumber, found: Measured) -> Result<MeasuredSelect, NoMemory>
    ensures tree { IfOk result (λ x. view_select x.select.value ≡ Bit at (view found.expression.value)) }
    ensures height { IfOk result (λ x. x.height ≡ found.height) }
{
    let Measured { expression, height } = found;
    let index = expression;
    let select = boxed(alloc, Select::Bit { at, index })?;
    Ok(MeasuredSelect { select, height })
}

/// `[ left : right ]`, as high as the higher bound (clause 5.2.1).
pub fn part(
    alloc: Global,
    at: TokenNumber,
    left: Measured,
    right: Measured,
) -> Result<MeasuredSelect, NoMemory>
    ensures tree { IfOk result (λ x. view_select x.select.value ≡ Part at (view left.expression.value) (view right.expression.value)) }
    ensures height { IfOk result (λ x. x.height ≡ max left.height right.height) }
{
    let height = left.height.max(right.height);
    let made = Select::Part {
        at,
        left: left.expression,
        right: right.expression,
    };
    let select = boxed(alloc, made)?;
    Ok(MeasuredSelect { select, height })
}

/// `[ base +: width ]`, as high as the higher of both (clause 5.2.1).
pub fn indexed_part(
    alloc: Global,
    at: TokenNumber,
    base: Measured,
    width: Measured,
) -> Result<MeasuredSelect, NoMemory>
    ensures tree { IfOk result (λ x. view_select x.select.value ≡ IndexedPart at (view base.expression.value) (view width.expression.value)) }
    ensures height { IfOk result (λ x. x.height ≡ max base.height width.height) }
{
    let height = base.height.max(width.height);
    let made = Select::IndexedPart {
        at,
        base: base.expression,
        width: width.expression,
    };
    let select = boxed(alloc, made)?;
    Ok(MeasuredSelect { select, height })
}

/// No select behind a name: height 1.
pub fn whole(alloc: Global) -> Result<MeasuredSelects, NoMemory>
    ensures tree { IfOk result (λ x. view_selects x.selects.value ≡ Whole) }
    ensures height { IfOk result (λ x. x.height ≡ 1) }
{
    let selects = boxed(alloc, Selects::Whole)?;
    let height = 1;
    Ok(MeasuredSelects { selects, height })
}

/// A select of that height that stands alone.
pub fn one(alloc: Global, select: Select, highest: usize) -> Result<MeasuredSelects, NoMemory>
    requires { highest ≤ 1000 }
    ensures tree { IfOk result (λ x. view_selects x.selects.value ≡ One (view_select select)) }
    ensures height { IfOk result (λ x. x.height ≡ highest + 1) }
{
    let selects = boxed(alloc, Selects::One(select))?;
    let height = highest + 1;
    Ok(MeasuredSelects { selects, height })
}

/// The select behind the index of a word.
pub fn of_word(
    alloc: Global,
    at: TokenNumber,
    word: Measured,
    found: MeasuredSelect,
) -> Result<MeasuredSelects, NoMemory>
    requires word { word.height ≤ 1000 }
    requires select { found.height ≤ 1000 }
    ensures tree { IfOk result (λ x. view_selects x.selects.value ≡ OfWord at (view word.expression.value) (view_select found.select.value)) }
    ensures height { IfOk result (λ x. x.height ≡ 1 + max word.height found.height) }
{
    let height = 1 + word.height.max(found.height);
    let made = Selects::OfWord {
        at,
        word: word.expression,
        select: Box::into_inner(found.select),
    };
    let selects = boxed(alloc, made)?;
    Ok(MeasuredSelects { selects, height })
}

/// `{ .. }`, one higher than the highest of its parts (clause 5.1.14).
pub fn concatenation(
    alloc: Global,
    at: TokenNumber,
    found: MeasuredParts,
) -> Result<Measured, NoMemory>
    requires { found.height ≤ 1000 }
    ensures tree { IfOk result (λ x. view x.expression.value ≡ Concatenation at (views found.parts.items)) }
    ensures height { IfOk result (λ x. x.height ≡ found.height + 1) }
{
    let height = found.height + 1;
    let parts = found.parts;
    let expression = boxed(alloc, Expression::Concatenation { at, parts })?;
    Ok(Measured { expression, height })
}

/// `{ count { .. } }`, one higher than the highest of its count and its parts (clause 5.1.14).
pub fn replication(
    alloc: Global,
    at: TokenNumber,
    count: Measured,
    found: MeasuredParts,
) -> Result<Measured, NoMemory>
    requires count { count.height ≤ 1000 }
    requires parts { found.height ≤ 1000 }
    ensures tree { IfOk result (λ x. view x.expression.value ≡ Replication at (view count.expression.value) (views found.parts.items)) }
    ensures height { IfOk result (λ x. x.height ≡ 1 + max count.height found.height) }
{
    let height = 1 + count.height.max(found.height);
    let made = Expression::Replication {
        at,
        count: count.expression,
        parts: found.parts,
    };
    let expression = boxed(alloc, made)?;
    Ok(Measured { expression, height })
}

impl MeasuredParts {
    /// One part.
    pub fn of(alloc: Global, first: Measured) -> Result<MeasuredParts, AllocError>
        ensures parts { IfOk result (λ x. views x.parts.items ≡ more (view first.expression.value) none) }
        ensures height { IfOk result (λ x. x.height ≡ first.height) }
    {
        let Measured { expression, height } = first;
        let mut parts = Vec::new(alloc);
        parts.push(Box::into_inner(expression))?;
        Ok(MeasuredParts { parts, height })
    }

    /// With another part behind them.
    pub fn with(self, last: Measured) -> Result<MeasuredParts, AllocError>
        ensures parts { IfOk result (λ x. views x.parts.items ≡ and_last (views self.parts.items) (view last.expression.value)) }
        ensures height { IfOk result (λ x. x.height ≡ max self.height last.height) }
    {
        let MeasuredParts { mut parts, height } = self;
        let height = height.max(last.height);
        parts.push(Box::into_inner(last.expression))?;
        Ok(MeasuredParts { parts, height })
    }
}
