//! The parts of an f-string, while they are read.

ghost use Rattle.std.specs.Prelude.{◌≡◌, ◌≤◌, IfOk};
ghost use Rattle.py_syntax.specs.ExpressionTrees.{Tree, FormatString, view};
ghost use Rattle.py_expression.specs.Kept.{measured, parts_in};
ghost use Rattle.py_expression.specs.Rows.{parts_of};
ghost use Rattle.py_expression.specs.Shown;

use crate::measured::Measured;
use port_io::{Name, NoMemory};
use py_syntax::{Expression, FormatPart};
use std::alloc::Global;

/// Parts of an f-string, and the greatest height among their expressions.
#[derive(Drop)]
pub struct Parts {
    pub parts: Vec<FormatPart>,
    /// 0 where there is no expression.
    pub height: usize,
}

impl Parts {
    /// No parts.
    pub fn new(alloc: Global) -> Self
        ensures { parts_in result ≡ Shown.no_parts }
    {
        Parts {
            parts: Vec::new(alloc),
            height: 0,
        }
    }

    /// These and a text.
    #[tactic(auto, using(crate::proofs::RowLaws::parts_of_more), unfolding(crate::specs::Shown::with_text))]
    pub fn with_text(mut self, text: Name) -> Result<Parts, NoMemory>
        ensures { IfOk result (λ all. parts_in all ≡ Shown.with_text (parts_in self) text) }
    {
        self.parts.push(FormatPart::Text(text))?;
        Ok(self)
    }

    /// These and an expression.
    #[tactic(auto, using(crate::proofs::RowLaws::parts_of_more), unfolding(crate::specs::Shown::with_formatted))]
    pub fn with_formatted(mut self, expression: Measured) -> Result<Parts, NoMemory>
        ensures { IfOk result (λ all. parts_in all ≡ Shown.with_formatted (parts_in self) (measured expression)) }
    {
        self.height = self.height.max(expression.height);
        self.parts.push(FormatPart::Formatted(expression.tree))?;
        Ok(self)
    }

    /// The f-string of these.
    pub fn into_format_string(self) -> Expression
        ensures { view result ≡ FormatString (parts_of self.parts.items) }
    {
        Expression::FormatString(self.parts)
    }
}
