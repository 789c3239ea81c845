//! The arguments of a call, while they are read.

ghost use Rattle.std.specs.Prelude.{◌≡◌, ◌≤◌, IfOk};
ghost use Rattle.py_syntax.specs.ExpressionTrees.{Tree, Call, view};
ghost use Rattle.py_expression.specs.Kept.{measured, arguments_in};
ghost use Rattle.py_expression.specs.Rows.{trees_of};
ghost use Rattle.py_expression.specs.Shown;

use crate::measured::Measured;
use port_io::NoMemory;
use py_syntax::{Expression, Function};
use std::alloc::Global;

/// Arguments of a known function, and the greatest height among them.
#[derive(Drop)]
pub struct FunctionArguments {
    pub trees: Vec<Expression>,
    /// 0 where there is no argument.
    pub height: usize,
}

impl FunctionArguments {
    /// No arguments.
    pub fn new(alloc: Global) -> Self
        ensures { arguments_in result ≡ Shown.no_trees }
    {
        FunctionArguments {
            trees: Vec::new(alloc),
            height: 0,
        }
    }

    /// How many there are.
    pub fn len(&self) -> usize
        ensures { result ≡ (arguments_in self.now).count }
    {
        self.trees.len()
    }

    /// These and one more.
    #[tactic(auto, using(crate::proofs::RowLaws::trees_of_more), unfolding(crate::specs::Shown::with_tree))]
    pub fn with(mut self, argument: Measured) -> Result<FunctionArguments, NoMemory>
        ensures { IfOk result (λ all. arguments_in all ≡ Shown.with_tree (arguments_in self) (measured argument)) }
    {
        self.height = self.height.max(argument.height);
        self.trees.push(Box::into_inner(argument.tree))?;
        Ok(self)
    }

    /// The call of a function with these.
    pub fn into_call(self, function: Function) -> Expression
        ensures { view result ≡ Call function (trees_of self.trees.items) }
    {
        Expression::Call(function, self.trees)
    }
}
