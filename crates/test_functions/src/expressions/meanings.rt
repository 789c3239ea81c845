//! What names mean where a body stands.

use py_syntax::{Const, Parameter};

/// A function of a file that is called.
#[derive(Clone, Copy)]
pub struct CalledFunction<'a> {
    /// Its number, from 0.
    pub number: usize,
    pub parameters: &'a [Parameter],
}

/// What names, constants and functions mean where a body of a tests file stands.
pub trait Meanings {
    ghost use Rattle.std.specs.Prelude.{◌≡◌, None, MatchOption};
    ghost use Rattle.py_syntax.specs.ExpressionTrees.{Constant, Name};
    ghost use Rattle.test_meaning.specs.Rules.File.{function, value_in};
    ghost use Rattle.test_meaning.specs.Bodies.{Inside, clock_number, name_in};
    ghost use Rattle.test_functions.specs.Expressions.Called.{IsCalled};

    /// The file, and the names that are the function's own.
    ghost inside: { Self → Inside };

    /// The value that takes the place of a name in an expression, where it is a constant's; none where the name stays.
    fn fixed(&self, name: &[u8]) -> Option<&Const>
        ensures { MatchOption result (name_in (inside self.now) name.now ≡ Name name.now)
            (λ c. name_in (inside self.now) name.now ≡ Constant c.now) };

    /// What a constant stands for: where it is the name of a constant of the file, the value of that one, and else itself.
    fn value_of<'a>(&'a self, constant: &'a Const) -> &'a Const
        ensures { result.now ≡ value_in (inside self.now).file.constants constant.now };

    /// The function of this name; none where the file has none.
    fn function(&self, name: &[u8]) -> Option<CalledFunction<'_>>
        ensures { MatchOption result (function (inside self.now).file name.now ≡ None) (IsCalled (function (inside self.now).file name.now)) };

    /// How many functions the file has.
    fn function_count(&self) -> usize
        ensures { result ≡ clock_number (inside self.now).file };
}
