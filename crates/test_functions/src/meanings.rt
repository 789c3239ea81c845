//! What names mean where the body of a function stands.

ghost use Rattle.test_names.specs.Locals.Own.{AreNumbered};

use crate::Whole;
use crate::expressions::{CalledFunction, Meanings};
use py_syntax::Const;
use test_names::locals::Numbered;
use test_refusal::settings::Values;

/// What names mean where the body of a function of a module stands.
#[derive(Drop)]
pub(crate) struct ModuleMeanings<'a, 'b, 'c> {
    /// The module.
    pub whole: &'a Whole<'b, 'c>,
    /// The names that are the function's own.
    pub own: &'a Numbered,
    ghost are_numbered: { AreNumbered own.now.names own.now },
}

impl<'a, 'b, 'c> Meanings for ModuleMeanings<'a, 'b, 'c> {
    ghost use Rattle.test_functions.specs.Inside.{inside_of};

    ghost inside = { inside_of };

    fn fixed(&self, name: &[u8]) -> Option<&Const> {
        match self.own.places.find(name) {
            Some(_) => None,
            None => self.whole.values.fixed(name),
        }
    }

    fn value_of<'d>(&'d self, constant: &'d Const) -> &'d Const {
        self.whole.values.value_of(constant)
    }

    fn function(&self, name: &[u8]) -> Option<CalledFunction<'_>> {
        self.whole.function(name)
    }

    fn function_count(&self) -> usize {
        self.whole.numbers.count
    }
}
