//! What is known around a line.

use port_io::NoMemory;
use py_syntax::{Argument, Const};
use std::alloc::Global;
use test_meaning::rules::FileRule;

/// What is known around a line of a tests file. Each call answers for one use which rule it breaks there: UnknownName, Misplaced or none.
pub trait Scope {
    ghost use Rattle.std.specs.Prelude.{◌≡◌, [], ◌∷◌, map, IfOk};
    ghost use Rattle.test_meaning.specs.Rules.File.{File};
    ghost use Rattle.test_meaning.specs.Rules.Uses.{Around, Reads, Needs, Takes, Calls, Makes, Extends};
    ghost use Rattle.test_names.specs.Uses.Answer.{answer};

    /// What the whole file defines.
    ghost file: { Self → File };

    /// What the items above define, and the names that are the function's own.
    ghost around: { Self → Around };

    /// For a name that is read as a value.
    fn reads(&self, name: &[u8]) -> Option<FileRule>
        ensures { result ≡ answer (file self.now) (around self.now) (Reads name.now ∷ []) };

    /// For a name by which a form is known.
    fn needs(&self, name: &[u8]) -> Option<FileRule>
        ensures { result ≡ answer (file self.now) (around self.now) (Needs name.now ∷ []) };

    /// For a constant.
    fn takes(&self, constant: &Const) -> Option<FileRule>
        ensures { result ≡ answer (file self.now) (around self.now) (Takes constant.now ∷ []) };

    /// For a call of a function of the file. Only want of memory is an error.
    fn calls(
        &self,
        alloc: Global,
        function: &[u8],
        arguments: &[Argument],
    ) -> Result<Option<FileRule>, NoMemory>
        ensures { IfOk result (λ rule. rule ≡ answer (file self.now) (around self.now) (Calls function.now (map (λ a. a.name) arguments.now) ∷ [])) };

    /// For a factory of the function of this name.
    fn makes(&self, function: &[u8]) -> Option<FileRule>
        ensures { result ≡ answer (file self.now) (around self.now) (Makes function.now ∷ []) };

    /// For an option or the tests of the factory of this name.
    fn extends(&self, factory: &[u8]) -> Option<FileRule>
        ensures { result ≡ answer (file self.now) (around self.now) (Extends factory.now ∷ []) };
}
