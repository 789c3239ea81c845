//! The rules that a tests file must keep.

use py_syntax::LineNumber;

/// A rule of a tests file. Of those that one line breaks the one that stands first here counts, which is the least.
#[derive(Clone, Copy, Debug, PartialEq, Eq, PartialOrd, Ord)]
pub enum FileRule {
    /// A module, or a name of a module, that can't be imported.
    UnknownImport,
    /// A name that is neither a parameter, nor assigned in the function, nor defined in the module, nor built in.
    UnknownName,
    /// What is known and stands where it can't: `break` outside of a loop, arguments that don't fit, a decorator without a function, a
    /// test or a factory's function without the parameters that it needs.
    Misplaced,
    /// A second definition of a name in the module, or of a parameter in a function.
    DuplicateName,
    /// An option of a test or of a factory that isn't there, has a wrong value, is given twice or after the tests were generated; a
    /// unit without its time; tests that are generated twice, or while a parameter has no value.
    BadOption,
    /// More than 65,536 tests so far.
    TooManyCases,
    /// No test outside of factories, and no factory's tests that are generated.
    NoTests,
}

/// A line that breaks a rule, and the rule.
#[derive(Clone, Copy, Debug, PartialEq, Eq)]
pub struct Refusal {
    pub rule: FileRule,
    pub line: LineNumber,
}
