//! Why a tests file is refused.

use test_meaning::rules::FileRule;

/// Why a tests file is refused.
#[derive(Clone, Copy, Debug, PartialEq, Eq)]
pub enum FileFault {
    /// The first line that breaks a rule, by its number from 1, and the first rule that it breaks; or NoTests, at the last line that is no
    /// docstring, or at 1.
    Rule(FileRule, u32),
    /// Memory has run out.
    OutOfMemory,
}
