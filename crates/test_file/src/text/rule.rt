//! The rules by which the text of a tests file is refused.

ghost use Rattle.std.specs.Prelude.{◌≡◌};
ghost use Rattle.test_file.specs.Text.Words.{file_word, rule_word};

use test_meaning::rules::FileRule;

/// A rule by which the text of a tests file is refused. The rules of lines come first, then those of a module, then those of a file.
#[derive(Clone, Copy, Debug, PartialEq, Eq)]
pub enum TestsRule {
    /// A tab before the first token of a physical line.
    Tab,
    /// A line that is indented less than the one before it, at an indentation that is none of the open blocks' (the language reference,
    /// 2.1.8).
    Dedent,
    /// A bracket or a text that stays open, or a text that meets the end of its line; at the line where it begins.
    UnclosedText,
    /// A byte that has no place on its line, or a closing bracket that closes nothing.
    BadByte,
    /// A line that has no form in its place.
    BadLine,
    /// A header without a block, or a `try` whose block no `except` follows.
    NoBlock,
    /// A line in more than 32 blocks, or of a height over 64.
    TooDeep,
    /// A rule of a file (cocotb 1.8).
    File(FileRule),
}

/// The name of a rule of a file.
fn file_rule_name(rule: FileRule) -> &'static str
    ensures { result.now ≡ file_word rule }
{
    match rule {
        FileRule::UnknownImport => "UnknownImport",
        FileRule::UnknownName => "UnknownName",
        FileRule::Misplaced => "Misplaced",
        FileRule::DuplicateName => "DuplicateName",
        FileRule::BadOption => "BadOption",
        FileRule::TooManyCases => "TooManyCases",
        FileRule::NoTests => "NoTests",
    }
}

impl TestsRule {
    /// The name of the rule, as it stands in the line of a refusal.
    pub fn name(self) -> &'static str
        ensures { result.now ≡ rule_word self }
    {
        match self {
            TestsRule::Tab => "Tab",
            TestsRule::Dedent => "Dedent",
            TestsRule::UnclosedText => "UnclosedText",
            TestsRule::BadByte => "BadByte",
            TestsRule::BadLine => "BadLine",
            TestsRule::NoBlock => "NoBlock",
            TestsRule::TooDeep => "TooDeep",
            TestsRule::File(rule) => file_rule_name(rule),
        }
    }
}
