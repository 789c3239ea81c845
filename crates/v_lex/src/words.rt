//! Reserved words, system tasks and directives by their words.

ghost use Rattle.std.specs.Prelude.{◌≡◌, Option};
ghost use Rattle.v_syntax.specs.Words.{keyword_of, reserved_of, task_of};
ghost use Rattle.v_lex.specs.DirectiveWords.{directive_of};

use crate::directive::{DIRECTIVE_WORDS, DirectiveWord};
use v_syntax::{KEYWORDS, Keyword, RESERVED_WORDS, ReservedWord, SYSTEM_TASKS, SystemTask};

/// The keyword that the word is.
#[tactic(auto, unfolding(v_syntax::specs::Words::keyword_of))]
pub fn keyword_of(word: &[u8]) -> Option<Keyword>
    ensures { result ≡ keyword_of word.now }
{
    KEYWORDS
        .iter()
        .copied()
        .find(|keyword| word == keyword.spelling())
}

/// The reserved word without a place in the grammar that the word is.
#[tactic(auto, unfolding(v_syntax::specs::Words::reserved_of))]
pub fn reserved_of(word: &[u8]) -> Option<ReservedWord>
    ensures { result ≡ reserved_of word.now }
{
    RESERVED_WORDS
        .iter()
        .copied()
        .find(|reserved| word == reserved.spelling())
}

/// The system task of the name.
#[tactic(auto, unfolding(v_syntax::specs::Words::task_of))]
pub fn task_of(name: &[u8]) -> Option<SystemTask>
    ensures { result ≡ task_of name.now }
{
    SYSTEM_TASKS
        .iter()
        .copied()
        .find(|task| name == task.spelling())
}

/// The directive whose word it is.
#[tactic(auto, unfolding(crate::specs::DirectiveWords::directive_of))]
pub fn directive_of(word: &[u8]) -> Option<DirectiveWord>
    ensures { result ≡ directive_of word.now }
{
    DIRECTIVE_WORDS
        .iter()
        .copied()
        .find(|directive| word == directive.spelling())
}
