//! The form of a statement, by its first token.

ghost use Rattle.std.specs.Prelude.{◌≡◌};
ghost use Rattle.v_statement.specs.Firsts;
ghost use Rattle.v_statement.specs.Firsts.{form_of, mark_form, word_form};

use crate::expressions::begins_expression;
use v_expression::phrase::next;
use v_syntax::{Keyword, Mark, StatementForm, StatementPlace, Token};

/// The form of the statement that begins with the first token, if one does.
pub fn form(place: StatementPlace, tokens: &[Token]) -> Option<StatementForm>
    ensures { result ≡ form_of place tokens.now }
{
    let (first, _) = next(tokens)?;
    match first {
        Token::Name(_) => Some(StatementForm::Assignment),
        Token::Mark(mark) => form_of_mark(place, *mark),
        Token::Keyword(word) => form_of_word(*word),
        Token::SystemTask(_) if place != StatementPlace::InAlways => Some(
            StatementForm::TaskEnable,
        ),
        _ => None,
    }
}

/// The form of a statement that begins with this mark, if one does.
fn form_of_mark(place: StatementPlace, mark: Mark) -> Option<StatementForm>
    ensures { result ≡ mark_form place mark }
{
    match mark {
        Mark::Semicolon => Some(StatementForm::Null),
        Mark::OpenBrace => Some(StatementForm::Assignment),
        Mark::Hash if place == StatementPlace::WholeInitial => Some(StatementForm::Delay),
        _ => None,
    }
}

/// The form of a statement that begins with this word, if one does.
fn form_of_word(word: Keyword) -> Option<StatementForm>
    ensures { result ≡ word_form word }
{
    match word {
        Keyword::Begin => Some(StatementForm::Block),
        Keyword::If => Some(StatementForm::If),
        Keyword::Case | Keyword::CaseZ | Keyword::CaseX => Some(StatementForm::Case),
        Keyword::For => Some(StatementForm::For),
        _ => None,
    }
}

/// Whether a statement begins with the first token.
pub fn starts_statement(place: StatementPlace, tokens: &[Token]) -> bool
    ensures { result ≡ Firsts.starts_statement place tokens.now }
{
    form(place, tokens).is_some()
}

/// Whether an item of a case statement begins with the first token.
pub fn starts_case(tokens: &[Token]) -> bool
    ensures { result ≡ Firsts.starts_case tokens.now }
{
    match next(tokens) {
        Some((Token::Keyword(Keyword::Default) | Token::Name(_) | Token::Number(_), _)) => true,
        Some((Token::Mark(mark), _)) => begins_expression(*mark),
        _ => false,
    }
}
