//! Tokens that tell which statement of a form is meant.

ghost use Rattle.std.specs.Prelude.{◌≡◌, Option, Some, None};
ghost use Rattle.v_syntax.specs.TokenMeanings as meanings;
ghost use Rattle.v_expression.specs.Phrase.Readers.{token_of};
ghost use Rattle.v_expression.specs.Phrase.Stops.{Gives};

use v_expression::phrase::{ReadError, next, syntax_error};
use v_syntax::{CaseKind, Keyword, Token};

/// `case`, `casez` or `casex`
pub fn case_kind(tokens: &[Token]) -> Result<(CaseKind, &[Token]), ReadError>
    ensures { Gives (λ x. (x.0, x.1.now)) result (token_of meanings.case_kind tokens.now) }
{
    match next(tokens) {
        Some((Token::Keyword(Keyword::Case), rest)) => Ok((CaseKind::Case, rest)),
        Some((Token::Keyword(Keyword::CaseZ), rest)) => Ok((CaseKind::CaseZ, rest)),
        Some((Token::Keyword(Keyword::CaseX), rest)) => Ok((CaseKind::CaseX, rest)),
        _ => Err(syntax_error(tokens)),
    }
}
