//! The kinds of a module's lines, which their first tokens tell.

ghost use Rattle.std.specs.Prelude.{◌≡◌};
ghost use Rattle.py_expression.specs.Phrase.Marks;
ghost use Rattle.py_parse.specs.ModuleLine.Reading;

use py_expression::phrase::{Mark, after, after_word};
use py_syntax::{Bracket, Keyword, Operator, Token};

/// A kind of line.
#[derive(Clone, Copy, Debug)]
pub enum Kind {
    Import,
    From,
    Constant,
    Test,
    Factory,
    AddOption,
    GenerateTests,
    Function,
}

/// Whether this mark stands at the front.
fn starts(mark: Mark, tokens: &[Token]) -> bool
    ensures { result ≡ Reading.starts mark tokens.now }
{
    after(mark, tokens).is_some()
}

/// The kind of a line that begins with a name, behind that.
fn target_kind(tokens: &[Token]) -> Kind
    ensures { result ≡ Reading.target_kind tokens.now (Marks.after Marks.assign tokens.now) }
{
    if let Some(rest) = after(Mark::Operator(Operator::Assign), tokens) {
        return match after_word(b"TestFactory", rest) {
            Some(rest) if starts(Mark::Open(Bracket::Round), rest) => Kind::Factory,
            _ => Kind::Constant,
        };
    }
    match after(Mark::Operator(Operator::Dot), tokens) {
        Some(rest) if after_word(b"add_option", rest).is_some() => Kind::AddOption,
        Some(_) => Kind::GenerateTests,
        None => Kind::Constant,
    }
}

/// The kind of which a line with these tokens is, if it has a form.
#[tactic(auto, unfolding(crate::specs::ModuleLine::Reading::kind_at))]
pub fn kind_of(tokens: &[Token]) -> Kind
    ensures { result ≡ Reading.kind_at tokens.now }
{
    if starts(Mark::Keyword(Keyword::Import), tokens) {
        return Kind::Import;
    }
    if starts(Mark::Keyword(Keyword::From), tokens) {
        return Kind::From;
    }
    if starts(Mark::Operator(Operator::At), tokens) {
        return Kind::Test;
    }
    if starts(Mark::Keyword(Keyword::Async), tokens) {
        return Kind::Function;
    }
    match tokens.split_first() {
        Some((Token::Name(_), rest)) => target_kind(rest),
        _ => Kind::Constant,
    }
}
