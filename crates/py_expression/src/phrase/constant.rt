//! Constants: a number, perhaps with a minus, a text, `True`, `False`, `None`, or a name.

ghost use Rattle.std.specs.Prelude.{◌≡◌, List, IfOk};
ghost use Rattle.py_syntax.specs.ConstantForms.{SpellsConstants};
ghost use Rattle.py_syntax.specs.declared.constant.Const.{Const};
ghost use Rattle.py_syntax.specs.declared.token.Token.{Token};
ghost use Rattle.py_expression.specs.Phrase.Found.{AreFound};
ghost use Rattle.py_expression.specs.Phrase.Readers;
ghost use Rattle.py_expression.specs.Phrase.Gives.{Gives};

use crate::phrase::element::Element;
use crate::phrase::fault::ReadError;
use crate::phrase::list::listed;
use crate::phrase::mark::{Mark, after};
use port_io::Name;
use py_syntax::{Bracket, Const, Keyword, Operator, Token};
use std::alloc::Global;

/// The constant that a token is.
pub fn constant_of(alloc: Global, token: &Token) -> Result<Const, ReadError>
    ensures { Gives (λ c. c) result (Readers.constant_of token.now) }
{
    match token {
        Token::Keyword(Keyword::None) => Ok(Const::Absent),
        Token::Keyword(Keyword::True) => Ok(Const::Truth(true)),
        Token::Keyword(Keyword::False) => Ok(Const::Truth(false)),
        Token::Number(n) if *n < 1 << 127 => Ok(Const::Whole(*n as i128)),
        Token::Text(text) => Ok(Const::Text(Name::of(alloc, text.bytes())?)),
        _ => Err(ReadError::Wrong),
    }
}

/// The number behind a minus, with its sign, and the tokens after it.
fn negative(tokens: &[Token]) -> Result<(Const, &[Token]), ReadError>
    ensures { Gives (λ x. (x.0, x.1.now)) result (Readers.negative tokens.now) }
{
    match tokens.split_first() {
        Some((Token::Number(n), rest)) if *n < 1 << 127 => {
            Ok((Const::Whole(-(*n as i128)), rest))
        }
        _ => Err(ReadError::Wrong),
    }
}

impl Element for Const {
    ghost reading = { Readers.constant };

    #[tactic(auto, unfolding(crate::specs::Phrase::Readers::constant))]
    fn read<'a>(alloc: Global, tokens: &'a [Token]) -> Result<(Self, &'a [Token]), ReadError> {
        if let Some(rest) = after(Mark::Operator(Operator::Minus), tokens) {
            return negative(rest);
        }
        match tokens.split_first() {
            Some((Token::Name(name), rest)) => {
                Ok((Const::Named(Name::of(alloc, name.bytes())?), rest))
            }
            Some((first, rest)) => Ok((constant_of(alloc, first)?, rest)),
            None => Err(ReadError::Wrong),
        }
    }
}

/// The constants of a list in square brackets, behind the opening one, and the tokens after the closing one. Wrong where no such list
/// stands there.
pub fn constants(alloc: Global, tokens: &[Token]) -> Result<(Vec<Const>, &[Token]), ReadError>
    ensures gives { Gives (λ x. (x.0.items, x.1.now)) result (Readers.constants_in tokens.now) }
    ensures found { IfOk result (λ x. SpellsConstants x.0.items tokens.now x.1.now) }
    ensures only { (cs : List Const) (rest : List Token) → SpellsConstants cs tokens.now rest → AreFound cs rest result }
{
    listed(alloc, Mark::Close(Bracket::Square), tokens)
}
