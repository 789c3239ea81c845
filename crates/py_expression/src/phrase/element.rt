//! Elements of lists, and single tokens that carry a value.

ghost use Rattle.std.specs.Prelude.{◌≡◌, List, [], ◌∷◌, Option, Some, None};
ghost use Rattle.py_syntax.specs.declared.token.Token.{Token};
ghost use Rattle.py_expression.specs.Phrase.Readers;
ghost use Rattle.py_expression.specs.Phrase.Gives.{Gives};

use crate::phrase::fault::ReadError;
use crate::phrase::mark::name_at;
use port_io::Name;
use py_syntax::Token;
use std::alloc::Global;

/// What may be an element of a list.
pub trait Element: Drop {
    /// How it is read from the front of tokens, where it stands there.
    ghost reading: { List Token → Option (Self × List Token) };

    /// The element at the front of the tokens, and the tokens after it.
    fn read<'a>(alloc: Global, tokens: &'a [Token]) -> Result<(Self, &'a [Token]), ReadError>
        ensures { Gives (λ x. (x.0, x.1.now)) result (reading tokens.now) };
}

impl Element for Name {
    ghost reading = { Readers.name };

    fn read<'a>(alloc: Global, tokens: &'a [Token]) -> Result<(Self, &'a [Token]), ReadError> {
        let Some((name, rest)) = name_at(tokens) else {
            return Err(ReadError::Wrong);
        };
        Ok((Name::of(alloc, name.bytes())?, rest))
    }
}

/// The name at the front of the tokens, and the tokens after it.
pub fn name(alloc: Global, tokens: &[Token]) -> Result<(Name, &[Token]), ReadError>
    ensures { Gives (λ x. (x.0, x.1.now)) result (Readers.name tokens.now) }
{
    Name::read(alloc, tokens)
}

/// The text at the front of the tokens, and the tokens after it.
pub fn text(alloc: Global, tokens: &[Token]) -> Result<(Name, &[Token]), ReadError>
    ensures { Gives (λ x. (x.0, x.1.now)) result (Readers.text tokens.now) }
{
    match tokens.split_first() {
        Some((Token::Text(text), rest)) => Ok((Name::of(alloc, text.bytes())?, rest)),
        _ => Err(ReadError::Wrong),
    }
}
