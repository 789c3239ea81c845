//! Texts between quotes.

ghost use Rattle.std.specs.Prelude.{◌≡◌, ◌≤◌, ◌<◌, ◌+◌, length, Option, IfSome, IfOk, ◌^◌};
ghost use Rattle.v_lex.specs.Pieces.{text_len, text_at};

use crate::bytes::ByteClass;
use crate::directive::{Content, LexRule, Piece};
use crate::runs::run;
use port_io::{Name, NoMemory};
use std::alloc::Global;
use v_syntax::Token;

/// How many bytes stand between a quote and the next one on its line.
pub fn text_len(after: &[u8]) -> Option<usize>
    ensures is { result ≡ text_len after.now }
    ensures within { IfSome result (λ n. n + 1 ≤ length after.now) }
{
    let n = run(ByteClass::Text, after);
    let (_, rest) = after.split_at(n);
    if rest.starts_with(b"\"") {
        Some(n)
    } else {
        None
    }
}

/// The text behind a quote (IEEE 1364-2005, clause 3.6).
#[tactic(auto, unfolding(crate::specs::Pieces::text_at))]
pub fn text_at(alloc: Global, after: &[u8]) -> Result<Piece, NoMemory>
    requires { length after.now < 2 ^ 60 }
    ensures is { IfOk result (λ p. p ≡ text_at after.now) }
    ensures some { IfOk result (λ p. 1 ≤ p.size) }
    ensures within { IfOk result (λ p. p.size ≤ length after.now + 1) }
{
    match text_len(after) {
        Some(n) => {
            let (inside, _) = after.split_at(n);
            Ok(Piece {
                size: 2 + n,
                content: Content::Token(Token::Text(Name::of(alloc, inside)?)),
            })
        }
        None => Ok(Piece {
            size: 1 + run(ByteClass::Text, after),
            content: Content::Broken(LexRule::UnclosedText),
        }),
    }
}
