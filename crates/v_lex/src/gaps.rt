//! Separators and comments.

ghost use Rattle.std.specs.Prelude.{◌≡◌, ◌≤◌, ◌<◌, ◌+◌, length, Option, IfSome, drop};
ghost use Rattle.v_lex.specs.Comments.{comment_end, comment_at, block_comment_to};
ghost use Rattle.v_lex.specs.DirectiveScan.{gap_size, is_blank};

use crate::bytes::{ByteClass, is_separator};
use crate::directive::{Content, LexRule, Piece};
use crate::runs::run;

/// How many bytes stand up to the first `*/` and with it.
fn comment_end(text: &[u8]) -> Option<usize>
    ensures is { result ≡ comment_end text.now }
    ensures within { IfSome result (λ n. n ≤ length text.now) }
{
    for i in 0..text.len() {
        let (_, rest) = text.split_at(i);
        if rest.starts_with(b"*/") {
            return Some(i + 2);
        }
    }
    None
}

fn block_comment(text: &[u8]) -> Piece
    requires { 2 ≤ length text.now }
    ensures is { result ≡ block_comment_to text.now (comment_end (drop 2 text.now)) }
    ensures some { 1 ≤ result.size }
    ensures within { result.size ≤ length text.now }
{
    let (_, inside) = text.split_at(2);
    match comment_end(inside) {
        Some(n) => Piece {
            size: 2 + n,
            content: Content::Gap,
        },
        None => Piece {
            size: text.len(),
            content: Content::Broken(LexRule::UnclosedText),
        },
    }
}

/// The comment at the front of the text (IEEE 1364-2005, clause 3.3).
#[tactic(auto, unfolding(crate::specs::Comments::comment_at))]
pub fn comment_at(text: &[u8]) -> Option<Piece>
    ensures is { result ≡ comment_at text.now }
    ensures some { IfSome result (λ p. 1 ≤ p.size) }
    ensures within { IfSome result (λ p. p.size ≤ length text.now) }
{
    if text.starts_with(b"//") {
        let (_, rest) = text.split_at(2);
        return Some(Piece {
            size: 2 + run(ByteClass::Line, rest),
            content: Content::Gap,
        });
    }
    if text.starts_with(b"/*") {
        return Some(block_comment(text));
    }
    None
}

/// How many bytes the separator or the comment at the front has.
#[tactic(auto, unfolding(crate::specs::DirectiveScan::gap_size))]
fn gap_size(text: &[u8]) -> Option<usize>
    ensures is { result ≡ gap_size text.now }
    ensures some { IfSome result (λ n. 1 ≤ n) }
    ensures within { IfSome result (λ n. n ≤ length text.now) }
{
    let first = text.first()?;
    if is_separator(*first) {
        return Some(1);
    }
    match comment_at(text) {
        Some(comment) => Some(comment.size),
        None => None,
    }
}

/// Whether what is left of the line has no token.
pub fn is_blank(text: &[u8]) -> bool
    ensures { result ≡ is_blank (length text.now) text.now }
{
    let mut rest = text;
    for _ in 0..text.len() {
        if rest.is_empty() {
            return true;
        }
        if rest[0] == b'\n' {
            return true;
        }
        let Some(n) = gap_size(rest) else {
            return false;
        };
        let (gap, behind) = rest.split_at(n);
        let in_line = run(ByteClass::Line, gap);
        if in_line != n {
            return true;
        }
        rest = behind;
    }
    true
}
