//! Lines of a function's body.

ghost use Rattle.py_expression.specs.Shown.{height_limit};
ghost use Rattle.std.specs.Prelude.{ℕ, Option};
ghost use Rattle.py_syntax.specs.StatementTrees.{view_statement, view_header, view_line};
ghost use Rattle.py_syntax.specs.StatementTrees;
ghost use Rattle.py_expression.specs.Phrase.Gives.{Gives};
ghost use Rattle.py_expression.specs.Boxes.{inside};
ghost use Rattle.py_statement.specs.Call.Views.{tall};
ghost use Rattle.py_statement.specs.Reading;
ghost use Rattle.py_statement.specs.Lines.{line_of, Answers};

use crate::fault::LineError;
use crate::header::{
    else_header, except_header, for_header, headed, test, try_header, with_header,
};
use crate::plain::plain_statement;
use crate::statement::{asserting, awaiting, only, raising, returning};
use crate::words::keyword_at;
use port_io::boxed;
use py_expression::phrase::ReadError;
use py_syntax::{BodyLine, Header, Keyword, Statement, Token};
use std::alloc::Global;

/// A line that begins with an expression.
#[tactic(auto, unfolding(crate::specs::Reading::plain_line_of))]
fn plain_line(alloc: Global, tokens: &[Token]) -> Result<(Box<BodyLine>, usize), ReadError>
    ensures { Gives (tall (inside view_line)) result (Reading.plain_line_of height_limit tokens.now) }
{
    simple(alloc, plain_statement(alloc, tokens))
}

/// The line of a statement.
fn simple(
    alloc: Global,
    read: Result<(Box<Statement>, usize), ReadError>,
) -> Result<(Box<BodyLine>, usize), ReadError>
    ensures { (o : Option (StatementTrees.Statement × ℕ)) → Gives (tall (inside view_statement)) read o
        → Gives (tall (inside view_line)) result (Reading.simple o) }
{
    let (statement, height) = read?;
    let line = BodyLine::Statement(Box::into_inner(statement));
    Ok((boxed(alloc, line)?, height))
}

/// The line of a header.
fn heads(
    alloc: Global,
    read: Result<(Box<Header>, usize), ReadError>,
) -> Result<(Box<BodyLine>, usize), ReadError>
    ensures { (o : Option (StatementTrees.Header × ℕ)) → Gives (tall (inside view_header)) read o
        → Gives (tall (inside view_line)) result (Reading.heads o) }
{
    let (header, height) = read?;
    let line = BodyLine::Header(Box::into_inner(header));
    Ok((boxed(alloc, line)?, height))
}

/// Behind `if`.
fn if_header(alloc: Global, tokens: &[Token]) -> Result<(Box<Header>, usize), ReadError>
    ensures { Gives (tall (inside view_header)) result (Reading.if_of height_limit tokens.now) }
{
    let (condition, height) = test(alloc, tokens)?;
    let header = Header::If(Box::into_inner(condition));
    headed(alloc, header, height)
}

/// Behind `elif`.
fn elif_header(alloc: Global, tokens: &[Token]) -> Result<(Box<Header>, usize), ReadError>
    ensures { Gives (tall (inside view_header)) result (Reading.elif_of height_limit tokens.now) }
{
    let (condition, height) = test(alloc, tokens)?;
    let header = Header::Elif(Box::into_inner(condition));
    headed(alloc, header, height)
}

/// Behind `while`.
fn while_header(alloc: Global, tokens: &[Token]) -> Result<(Box<Header>, usize), ReadError>
    ensures { Gives (tall (inside view_header)) result (Reading.while_of height_limit tokens.now) }
{
    let (condition, height) = test(alloc, tokens)?;
    let header = Header::While(Box::into_inner(condition));
    headed(alloc, header, height)
}

/// A line of which this is the first word, `rest` stands behind it, and `tokens` are all.
fn worded(
    alloc: Global,
    keyword: Keyword,
    rest: &[Token],
    tokens: &[Token],
) -> Result<(Box<BodyLine>, usize), ReadError>
    ensures { Gives (tall (inside view_line)) result (Reading.worded_of height_limit keyword rest.now tokens.now) }
{
    match keyword {
        Keyword::Pass => simple(alloc, only(alloc, Statement::Pass, rest)),
        Keyword::Break => simple(alloc, only(alloc, Statement::Break, rest)),
        Keyword::Continue => simple(alloc, only(alloc, Statement::Continue, rest)),
        Keyword::Return => simple(alloc, returning(alloc, rest)),
        Keyword::Raise => simple(alloc, raising(alloc, rest)),
        Keyword::Assert => simple(alloc, asserting(alloc, rest)),
        Keyword::Await => simple(alloc, awaiting(alloc, rest)),
        Keyword::If => heads(alloc, if_header(alloc, rest)),
        Keyword::Elif => heads(alloc, elif_header(alloc, rest)),
        Keyword::Else => heads(alloc, else_header(alloc, rest)),
        Keyword::While => heads(alloc, while_header(alloc, rest)),
        Keyword::For => heads(alloc, for_header(alloc, rest)),
        Keyword::Try => heads(alloc, try_header(alloc, rest)),
        Keyword::Except => heads(alloc, except_header(alloc, rest)),
        Keyword::Async => heads(alloc, with_header(alloc, rest)),
        _ => plain_line(alloc, tokens),
    }
}

/// A line at any height, with its height.
#[tactic(auto, unfolding(crate::specs::Reading::body_of))]
fn body_line(alloc: Global, tokens: &[Token]) -> Result<(Box<BodyLine>, usize), ReadError>
    ensures { Gives (tall (inside view_line)) result (Reading.body_of height_limit tokens.now) }
{
    match keyword_at(tokens) {
        Some((keyword, rest)) => worded(alloc, keyword, rest, tokens),
        None => plain_line(alloc, tokens),
    }
}

/// The statement or the header that these tokens, a whole logical line of a function's body, spell.
#[tactic(auto, unfolding(crate::specs::Lines::line_of))]
pub fn statement_line(alloc: Global, tokens: &[Token]) -> Result<BodyLine, LineError>
    ensures { Answers result (line_of height_limit tokens.now) }
{
    match body_line(alloc, tokens) {
        Ok((line, height)) => {
            if height <= 64 {
                Ok(Box::into_inner(line))
            } else {
                Err(LineError::TooHigh)
            }
        }
        Err(ReadError::Wrong) => Err(LineError::NoForm),
        Err(ReadError::OutOfMemory) => Err(LineError::OutOfMemory),
    }
}
