//! What a line says.

ghost use Rattle.py_expression.specs.Shown.{height_limit};
ghost use Rattle.py_statement.specs.Lines;
ghost use Rattle.py_parse.specs.ModuleLine.Reading.{line_of};
ghost use Rattle.py_syntax.specs.Outline.{view_content};
ghost use Rattle.py_parse.specs.Reading;
ghost use Rattle.py_parse.specs.Reading.{says};
ghost use Rattle.py_parse.specs.Found.{IsSaid};

use crate::fault::ContentFault;
use crate::module_line::module_line;
use port_io::boxed;
use py_expression::phrase::ReadError;
use py_statement::{LineError, statement_line};
use py_syntax::{Content, LogicalLine, Token};
use std::alloc::Global;

/// That a line says this.
fn said(alloc: Global, content: Content) -> Result<Box<Content>, ContentFault>
    ensures { IsSaid result (says (view_content content)) }
{
    match boxed(alloc, content) {
        Ok(content) => Ok(content),
        Err(_) => Err(ContentFault::OutOfMemory),
    }
}

/// What a docstring says: it has no tokens.
fn docstring(alloc: Global, tokens: &[Token]) -> Result<Box<Content>, ContentFault>
    ensures { IsSaid result (Reading.said_docstring tokens.now) }
{
    match tokens.split_first() {
        None => said(alloc, Content::Docstring),
        Some(_) => Err(ContentFault::Nothing),
    }
}

/// What a line outside of functions says.
fn in_module(alloc: Global, tokens: &[Token]) -> Result<Box<Content>, ContentFault>
    ensures { IsSaid result (Reading.said_module (line_of tokens.now)) }
{
    match module_line(alloc, tokens) {
        Ok(line) => said(alloc, Content::Module(line)),
        Err(ReadError::Wrong) => Err(ContentFault::Nothing),
        Err(ReadError::OutOfMemory) => Err(ContentFault::OutOfMemory),
    }
}

/// What a line of a function's body says.
fn in_body(alloc: Global, tokens: &[Token]) -> Result<Box<Content>, ContentFault>
    ensures { IsSaid result (Reading.said_body (Lines.line_of height_limit tokens.now)) }
{
    match statement_line(alloc, tokens) {
        Ok(line) => said(alloc, Content::Body(line)),
        Err(LineError::NoForm) => Err(ContentFault::Nothing),
        Err(LineError::TooHigh) => Err(ContentFault::TooHigh),
        Err(LineError::OutOfMemory) => Err(ContentFault::OutOfMemory),
    }
}

/// What a line says that stands in so many blocks.
#[tactic(auto, unfolding(crate::specs::Reading::said_of))]
pub fn content(
    alloc: Global,
    depth: usize,
    line: &LogicalLine,
) -> Result<Box<Content>, ContentFault>
    ensures { IsSaid result (Reading.said_of depth line.now) }
{
    if line.is_docstring() {
        return docstring(alloc, line.tokens());
    }
    if depth == 0 {
        in_module(alloc, line.tokens())
    } else {
        in_body(alloc, line.tokens())
    }
}
