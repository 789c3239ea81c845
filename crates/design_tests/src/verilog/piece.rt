//! What is still to be printed.

use four_value::Bits;
use std::alloc::{AllocError, Global};
use v_syntax::{CaseItem, Expression, Item, Module, Statement, Target};

/// A node of the tree, or a text of its own.
#[derive(Clone, Copy)]
pub enum Piece<'a> {
    /// A text that stands for itself.
    Mark(&'static str),
    /// A name or a text, which is ASCII here.
    Name(&'a [u8]),
    /// A number's digits, the highest first.
    Bits(&'a Bits),
    Expression(&'a Expression),
    Target(&'a Target),
    Statement(&'a Statement),
    CaseItem(&'a CaseItem),
    Item(&'a Item),
    Module(&'a Module),
}

/// Pieces in the order in which they are printed.
#[derive(Drop)]
pub struct Pieces<'a> {
    pub list: Vec<Piece<'a>>,
}

impl<'a> Pieces<'a> {
    /// Nothing is to be printed.
    pub fn new(alloc: Global) -> Pieces<'a> {
        Pieces {
            list: Vec::new(alloc),
        }
    }

    /// A text that stands for itself.
    pub fn mark(&mut self, text: &'static str) -> Result<(), AllocError> {
        self.list.push(Piece::Mark(text))?;
        Ok(())
    }

    /// A number's digits, without a space.
    pub fn bits(&mut self, bits: &'a Bits) -> Result<(), AllocError> {
        self.list.push(Piece::Bits(bits))?;
        Ok(())
    }

    /// A name behind a space.
    pub fn name(&mut self, name: &'a [u8]) -> Result<(), AllocError> {
        self.mark(" ")?;
        self.list.push(Piece::Name(name))?;
        Ok(())
    }

    /// A piece behind a space.
    pub fn node(&mut self, piece: Piece<'a>) -> Result<(), AllocError> {
        self.mark(" ")?;
        self.list.push(piece)?;
        Ok(())
    }

    /// An expression behind a space.
    pub fn expression(&mut self, expression: &'a Expression) -> Result<(), AllocError> {
        self.node(Piece::Expression(expression))
    }

    /// An expression, or `-` where there is none.
    pub fn maybe(&mut self, expression: &'a Option<Expression>) -> Result<(), AllocError> {
        match expression {
            Some(expression) => self.expression(expression),
            None => self.mark(" -"),
        }
    }

    /// Expressions, each behind a space.
    pub fn expressions(&mut self, expressions: &'a [Expression]) -> Result<(), AllocError> {
        for expression in expressions {
            self.expression(expression)?;
        }
        Ok(())
    }
}
