//! Arguments that are given by their names, and parameters.

ghost use Rattle.std.specs.Prelude.{◌≡◌};
ghost use Rattle.py_expression.specs.Phrase.Readers;

use crate::phrase::element::{Element, name};
use crate::phrase::fault::ReadError;
use crate::phrase::mark::{Mark, after, expect};
use py_syntax::{Const, Operator, Parameter, Setting, Token};
use std::alloc::Global;

impl Element for Setting {
    ghost reading = { Readers.setting };

    fn read<'a>(alloc: Global, tokens: &'a [Token]) -> Result<(Self, &'a [Token]), ReadError> {
        let (name, rest) = name(alloc, tokens)?;
        let rest = expect(Mark::Operator(Operator::Assign), rest)?;
        let (value, rest) = Const::read(alloc, rest)?;
        Ok((Setting { name, value }, rest))
    }
}

impl Element for Parameter {
    ghost reading = { Readers.parameter };

    fn read<'a>(alloc: Global, tokens: &'a [Token]) -> Result<(Self, &'a [Token]), ReadError> {
        let (name, rest) = name(alloc, tokens)?;
        let Some(rest) = after(Mark::Operator(Operator::Assign), rest) else {
            return Ok((
                Parameter {
                    name,
                    default: None,
                },
                rest,
            ));
        };
        let (value, rest) = Const::read(alloc, rest)?;
        let default = Some(value);
        Ok((Parameter { name, default }, rest))
    }
}
