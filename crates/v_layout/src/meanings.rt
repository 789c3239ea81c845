//! What the names of an instance mean.

ghost use Rattle.std.specs.Prelude.{◌≡◌, ◌++◌, IfOk};
ghost use Rattle.v_flat.specs.Scope.Scope.{means};
ghost use Rattle.v_flat.specs.Design.{entries};
ghost use Rattle.v_layout.specs.Order.{lines_in};
ghost use Rattle.v_header.specs.Parameter.Constants.{entries_of};
ghost use Rattle.v_layout.specs.Fits.{Fit};

use crate::details::Line;
use crate::numbers::{end_of, object, signal_count};
use port_io::NoMemory;
use std::alloc::Global;
use v_flat::scope::{Meaning, Scope};
use v_header::parameter::Constant;

/// The scope of declared names alone, the first signal of which has the number `first`. Only want of memory is an error.
fn declared_scope(alloc: Global, lines: &[Line<'_>], first: u32) -> Result<Scope, NoMemory>
    requires { Fit first (lines_in lines.now) }
    ensures { IfOk result (λ scope. means scope ≡ means (entries first (lines_in lines.now))) }
{
    let mut scope = Scope::new(alloc);
    let mut next = end_of(lines, first);
    for at in (0..lines.len()).rev() {
        let line = lines[at];
        next -= signal_count(line.declared);
        scope.declare(
            alloc,
            line.name,
            Meaning::Object(object(line.declared, next)),
        )?;
    }
    Ok(scope)
}

/// What each name of an instance means (IEEE 1364-2005, clause 4.11): the parameters are constants, and each declared name is a net, a
/// register or a memory, the first signal of which has the number `first`. Only want of memory is an error.
pub fn scope(
    alloc: Global,
    constants: &[Constant],
    lines: &[Line<'_>],
    first: u32,
) -> Result<Scope, NoMemory>
    requires { Fit first (lines_in lines.now) }
    ensures { IfOk result (λ scope. means scope ≡ means (entries_of constants.now ++ entries first (lines_in lines.now))) }
{
    let mut scope = declared_scope(alloc, lines, first)?;
    for at in (0..constants.len()).rev() {
        let constant = &constants[at];
        scope.declare(alloc, &constant.name, constant.value.meaning())?;
    }
    Ok(scope)
}
