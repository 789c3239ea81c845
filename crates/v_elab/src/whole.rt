//! The flat design of a whole text.

ghost use Rattle.std.specs.Prelude.{◌≤◌, IfOk, option_copied};
ghost use Rattle.gpi.specs.Soundness.{IsSoundFlat};
ghost use Rattle.v_elab.specs.Elaborates.{Elaborates, text_of};

use crate::ElabFault;
use crate::design::design;
use crate::fault::byte_of;
use gpi::Flat;
use std::alloc::Global;
use v_syntax::Source;

/// The flat design that a text stands for, under the top of this name, or else under the only module that no module instantiates (IEEE 1364-2005,
/// clause 12.1.1); or the rule that is broken first, with the byte of its token. NoTop is told at byte 0, and so is a token for which the source
/// has no place. `OutOfMemory` says nothing of the text; it is the answer, too, where loops are unrolled to more than 16,777,216 nodes
/// of statements, expressions and targets in the whole design.
pub fn elaborate(alloc: Global, source: &Source, top: Option<&str>) -> Result<Flat, ElabFault>
    ensures elaborates { Elaborates (text_of source.now) (option_copied top.entry) result }
    // Only a step of 0 makes it unsound.
    ensures sound { 1 ≤ source.now.step → IfOk result IsSoundFlat }
{
    let name = match top {
        Some(name) => Some(name.as_bytes()),
        None => None,
    };
    match design(alloc, source, name) {
        Ok(Ok(parts)) => match parts.into_flat(alloc, source.step) {
            Ok(flat) => Ok(flat),
            Err(_) => Err(ElabFault::OutOfMemory),
        },
        Ok(Err(fault)) => Err(ElabFault::Rule(fault.rule, byte_of(&source.places, fault))),
        Err(_) => Err(ElabFault::OutOfMemory),
    }
}
