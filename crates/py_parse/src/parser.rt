//! Whole texts.

ghost use Rattle.std.specs.Prelude.{List, IfOk, IfErr};
ghost use Rattle.py_syntax.specs.Line.{Line};
ghost use Rattle.py_syntax.specs.BlockTrees.{ModuleItem, view_module};
ghost use Rattle.py_syntax.specs.Modules.{SpellsModule, IsWithinLimits};
ghost use Rattle.py_syntax.specs.Outline.{Refusal, Refused, at_start};
ghost use Rattle.py_parse.specs.Found.{IsBroken, IsRefused};
ghost use Rattle.py_parse.specs.Answers.{IsRead};

use crate::fault::PyFault;
use crate::nest::module_of;
use crate::reader::outline;
use py_syntax::{Lines, Module};
use std::alloc::Global;

/// The module that logical lines spell (the language reference, 9.2), within 32 blocks and a height of 64; or the first line that
/// has no form in its place, has no block, or is over a limit.
pub fn parse(alloc: Global, lines: &Lines) -> Result<Module, PyFault>
    // What is read spells the lines, within the limits.
    ensures found { IfOk result (λ m. SpellsModule (view_module m) lines.now × IsWithinLimits (view_module m)) }
    // A module that spells the lines within the limits is read, unless memory runs out.
    ensures only { (m : List ModuleItem) → SpellsModule m lines.now → IsWithinLimits m → IsRead m result }
    // A fault is the first broken rule.
    ensures refused { IfErr result (λ f. IsBroken lines.now f) }
    // Lines that break a rule are refused by the first one, unless memory runs out.
    ensures only_refused { (refusal : Refusal) → Refused at_start lines.now refusal → IsRefused refusal result }
{
    let placed = outline(alloc, lines)?;
    Ok(module_of(alloc, placed)?)
}
