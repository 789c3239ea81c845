//! The parts of a whole design.

ghost use Rattle.std.specs.Prelude.{◌≡◌, [], IfOk, option_copied};
ghost use Rattle.v_header.specs.Top.Found.{modules_of};
ghost use Rattle.v_flat.specs.Design.{modules_in};
ghost use Rattle.v_elab.specs.Elaborates.{text_of};
ghost use Rattle.v_elab.specs.Steps.{IsDesign, IsFromTop};

use crate::connect::Joints;
use crate::level::Level;
use crate::outside::Outside;
use crate::there::timing_in;
use crate::walk::instance;
use port_io::NoMemory;
use std::alloc::Global;
use v_flat::scope::{Broken, ElabRule};
use v_header::parameter::Given;
use v_header::top::{Modules, module_numbers};
use v_layout::build::Parts;
use v_loop::Unrolled;
use v_syntax::{Source, TokenNumber};

/// The most levels of instances below the top.
const MOST_LEVELS: usize = 64;

/// What the top is given: nothing.
fn nothing(alloc: Global) -> Outside
    ensures given { result.given ≡ [] }
    ensures joints { result.joints.list.items ≡ [] }
{
    Outside {
        given: Given::none(alloc),
        joints: Joints {
            list: Vec::new(alloc),
        },
    }
}

/// The parts of the design under the top of this name, or under the only module that no module instantiates (IEEE 1364-2005, clause 12.1.1); or
/// the rule that is broken first. Only want of memory is an error.
fn from_top(
    alloc: Global,
    modules: &Modules<'_>,
    top: Option<&[u8]>,
) -> Result<Result<Parts, Broken>, NoMemory>
    ensures { IfOk result (IsFromTop (modules_of modules.now) (option_copied top.entry)) }
{
    match modules.top(alloc, top)? {
        Some(module) => {
            let name = module.name.name.bytes();
            let level = Level {
                modules,
                above: &[name],
                room: MOST_LEVELS,
                path: name,
                timing: timing_in(modules, module),
            };
            let mut unrolled = Unrolled::none();
            instance(
                alloc,
                &level,
                &mut unrolled,
                module,
                nothing(alloc),
                Parts::none(alloc),
            )
        }
        None => Ok(Err(Broken {
            rule: ElabRule::NoTop,
            place: TokenNumber::new(0),
        })),
    }
}

/// The parts of the design that the modules of a text stand for, or the rule that is broken first. Only want of memory is an error.
pub(crate) fn design(
    alloc: Global,
    source: &Source,
    top: Option<&[u8]>,
) -> Result<Result<Parts, Broken>, NoMemory>
    ensures { IfOk result (IsDesign (modules_in (text_of source.now)) (option_copied top.entry)) }
{
    match module_numbers(alloc, &source.modules)? {
        Ok(numbers) => from_top(
            alloc,
            &Modules {
                list: &source.modules,
                units: &source.units,
                step_fs: source.step,
                numbers: &numbers,
            },
            top,
        ),
        Err(fault) => Ok(Err(fault)),
    }
}
