//! The modules of a text, by their names.

ghost use Rattle.std.specs.Prelude.{map};
ghost use Rattle.v_syntax.specs.SourceTrees.{view_module};
ghost use Rattle.v_header.specs.Top.Modules.{AreNumbers};

use crate::top::unused::{only_unused, used_modules};
use name_table::Names;
use port_io::NoMemory;
use std::alloc::Global;
use v_flat::Timing;
use v_syntax::Module;

/// The unit of time of a module without one, in femtoseconds.
const NANOSECOND: u64 = 1_000_000;

/// The modules of a text, by their names.
#[derive(Drop)]
pub struct Modules<'a> {
    /// All of them, in the order of the text.
    pub list: &'a [Module],
    /// The unit of time of each, in femtoseconds, in the same order; 1 ns where there is none (IEEE 1364-2005, clause 19.8).
    pub units: &'a [u64],
    /// The step of the design, in femtoseconds.
    pub step_fs: u64,
    /// Of each name the number of the module that has it, as [`module_numbers`](crate::top::module_numbers) finds it.
    pub numbers: &'a Names,
    ghost are_numbers: { AreNumbers (map view_module list.now) numbers.now },
}

impl<'a> Modules<'a> {
    ghost use Rattle.std.specs.Prelude.{◌≡◌, IfOk, option_copied};
    ghost use Rattle.v_flat.specs.Design.{find_module, timing_of, top_of, unit_of};
    ghost use Rattle.v_header.specs.Top.Found.{module_in, modules_of};

    /// The module of a name; none where there is none.
    pub fn find(&self, name: &[u8]) -> Option<&'a Module>
        ensures { module_in result ≡ find_module name.now (modules_of self.now).list }
    {
        match self.numbers.find(name) {
            Some(number) => self.list.get(number),
            None => None,
        }
    }

    /// The unit of time of the module of a name, in femtoseconds (IEEE 1364-2005, clause 19.8).
    fn unit(&self, name: &[u8]) -> u64
        ensures { result ≡ unit_of name.now (modules_of self.now).list self.now.units.now }
    {
        match self.numbers.find(name) {
            Some(number) => match self.units.get(number) {
                Some(unit) => *unit,
                None => NANOSECOND,
            },
            None => NANOSECOND,
        }
    }

    /// What the delays of the module of a name go by (IEEE 1364-2005, clause 19.8).
    pub fn timing(&self, name: &[u8]) -> Timing
        ensures { result ≡ timing_of (modules_of self.now) name.now }
    {
        Timing {
            unit_fs: self.unit(name),
            step_fs: self.step_fs,
        }
    }

    /// The top: the module of this name, or where none is given the only one that no module instantiates (IEEE 1364-2005, clause 12.1.1).
    /// None where there is no such module. Only want of memory is an error.
    pub fn top(&self, alloc: Global, name: Option<&[u8]>) -> Result<Option<&'a Module>, NoMemory>
        ensures { IfOk result (λ found. module_in found ≡ top_of (modules_of self.now).list (option_copied name.entry)) }
    {
        match name {
            Some(name) => Ok(self.find(name)),
            None => {
                let used = used_modules(alloc, self.list)?;
                Ok(only_unused(self.list, &used))
            }
        }
    }
}
