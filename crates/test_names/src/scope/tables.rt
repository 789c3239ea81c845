//! Where the names of a module are defined.

ghost use Rattle.std.specs.Prelude.{IfOk};
ghost use Rattle.py_syntax.specs.BlockTrees.{view_module};

use crate::definitions::{Kind, name_table, table};
use name_table::Names;
use port_io::NoMemory;
use py_syntax::Module;
use std::alloc::Global;

/// Where the names of a module are defined: of each name the number, from 0, of the first item that defines it.
#[derive(Drop)]
pub struct Tables {
    /// As whatever, an import too.
    pub names: Names,
    /// As a constant.
    pub constants: Names,
    /// As a function.
    pub functions: Names,
    /// As a factory.
    pub factories: Names,
}

impl Tables {
    ghost use Rattle.test_names.specs.Scope.Tables.{AreTables};

    /// The tables of a module. Only want of memory is an error.
    pub fn of(alloc: Global, file: &Module) -> Result<Tables, NoMemory>
        ensures { IfOk result (λ tables. AreTables (view_module file.now) tables) }
    {
        Ok(Tables {
            names: name_table(alloc, &file.items)?,
            constants: table(alloc, Kind::Constant, &file.items)?,
            functions: table(alloc, Kind::Function, &file.items)?,
            factories: table(alloc, Kind::Factory, &file.items)?,
        })
    }
}
