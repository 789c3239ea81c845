//! The lines of a module.

use crate::Const;
use port_io::Name;

/// A parameter of a function (the language reference, 8.7).
#[derive(Drop)]
pub struct Parameter {
    pub name: Name,
    /// Its value where a call gives it none.
    pub default: Option<Const>,
}

/// An argument that is given by its name (the language reference, 6.3.4).
#[derive(Drop)]
pub struct Setting {
    pub name: Name,
    pub value: Const,
}

/// A logical line of a module, outside of its functions.
#[derive(Drop)]
pub enum ModuleLine {
    /// `import name`
    Import(Name),
    /// `from package.module import name, ..`: the parts of the module's name, and the names.
    FromImport(Vec<Name>, Vec<Name>),
    /// `name = constant`
    Constant(Name, Const),
    /// `@cocotb.test(option=constant, ..)`
    Test(Vec<Setting>),
    /// `name = TestFactory(function)`
    Factory(Name, Name),
    /// `name.add_option("parameter", [constant, ..])`
    AddOption(Name, Name, Vec<Const>),
    /// `name.generate_tests(prefix="..", postfix="..")`; either may be left out.
    GenerateTests(Name, Option<Name>, Option<Name>),
    /// `async def name(parameter, ..):`, the header of a function
    Function(Name, Vec<Parameter>),
}
