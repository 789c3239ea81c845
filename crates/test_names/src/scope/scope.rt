//! The scope of a line.

ghost use Rattle.py_syntax.specs.BlockTrees.{view_module};
ghost use Rattle.test_names.specs.Scope.Tables.{AreTables};

use crate::arguments::fits;
use crate::scope::Tables;
use crate::scope::item::parameters_at;
use crate::scope::judge::judged;
use crate::uses::Scope;
use name_table::Names;
use port_io::NoMemory;
use py_syntax::{Argument, Const, Module, Parameter};
use std::alloc::Global;
use test_meaning::rules::{FileRule, is_built_in};

/// What is known around a line of a module.
#[derive(Drop)]
pub struct FileScope<'a> {
    /// The whole file.
    pub whole: &'a Module,
    /// The tables of the file.
    pub tables: &'a Tables,
    /// How many items stand above the line's own.
    pub above: usize,
    /// The names that are the function's own; none outside of functions. Their places don't matter here.
    pub locals: &'a Names,
    ghost are_tables: { AreTables (view_module whole.now) tables.now },
}

impl<'a> FileScope<'a> {
    ghost use Rattle.std.specs.Prelude.{◌≡◌, ◌||◌, false, map, nat_lt, IfOk, is_some, option_copied};
    ghost use Rattle.std.specs.Option.{option_map, option_map_or};
    ghost use Rattle.test_meaning.specs.Rules.File.{factory, fixed_of, function, is_known};
    ghost use Rattle.test_meaning.specs.Rules.Names.{is_among};
    ghost use Rattle.test_meaning.specs.Rules.Rules.{takes};
    ghost use Rattle.test_names.specs.Scope.Around.{around_in, file_in};

    /// Whether a name is the function's own.
    fn has_local(&self, name: &[u8]) -> bool
        ensures { result ≡ is_among name.now (around_in self.now).locals }
    {
        self.locals.find(name).is_some()
    }

    /// Whether the module defines a name, or it is built in.
    fn is_of_file(&self, name: &[u8]) -> bool
        ensures { result ≡ is_known (file_in self.now) name.now }
    {
        self.tables.names.find(name).is_some() || is_built_in(name)
    }

    /// Whether the module has a constant of a name.
    fn has_constant(&self, name: &[u8]) -> bool
        ensures { result ≡ is_some (fixed_of (file_in self.now).constants name.now) }
    {
        self.tables.constants.find(name).is_some()
    }

    /// Whether a name is known: the function's own, one that the module defines, or built in.
    fn knows(&self, name: &[u8]) -> bool
        ensures { result ≡ (is_among name.now (around_in self.now).locals || is_known (file_in self.now) name.now) }
    {
        self.has_local(name) || self.is_of_file(name)
    }

    /// Whether a name has a value: one of the function's own, or a constant of the module.
    fn has_value(&self, name: &[u8]) -> bool
        ensures { result ≡ (is_among name.now (around_in self.now).locals || is_some (fixed_of (file_in self.now).constants name.now)) }
    {
        self.has_local(name) || self.has_constant(name)
    }

    /// Whether the number of an item, if there is one, is that of an item above.
    fn is_above(&self, number: Option<usize>) -> bool
        ensures { result ≡ option_map_or (λ i. nat_lt i self.now.above) number false }
    {
        match number {
            Some(number) => number < self.above,
            None => false,
        }
    }

    /// Whether a constant of a name stands above.
    fn has_constant_above(&self, name: &[u8]) -> bool
        ensures { result ≡ is_some (fixed_of (around_in self.now).above.constants name.now) }
    {
        self.is_above(self.tables.constants.find(name))
    }

    /// Whether a function of a name stands above.
    fn has_function_above(&self, name: &[u8]) -> bool
        ensures { result ≡ is_some (function (around_in self.now).above name.now) }
    {
        self.is_above(self.tables.functions.find(name))
    }

    /// Whether a factory of a name stands above.
    fn has_factory_above(&self, name: &[u8]) -> bool
        ensures { result ≡ is_some (factory (around_in self.now).above name.now) }
    {
        self.is_above(self.tables.factories.find(name))
    }

    /// The parameters of the function of a name, if there is one.
    fn parameters(&self, name: &[u8]) -> Option<&[Parameter]>
        ensures { option_copied result ≡ option_map (λ d. d.parameters) (function (file_in self.now) name.now) }
    {
        let number = self.tables.functions.find(name)?;
        parameters_at(&self.whole.items, number)
    }

    /// Whether there is a function of a name, and arguments fit it. Only want of memory is an error.
    fn accepts(&self, alloc: Global, name: &[u8], arguments: &[Argument]) -> Result<bool, NoMemory>
        ensures { IfOk result (λ yes. yes ≡ takes (map (λ a. a.name) arguments.now) (function (file_in self.now) name.now)) }
    {
        match self.parameters(name) {
            Some(parameters) => fits(alloc, parameters, arguments),
            None => Ok(false),
        }
    }
}

impl<'a> Scope for FileScope<'a> {
    ghost use Rattle.test_names.specs.Scope.Around.{around_in, file_in};

    ghost file = { file_in };

    ghost around = { around_in };

    fn reads(&self, name: &[u8]) -> Option<FileRule> {
        judged(self.knows(name), self.has_value(name))
    }

    fn needs(&self, name: &[u8]) -> Option<FileRule> {
        judged(self.knows(name), true)
    }

    fn takes(&self, constant: &Const) -> Option<FileRule> {
        match constant {
            Const::Named(name) => {
                judged(
                    self.knows(name.bytes()),
                    self.has_constant_above(name.bytes()),
                )
            }
            _ => None,
        }
    }

    fn calls(
        &self,
        alloc: Global,
        function: &[u8],
        arguments: &[Argument],
    ) -> Result<Option<FileRule>, NoMemory> {
        let is_placed = self.accepts(alloc, function, arguments)?;
        Ok(judged(self.knows(function), is_placed))
    }

    fn makes(&self, function: &[u8]) -> Option<FileRule> {
        judged(self.knows(function), self.has_function_above(function))
    }

    fn extends(&self, factory: &[u8]) -> Option<FileRule> {
        judged(self.knows(factory), self.has_factory_above(factory))
    }
}
