//! What is known of the items above a line.

use crate::cases::TestedFunction;
use crate::list::factories::with_maker;
use crate::list::functions::{number_behind, settings_at, with_function};
use crate::list::options::with_option;
use crate::list::{AddedOption, Table};
use port_io::NoMemory;
use py_syntax::{ModuleItem, Parameter, Setting};
use std::alloc::Global;
use test_refusal::items::further;

/// What is known of the items above a line.
#[derive(Drop)]
pub(crate) struct Above<'a> {
    /// The first function of each name.
    pub functions: Table<TestedFunction<'a>>,
    /// Of each name the function that the first factory of that name is for.
    pub factories: Table<&'a [u8]>,
    /// The options of each factory. A name counts, whether or not there is a factory of that name.
    pub options: Table<Vec<AddedOption<'a>>>,
    /// How many functions there are.
    pub count: u32,
    /// The options of the decorator that stands directly above.
    pub settings: Option<&'a [Setting]>,
}

impl<'a> Above<'a> {
    ghost use Rattle.std.specs.Prelude.{◌≡◌, ◌∷◌, [], ◌++◌, ℕ, List, IfOk, option_copied};
    ghost use Rattle.py_syntax.specs.BlockTrees as tree;
    ghost use Rattle.py_syntax.specs.BlockTrees.{view_module_item};
    ghost use Rattle.test_file.specs.Cases.Tested.{IsTested};
    ghost use Rattle.test_meaning.specs.Rules.File.{File, file_of, made_by};
    ghost use Rattle.test_file.specs.List.SoFar.{AreOne, IsAbove, function_at};

    /// No item.
    pub(crate) fn nothing(alloc: Global) -> Above<'a>
        ensures { (f : File) → IsAbove f [] result }
    {
        Above {
            functions: Table::new(alloc),
            factories: Table::new(alloc),
            options: Table::new(alloc),
            count: 0,
            settings: None,
        }
    }

    /// A function with this name and these parameters, which is the next.
    fn next(&self, name: &'a [u8], parameters: &'a [Parameter]) -> TestedFunction<'a>
        ensures { (l : ℕ) (b : tree.Block)
            → IsTested (record {
              number = self.now.count;
              line = l;
              name = name.now;
              parameters = parameters.now;
              body = b;
              options = option_copied self.now.settings;
            }) result }
    {
        TestedFunction {
            number: self.count,
            name,
            further: further(parameters),
            settings: self.settings.unwrap_or(&[]),
        }
    }

    /// The function of the item below; none of another item.
    pub(crate) fn function_at(&self, item: &'a ModuleItem) -> Option<TestedFunction<'a>>
        ensures { AreOne (function_at self.now.count (option_copied self.now.settings) (view_module_item item.now)) result }
    {
        match item {
            ModuleItem::Function {
                name,
                parameters,
                ..
            } => Some(self.next(name.bytes(), parameters)),
            _ => None,
        }
    }

    /// The function of the first factory of this name; none where there is no such factory, or no such function.
    pub(crate) fn made_by(&self, factory: &[u8]) -> Option<&TestedFunction<'a>>
        ensures { (f : File) (xs : List tree.ModuleItem) → IsAbove f xs self.now
            → AreOne (made_by (file_of xs) factory.now) (option_copied result) }
    {
        let function = self.factories.find(factory)?;
        self.functions.find(function)
    }

    /// With the item below. Only want of memory is an error.
    pub(crate) fn with_item(
        self,
        alloc: Global,
        item: &'a ModuleItem,
    ) -> Result<Above<'a>, NoMemory>
        ensures { IfOk result (λ after. (f : File) (xs : List tree.ModuleItem) → IsAbove f xs self.entry
            → IsAbove f (xs ++ view_module_item item.now ∷ []) after) }
    {
        let function = self.function_at(item);
        let Above {
            functions,
            factories,
            options,
            count,
            settings: _,
        } = self;
        let functions = with_function(alloc, functions, function)?;
        let factories = with_maker(alloc, factories, item)?;
        let options = with_option(alloc, options, item)?;
        let count = number_behind(count, item)?;
        Ok(Above {
            functions,
            factories,
            options,
            count,
            settings: settings_at(item),
        })
    }
}
