//! The factories so far.

ghost use Rattle.std.specs.Prelude.{length};
ghost use Rattle.test_refusal.specs.Makers.Numbered.{AreNumbers};

use crate::makers::Added;
use name_table::Names;
use port_io::NoMemory;
use py_syntax::{ModuleItem, ModuleLine};
use std::alloc::Global;

/// What some items add to each factory. A name counts, whether or not there is a factory of that name.
#[derive(Drop)]
pub struct Makers {
    numbers: Names,
    added: Vec<Added>,
    ghost are_numbers: { AreNumbers numbers (length added.items) },
}

impl Makers {
    ghost use Rattle.std.specs.Prelude.{◌≡◌, ◌∷◌, [], ◌++◌, ◌<◌, Bool, List, ℕ, Some, None, IfOk, length, option_copied};
    ghost use Rattle.py_syntax.specs.BlockTrees as tree;
    ghost use Rattle.py_syntax.specs.BlockTrees.{view_module_item};
    ghost use Rattle.py_syntax.specs.ModuleTrees.{view_module_line};
    ghost use Rattle.py_syntax.specs.declared.constant.Const.{Const};
    ghost use Rattle.test_meaning.specs.Factory.Product.{Choice};
    ghost use Rattle.name_table.specs.Places.{first_place};
    ghost use Rattle.test_meaning.specs.Rules.Names.{Name};
    ghost use Rattle.test_refusal.specs.Makers.SoFar.{AreAdded, StandsFor, added_in, case_count, has_option, is_generated, with_choice, with_tests};

    /// Nothing is added to any.
    pub fn new(alloc: Global) -> Makers
        ensures { StandsFor [] result }
    {
        Makers {
            numbers: Names::new(alloc),
            added: Vec::new(alloc),
        }
    }

    /// What is added to the factory of a name; none where nothing is.
    fn find(&self, name: &[u8]) -> Option<&Added>
        ensures { option_copied result ≡ added_in self.now name.now }
    {
        let number = self.numbers.find(name)?;
        self.added.get(number)
    }

    /// Whether a factory has an option.
    pub fn has_option(&self, factory: &[u8], option: &[u8]) -> bool
        ensures { result ≡ has_option self.now factory.now option.now }
    {
        match self.find(factory) {
            Some(added) => added.options.find(option).is_some(),
            None => false,
        }
    }

    /// How many cases the options of a factory make, where one above the limit stands for all that are more.
    pub fn case_count(&self, factory: &[u8]) -> usize
        ensures { result ≡ case_count self.now factory.now }
    {
        match self.find(factory) {
            Some(added) => added.case_count,
            None => 1,
        }
    }

    /// Whether the tests of a factory were generated.
    pub fn is_generated(&self, factory: &[u8]) -> bool
        ensures { result ≡ is_generated self.now factory.now }
    {
        match self.find(factory) {
            Some(added) => added.is_generated,
            None => false,
        }
    }

    /// The same with a number for a name that has none, and that number. Only want of memory is an error.
    fn with_name(self, alloc: Global, name: &[u8]) -> Result<(Makers, usize), NoMemory>
        requires { first_place self.numbers name.now ≡ None }
        ensures number { IfOk result (λ r. first_place r.0.numbers name.now ≡ Some r.1) }
        ensures same { IfOk result (λ r. (cs : Name → List Choice) (g : Name → Bool) → AreAdded cs g self → AreAdded cs g r.0) }
    {
        let Makers {
            mut numbers,
            mut added,
        } = self;
        let number = added.len();
        numbers.note(alloc, name, number)?;
        added.push(Added::nothing(alloc))?;
        Ok((Makers { numbers, added }, number))
    }

    /// The same with a number for a name, and that number. Only want of memory is an error.
    fn numbered(self, alloc: Global, name: &[u8]) -> Result<(Makers, usize), NoMemory>
        ensures number { IfOk result (λ r. first_place r.0.numbers name.now ≡ Some r.1) }
        ensures same { IfOk result (λ r. (cs : Name → List Choice) (g : Name → Bool) → AreAdded cs g self → AreAdded cs g r.0) }
    {
        match self.numbers.find(name) {
            Some(number) => Ok((self, number)),
            None => self.with_name(alloc, name),
        }
    }

    /// With an option more of a factory, which has so many values. Only want of memory is an error.
    fn with_option(
        self,
        alloc: Global,
        factory: &[u8],
        option: &[u8],
        value_count: usize,
    ) -> Result<Makers, NoMemory>
        ensures { IfOk result (λ after. (cs : Name → List Choice) (g : Name → Bool) (vs : List Const) → length vs ≡ value_count
            → AreAdded cs g self → AreAdded (with_choice factory.now (record { name = option.now; values = vs }) cs) g after) }
    {
        let (makers, number) = self.numbered(alloc, factory)?;
        let Makers { numbers, mut added } = makers;
        added[number].add(alloc, option, value_count)?;
        Ok(Makers { numbers, added })
    }

    /// With the tests of a factory generated. Only want of memory is an error.
    fn with_tests(self, alloc: Global, factory: &[u8]) -> Result<Makers, NoMemory>
        ensures { IfOk result
            (λ after. (cs : Name → List Choice) (g : Name → Bool) → AreAdded cs g self → AreAdded cs (with_tests factory.now g) after) }
    {
        let (makers, number) = self.numbered(alloc, factory)?;
        let Makers { numbers, mut added } = makers;
        added[number].generate();
        Ok(Makers { numbers, added })
    }

    /// With what a line adds. Only want of memory is an error.
    fn with_line(self, alloc: Global, line: &ModuleLine) -> Result<Makers, NoMemory>
        ensures { IfOk result (λ after. (xs : List tree.ModuleItem) (l : ℕ) → StandsFor xs self
            → StandsFor (xs ++ tree.LineAt l (view_module_line line.now) ∷ []) after) }
    {
        match line {
            ModuleLine::AddOption(factory, option, values) => {
                self.with_option(alloc, factory.bytes(), option.bytes(), values.len())
            }
            ModuleLine::GenerateTests(factory, ..) => self.with_tests(alloc, factory.bytes()),
            _ => Ok(self),
        }
    }

    /// With what the item below adds. Only want of memory is an error.
    pub fn with_item(self, alloc: Global, item: &ModuleItem) -> Result<Makers, NoMemory>
        ensures { IfOk result (λ after. (xs : List tree.ModuleItem) → StandsFor xs self → StandsFor (xs ++ view_module_item item.now ∷ []) after) }
    {
        match item {
            ModuleItem::Line { line, .. } => self.with_line(alloc, line),
            _ => Ok(self),
        }
    }
}
