//! What is added to one factory.

ghost use Rattle.std.specs.Prelude.{Bool, List};

use crate::makers::cut;
use name_table::Names;
use port_io::NoMemory;
use std::alloc::Global;

/// What some items add to one factory.
#[derive(Drop)]
pub struct Added {
    /// The names of its options. Their places don't matter.
    pub options: Names,
    /// How many cases its options make, where one above the limit stands for all that are more.
    pub case_count: usize,
    /// Whether its tests were generated.
    pub is_generated: bool,
}

impl Added {
    ghost use Rattle.std.specs.Prelude.{◌≡◌, ◌∷◌, [], ◌++◌, Bool, false, true, List, length, OnOk, OnErr};
    ghost use Rattle.py_syntax.specs.declared.constant.Const.{Const};
    ghost use Rattle.test_meaning.specs.Factory.Product.{Choice};
    ghost use Rattle.test_refusal.specs.Makers.SoFar.{IsAdded};

    /// Nothing: there is no option, and so one case.
    pub fn nothing(alloc: Global) -> Added
        ensures { IsAdded [] false result }
    {
        Added {
            options: Names::new(alloc),
            case_count: 1,
            is_generated: false,
        }
    }

    /// Adds an option with so many values. Only want of memory is an error; then nothing was added.
    pub fn add(&mut self, alloc: Global, option: &[u8], value_count: usize) -> Result<(), NoMemory>
        ensures ok { OnOk result ((cs : List Choice) (g : Bool) (vs : List Const) → length vs ≡ value_count
            → IsAdded cs g self.old → IsAdded (cs ++ record { name = option.now; values = vs } ∷ []) g self.new) }
        ensures err { OnErr result (self.new ≡ self.old) }
    {
        self.options.note(alloc, option, 0)?;
        self.case_count = cut(self.case_count.saturating_mul(value_count));
        Ok(())
    }

    /// Notes that the tests are generated.
    pub fn generate(&mut self)
        ensures { (cs : List Choice) (g : Bool) → IsAdded cs g self.old → IsAdded cs true self.new }
    {
        self.is_generated = true;
    }
}
