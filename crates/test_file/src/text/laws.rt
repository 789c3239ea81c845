//! Laws of the definition of tests files.

ghost use Rattle.std.specs.Prelude.{◌≡◌, true, List, ℕ};
ghost use Rattle.py_syntax.specs.BlockTrees.{ModuleItem};
ghost use Rattle.py_syntax.specs.Line.{Line};
ghost use Rattle.py_syntax.specs.Modules.{SpellsModule};
ghost use Rattle.test_meaning.specs.Body.BodyTrees.{TestFile};
ghost use Rattle.test_meaning.specs.Body.Sound.{is_sound};
ghost use Rattle.test_file.specs.Sound.Starts.{are_right_starts};
ghost use Rattle.test_file.specs.declared.text.fault.TestsRefusal.{TestsRefusal};
ghost use Rattle.test_file.specs.Text.Tests.{HasAnswer, IsRefused, IsTests};

/// Where logical lines spell a module, each start of a clock in it has such arguments as a text may give it: `cycles`, then `start_high`,
/// each of which may be left out or be given by its name (cocotb 1.8, `cocotb.clock.Clock.start`).
pub fn starts_are_right()
    ensures { (items : List ModuleItem) (lines : List Line) → SpellsModule items lines → are_right_starts items ≡ true }
{}

/// What a text stands for is sound: each call in it names a function of the file with one operand for each of its parameters, each test
/// has a value for each further parameter of its function, and there are at most 65,536 tests.
pub fn tests_are_sound()
    ensures { (text : List ℕ) (file : TestFile) → IsTests text file → is_sound file ≡ true }
{}

/// A text has one answer: it stands for a tests file or is refused (`some`) and not both (`apart`), two files that it stands for are one
/// (`file`), and two refusals of it are one (`refusal`).
pub fn one_answer()
    ensures some { (text : List ℕ) → HasAnswer text }
    ensures file { (text : List ℕ) (a b : TestFile) → IsTests text a → IsTests text b → a ≡ b }
    ensures refusal { (text : List ℕ) (a b : TestsRefusal) → IsRefused a text → IsRefused b text → a ≡ b }
    ensures apart { (text : List ℕ) (file : TestFile) (refusal : TestsRefusal) → IsTests text file → IsRefused refusal text → ⊥ }
{}
