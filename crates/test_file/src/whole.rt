//! What a module stands for.

ghost use Rattle.std.specs.Prelude.{◌≡◌, true, None, IfOk};
ghost use Rattle.py_syntax.specs.BlockTrees.{view_module};
ghost use Rattle.test_meaning.specs.Body.Sound.{is_sound};
ghost use Rattle.test_meaning.specs.Body.Views.{view_file};
ghost use Rattle.test_meaning.specs.Check.{meaning};
ghost use Rattle.test_meaning.specs.Rules.File.{file_of};
ghost use Rattle.test_meaning.specs.Rules.Rules.{refusal};
ghost use Rattle.test_file.specs.Sound.Starts.{are_right_starts};
ghost use Rattle.test_file.specs.Checks.{Checks};

use crate::FileFault;
use crate::list::tests;
use port_io::NoMemory;
use py_syntax::Module;
use std::alloc::Global;
use test_functions::functions;
use test_meaning::body::TestFile;
use test_refusal::first_fault;

/// What a file stands for that breaks no rule. Only want of memory is an error.
fn meaning(alloc: Global, file: &Module) -> Result<TestFile, NoMemory>
    requires { refusal (file_of (view_module file.now)) ≡ None }
    ensures { IfOk result (λ made. view_file made ≡ meaning (file_of (view_module file.now))) }
{
    let functions = functions(alloc, file)?;
    let cases = tests(alloc, file)?;
    Ok(TestFile { functions, cases })
}

/// The functions and the tests that a tests file stands for (cocotb 1.8); or the first line that breaks a rule, and the first rule that it breaks.
/// A file without a test is refused at its last line that is no docstring, or at line 1. A module that no text has may be given too. `OutOfMemory`
/// says nothing of the file. The module is given up.
pub fn check(alloc: Global, file: Module) -> Result<TestFile, FileFault>
    ensures checks { Checks (view_module file) result }
    // Only a clock that is started with other arguments than a text may give it makes it unsound.
    ensures sound { are_right_starts (view_module file) ≡ true → IfOk result (λ made. is_sound (view_file made) ≡ true) }
{
    match first_fault(alloc, &file) {
        Ok(None) => match meaning(alloc, &file) {
            Ok(made) => Ok(made),
            Err(_) => Err(FileFault::OutOfMemory),
        },
        Ok(Some(refusal)) => Err(FileFault::Rule(refusal.rule, refusal.line.0)),
        Err(_) => Err(FileFault::OutOfMemory),
    }
}
