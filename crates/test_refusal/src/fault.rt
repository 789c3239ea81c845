//! The pass over a file.

ghost use Rattle.std.specs.Prelude.{◌≡◌, IfOk};
ghost use Rattle.py_syntax.specs.BlockTrees.{view_module};
ghost use Rattle.test_meaning.specs.Rules.File.{file_of};
ghost use Rattle.test_meaning.specs.Rules.Rules.{first_broken, has_tests, no_tests, refusal};
ghost use Rattle.test_meaning.specs.Rules.Uses.{file_lines};
ghost use Rattle.test_names.specs.Scope.Tables.{AreTables};
ghost use Rattle.test_refusal.specs.Values.Literals.{AreLiteralPlaces};
ghost use Rattle.test_refusal.specs.Pass.{IsStepTo};
ghost use Rattle.test_refusal.specs.Places.{file_of_whole};

use crate::items::made_names;
use crate::step::step;
use crate::values::literal_places;
use crate::{Place, Seen, Step, Whole};
use name_table::Names;
use port_io::NoMemory;
use py_syntax::Module;
use std::alloc::Global;
use test_meaning::rules::{FileRule, Refusal};
use test_names::last_line::last_line;
use test_names::scope::Tables;

/// The first line that breaks a rule; and what stands in the whole file, where there is none. Only want of memory is an error.
fn pass(alloc: Global, whole: &Whole<'_>) -> Result<Step, NoMemory>
    ensures { IfOk result (IsStepTo (file_of_whole whole.now) (view_module whole.now.file.now)
        (first_broken (file_of_whole whole.now) (file_lines (file_of_whole whole.now)))) }
{
    let mut seen = Seen::nothing(alloc);
    for above in 0..whole.file.items.len() {
        let next = step(alloc, &Place::of(whole, above), seen)?;
        match next {
            Step::On(more) => seen = more,
            Step::Refused(refusal) => return Ok(Step::Refused(refusal)),
        }
    }
    Ok(Step::On(seen))
}

/// The refusal of a file that has tests or hasn't, at its last line.
fn no_tests(file: &Module, is_tested: bool) -> Option<Refusal>
    requires { is_tested ≡ has_tests (file_of (view_module file.now)) }
    ensures { result ≡ no_tests (file_of (view_module file.now)) }
{
    if is_tested {
        return None;
    }
    Some(Refusal {
        rule: FileRule::NoTests,
        line: last_line(&file.items),
    })
}

/// The first line that breaks a rule, and the first rule that it breaks; where no line does, NoTests at the last line that is no docstring, if
/// the file has no test. None where the file is right. Only want of memory is an error.
fn fault_of(alloc: Global, whole: &Whole<'_>) -> Result<Option<Refusal>, NoMemory>
    ensures { IfOk result (λ fault. fault ≡ refusal (file_of_whole whole.now)) }
{
    let end = pass(alloc, whole)?;
    match end {
        Step::On(seen) => Ok(no_tests(whole.file, seen.has_tests)),
        Step::Refused(refusal) => Ok(Some(refusal)),
    }
}

/// The same of a file with these tables and these places of its constants' literals.
fn fault_by_tables(
    alloc: Global,
    file: &Module,
    tables: &Tables,
    places: &Names,
) -> Result<Option<Refusal>, NoMemory>
    requires tables { AreTables (view_module file.now) tables.now }
    requires places { AreLiteralPlaces (view_module file.now) places.now }
    ensures { IfOk result (λ fault. fault ≡ refusal (file_of (view_module file.now))) }
{
    let made = made_names(alloc, &file.items)?;
    let no_names = Names::new(alloc);
    let whole = Whole {
        file,
        tables,
        places,
        made: &made,
        no_names: &no_names,
    };
    fault_of(alloc, &whole)
}

/// The first line of a tests file that breaks a rule, and the first rule that it breaks; where no line does, NoTests at the last line that is no
/// docstring, if the file has no test. None where the file is right. A module that no text has may be given too. Only want of memory is an error.
pub fn first_fault(alloc: Global, file: &Module) -> Result<Option<Refusal>, NoMemory>
    ensures { IfOk result (λ fault. fault ≡ refusal (file_of (view_module file.now))) }
{
    let tables = Tables::of(alloc, file)?;
    let places = literal_places(alloc, &file.items)?;
    fault_by_tables(alloc, file, &tables, &places)
}
