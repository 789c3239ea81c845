//! Which parameters arguments are for.

ghost use Rattle.std.specs.Prelude.{◌≡◌, ◌<◌, ◌≤◌, ◌||◌, ◌&&◌, ◌==◌, ℕ, List, nat_lt, not, false, length, drop, map, replicate, slice_index_or, IfOk};
ghost use Rattle.py_syntax.specs.ModuleForms.{has_default};
ghost use Rattle.test_names.specs.Arguments.Marks.{AreMarks, AreNumbers, are_all_fresh};
ghost use Rattle.test_meaning.specs.Rules.Rules.{are_given, fits, parameter_places, place_of};

use name_table::Names;
use port_io::NoMemory;
use py_syntax::{Argument, Parameter};
use std::alloc::Global;

/// Whether both hold.
fn both(one: bool, other: bool) -> bool
    ensures { result ≡ (one && other) }
{
    one && other
}

/// Whether a parameter is given or has a default.
fn has_value(given: bool, parameter: &Parameter) -> bool
    ensures { result ≡ (given || has_default parameter.now.default) }
{
    given || parameter.default.is_some()
}

/// The number of the first parameter of each name. Only want of memory is an error.
pub fn numbers(alloc: Global, parameters: &[Parameter]) -> Result<Names, NoMemory>
    ensures { IfOk result (λ names. AreNumbers parameters.now names) }
{
    let mut names = Names::new(alloc);
    for (number, parameter) in parameters.iter().enumerate() {
        names.note(alloc, parameter.name.bytes(), number)?;
    }
    Ok(names)
}

/// The number of the parameter that an argument of this number is for, both from 0, or how many there are, where its name is none of theirs.
pub fn place_of(
    parameters: &[Parameter],
    names: &Names,
    number: usize,
    argument: &Argument,
) -> usize
    requires { AreNumbers parameters.now names.now }
    ensures { result ≡ place_of parameters.now number argument.now.name }
{
    match &argument.name {
        Some(name) => names.find(name.bytes()).unwrap_or(parameters.len()),
        None => number,
    }
}

/// Marks a parameter, and answers whether it is one and had no mark.
pub fn mark(given: &mut [bool], place: usize) -> bool
    ensures length { length given.new ≡ length given.old }
    ensures fresh { result ≡ (nat_lt place (length given.old) && not (slice_index_or given.old place false)) }
    ensures marked { (j : ℕ) → j < length given.old → slice_index_or given.new j false ≡ (place == j || slice_index_or given.old j false) }
{
    if place >= given.len() {
        return false;
    }
    let fresh = !given[place];
    given[place] = true;
    fresh
}

/// Marks the parameters that the arguments are for, and answers whether each argument is for a parameter, and no two are for one.
fn mark_all(
    parameters: &[Parameter],
    names: &Names,
    given: &mut [bool],
    arguments: &[Argument],
) -> bool
    requires names { AreNumbers parameters.now names.now }
    requires unmarked { given.old ≡ replicate (length parameters.now) false }
    ensures fresh { result ≡ are_all_fresh (length parameters.now) (parameter_places parameters.now 0 (map (λ a. a.name) arguments.now)) }
    ensures marks { AreMarks (length parameters.now) (parameter_places parameters.now 0 (map (λ a. a.name) arguments.now)) given.new }
{
    let mut number = arguments.len();
    let mut all_fresh = true;
    'back: while number > 0 {
        number -= 1;
        let place = place_of(parameters, names, number, &arguments[number]);
        let fresh = mark(given, place);
        all_fresh = both(fresh, all_fresh);
    }
    all_fresh
}

/// Whether each parameter is marked or has a default.
fn are_given(parameters: &[Parameter], given: &[bool]) -> bool
    requires { length given.now ≡ length parameters.now }
    ensures { (ks : List ℕ) → AreMarks (length parameters.now) ks given.now → result ≡ are_given ks 0 parameters.now }
{
    let mut number = parameters.len();
    let mut all_given = true;
    'back: while number > 0 {
        number -= 1;
        let value_is_there = has_value(given[number], &parameters[number]);
        all_given = both(value_is_there, all_given);
    }
    all_given
}

/// Whether the arguments of a call fit the parameters of a function: each is for a parameter, no two are for one, and each parameter without
/// a default is given (the language reference, 6.3.4). Only want of memory is an error.
pub fn fits(
    alloc: Global,
    parameters: &[Parameter],
    arguments: &[Argument],
) -> Result<bool, NoMemory>
    ensures { IfOk result (λ yes. yes ≡ fits parameters.now (parameter_places parameters.now 0 (map (λ a. a.name) arguments.now))) }
{
    let names = numbers(alloc, parameters)?;
    let mut given = vec![in alloc; false; parameters.len()]?;
    let all_fresh = mark_all(parameters, &names, &mut given, arguments);
    let all_given = are_given(parameters, &given);
    Ok(both(all_fresh, all_given))
}
