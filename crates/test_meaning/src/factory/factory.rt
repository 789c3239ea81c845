//! Factories and their cases.

ghost use Rattle.std.specs.Prelude.{◌≡◌, ◌<◌, ◌≤◌, ◌*◌, ◌-◌, ◌^◌, length, map, min, slice_get, slice_index_or, Some, IfOk};
ghost use Rattle.test_meaning.specs.Factory.Product.{case_count, case_limit, product};
ghost use Rattle.test_meaning.specs.Factory.Options.{choice, choices, chosen};
ghost use Rattle.py_syntax.specs.declared.constant.Const.TheVariants.{Absent};

use crate::factory::copied;
use port_io::{Name, NoMemory};
use py_syntax::Const;
use std::alloc::Global;
use std::marker::Model;

/// The options of a factory, each with the values that it takes, in the order in which they were added. Contracts see them as a list.
#[derive(Drop)]
pub struct Factory {
    options: Vec<(Name, Vec<Const>)>,
}

impl Model for Factory {
    ghost use Rattle.std.specs.Prelude.{List, ◌≤◌};
    ghost use Rattle.test_meaning.specs.Factory.Product.{Choice, case_count, case_limit};
    ghost use Rattle.test_meaning.specs.Factory.Options.{choices};

    ghost Value = { List Choice };

    ghost view = { λ factory. choices factory.options.items };

    ghost invariant = { λ factory. case_count (choices factory.options.items) ≤ case_limit };
}

/// A case of a factory.
#[derive(Drop)]
pub struct Case {
    /// The name of each option with its value in this case, in the order of the options.
    pub values: Vec<(Name, Const)>,
}

/// How many values an option has.
fn value_count(option: &(Name, Vec<Const>)) -> usize
    ensures { result ≡ length (choice option.now).values }
{
    option.1.len()
}

/// An option's name with its value of this number.
fn chosen_value(
    alloc: Global,
    option: &(Name, Vec<Const>),
    number: usize,
) -> Result<(Name, Const), NoMemory>
    requires { number < length (choice option.now).values }
    ensures { IfOk result (λ pair. chosen pair ≡ record { name = option.now.0; value = slice_index_or (choice option.now).values number Absent }) }
{
    let value = copied(alloc, &option.1[number])?;
    Ok((Name::of(alloc, option.0.bytes())?, value))
}

impl Factory {
    /// A factory with these options: their names, and the values of each. It takes no memory.
    pub fn new(options: Vec<(Name, Vec<Const>)>) -> Factory
        requires { case_count (choices options.items) ≤ case_limit }
        ensures { result ≡ choices options.items }
    {
        Factory { options }
    }

    /// How many cases there are: the product of the numbers of values, which is 1 where there is no option. It takes no memory.
    pub fn case_count(&self) -> u32
        ensures { result ≡ case_count self.now }
    {
        let mut count = 1usize;
        for option in &self.options {
            count = count.saturating_mul(value_count(option));
        }
        count as u32
    }

    /// The case of this number, from 0, in which the last option changes fastest. Only want of memory is an error.
    pub fn case(&self, alloc: Global, i: u32) -> Result<Case, NoMemory>
        requires { i < case_count self.now }
        ensures { IfOk result (λ case. slice_get (product self.now) i ≡ Some (map chosen case.values.items)) }
    {
        let mut values = Vec::new(alloc);
        let mut rest = self.case_count() as usize;
        let mut number = i as usize;
        for option in &self.options {
            rest /= value_count(option);
            values.push(chosen_value(alloc, option, number / rest)?)?;
            number %= rest;
        }
        Ok(Case { values })
    }
}
