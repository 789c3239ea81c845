//! Values by name.

ghost use Rattle.std.specs.Prelude.{length};
ghost use Rattle.test_refusal.specs.Makers.Numbered.{AreNumbers};

use name_table::Names;
use port_io::NoMemory;
use std::alloc::Global;

/// Values by name.
#[derive(Drop)]
pub(crate) struct Table<T> {
    numbers: Names,
    values: Vec<T>,
    ghost are_numbers: { AreNumbers numbers (length values.items) },
}

impl<T: Drop> Table<T> {
    ghost use Rattle.std.specs.Prelude.{◌≡◌, Some, None, IfOk, option_copied};
    ghost use Rattle.name_table.specs.Places.{first_place};
    ghost use Rattle.test_meaning.specs.Rules.Names.{Name};
    ghost use Rattle.test_file.specs.List.Tables.{value_in, with_value};

    /// No name has a value.
    pub(crate) fn new(alloc: Global) -> Table<T>
        ensures { (n : Name) → value_in result n ≡ None }
    {
        Table {
            numbers: Names::new(alloc),
            values: Vec::new(alloc),
        }
    }

    /// The value of a name; none where it has none.
    pub(crate) fn find(&self, name: &[u8]) -> Option<&T>
        ensures { option_copied result ≡ value_in self.now name.now }
    {
        let number = self.numbers.find(name)?;
        self.values.get(number)
    }

    /// The same with this value for a name that has none, and its number. Only want of memory is an error.
    fn with_name(self, alloc: Global, name: &[u8], value: T) -> Result<(Table<T>, usize), NoMemory>
        requires { first_place self.numbers name.now ≡ None }
        ensures number { IfOk result (λ r. first_place r.0.numbers name.now ≡ Some r.1) }
        ensures values { IfOk result (λ r. (n : Name) → value_in r.0 n ≡ with_value name.now value (value_in self) n) }
    {
        let Table {
            mut numbers,
            mut values,
        } = self;
        let number = values.len();
        numbers.note(alloc, name, number)?;
        values.push(value)?;
        Ok((Table { numbers, values }, number))
    }

    /// The same with this value for a name, unless it has one, and its number. Only want of memory is an error.
    fn numbered(self, alloc: Global, name: &[u8], value: T) -> Result<(Table<T>, usize), NoMemory>
        ensures number { IfOk result (λ r. first_place r.0.numbers name.now ≡ Some r.1) }
        ensures values { IfOk result (λ r. (n : Name) → value_in r.0 n ≡ with_value name.now value (value_in self) n) }
    {
        match self.numbers.find(name) {
            Some(number) => Ok((self, number)),
            None => self.with_name(alloc, name, value),
        }
    }

    /// The same with this value for a name, unless it has one. Only want of memory is an error.
    pub(crate) fn with(self, alloc: Global, name: &[u8], value: T) -> Result<Table<T>, NoMemory>
        ensures { IfOk result (λ after. (n : Name) → value_in after n ≡ with_value name.now value (value_in self) n) }
    {
        let (table, _) = self.numbered(alloc, name, value)?;
        Ok(table)
    }
}

impl<T: Drop> Table<Vec<T>> {
    ghost use Rattle.std.specs.Prelude.{◌≡◌, ◌++◌, IfOk};
    ghost use Rattle.std.specs.Str.{bytes_eq};
    ghost use Rattle.test_meaning.specs.Rules.Names.{Name, only_if};
    ghost use Rattle.test_file.specs.List.Tables.{list_in};

    /// The values of a name, in the order in which they were added.
    pub(crate) fn list(&self, name: &[u8]) -> &[T]
        ensures { result.now ≡ list_in self.now name.now }
    {
        match self.find(name) {
            Some(values) => values,
            None => &[],
        }
    }

    /// The same with one value more of a name. Only want of memory is an error.
    pub(crate) fn with_more(
        self,
        alloc: Global,
        name: &[u8],
        value: T,
    ) -> Result<Table<Vec<T>>, NoMemory>
        ensures { IfOk result (λ after. (n : Name) → list_in after n ≡ list_in self n ++ only_if (bytes_eq n name.now) value) }
    {
        let (table, number) = self.numbered(alloc, name, Vec::new(alloc))?;
        let Table {
            numbers,
            mut values,
        } = table;
        values[number].push(value)?;
        Ok(Table { numbers, values })
    }
}
