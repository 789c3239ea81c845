//! What is declared so far.

ghost use Rattle.std.specs.Prelude.{◌≡◌, ◌+◌, ◌≤◌, [], IfOk, OnErr, OnOk, length, nat_le, option_map, slice_get};
ghost use Rattle.v_flat.specs.Scope.Found.{ForValue, each};
ghost use Rattle.v_flat.specs.Scope.Limits.{most_parts};
ghost use Rattle.v_flat.specs.Objects.{count_of};
ghost use Rattle.v_flat.specs.Declarations.{find_declared, signals_in};
ghost use Rattle.v_layout.specs.Kept.{counted_signals, named_declared, put_declared};
ghost use Rattle.v_layout.specs.Counted.{KeepsWords};
ghost use Rattle.v_layout.specs.Order.{line_in};

use crate::details::{Declared, Line};
use crate::table::Table;
use port_io::NoMemory;
use std::alloc::Global;
use std::marker::Model;
use v_flat::scope::Found;

/// The most signals that a design may have.
const MOST_SIGNALS: u32 = 65_536;

/// What is declared in an instance, in the order of first declarations, seen as the list of it. Signals are counted as they come.
#[derive(Drop)]
pub struct DeclaredNames {
    /// What is declared of each name.
    table: Table,
    /// How many signals it has; 65,537 stands for all beyond 65,536.
    signals: u32,
}

impl Model for DeclaredNames {
    ghost use Rattle.std.specs.Prelude.{◌≡◌, List};
    ghost use Rattle.v_flat.specs.Declarations.{Declared as declared_record, signals_in};
    ghost use Rattle.v_layout.specs.Kept.{counted_signals};

    ghost Value = { List declared_record };

    ghost view = { λ d. d.table };

    ghost invariant = { λ d. d.signals ≡ counted_signals (signals_in d.table) };
}

impl DeclaredNames {
    /// Nothing is declared.
    pub(crate) fn none(alloc: Global) -> DeclaredNames
        ensures { result ≡ [] }
    {
        DeclaredNames {
            table: Table::none(alloc),
            signals: 0,
        }
    }

    /// What is declared of a name; none where it is not declared.
    pub fn find(&self, name: &[u8]) -> Option<Declared>
        ensures { option_map (named_declared name.now) result ≡ find_declared name.now self.now }
    {
        self.table.find(name)
    }

    /// How many names are declared.
    pub fn len(&self) -> usize
        ensures { result ≡ length self.now }
    {
        self.table.len()
    }

    /// The declared name at a place in the order of first declarations, from 0; none behind the last.
    pub fn get(&self, index: usize) -> Option<Line<'_>>
        ensures { option_map line_in result ≡ slice_get self.now index }
    {
        self.table.get(index)
    }

    /// Whether a design that has `first` signals before these has room for one declaration more.
    pub(crate) fn has_room(&self, first: u32, declared: Declared) -> bool
        ensures { result ≡ nat_le (first + (signals_in self.now + count_of declared.words)) most_parts }
    {
        u64::from(first) + u64::from(self.signals) + declared.signal_count()
            <= u64::from(MOST_SIGNALS)
    }

    /// The count of signals after those of a new name.
    fn more_signals(&self, declared: Declared) -> u32
        ensures { result ≡ counted_signals (signals_in self.now + count_of declared.words) }
    {
        let most = u64::from(MOST_SIGNALS) + 1;
        (u64::from(self.signals) + declared.signal_count()).min(most) as u32
    }

    /// The count of signals with one declaration more.
    fn signals_with(&self, name: &[u8], declared: Declared) -> u32
        requires { KeepsWords (named_declared name.now declared) self.now }
        ensures { result ≡ counted_signals (signals_in (put_declared (named_declared name.now declared) self.now)) }
    {
        match self.table.find(name) {
            Some(_) => self.signals,
            None => self.more_signals(declared),
        }
    }

    /// From now on this is declared of a name, in its place if it has one. After `NoMemory` all is as it was.
    fn put(&mut self, alloc: Global, name: &[u8], declared: Declared) -> Result<(), NoMemory>
        requires { KeepsWords (named_declared name.now declared) self.old }
        ensures ok { OnOk result (self.new ≡ put_declared (named_declared name.now declared) self.old) }
        ensures err { OnErr result (self.new ≡ self.old) }
    {
        let signals = self.signals_with(name, declared);
        self.table.put(alloc, name, declared)?;
        self.signals = signals;
        Ok(())
    }

    /// With what was found of a name in its place. Only want of memory is an error.
    pub(crate) fn with(
        mut self,
        alloc: Global,
        name: &[u8],
        found: Found<Declared>,
    ) -> Result<Found<DeclaredNames>, NoMemory>
        requires { ForValue (λ d. KeepsWords (named_declared name.now d) self) found }
        ensures { IfOk result (λ more. more ≡ each (λ d. put_declared (named_declared name.now d) self) found) }
    {
        match found {
            Found::Sound(declared) => {
                self.put(alloc, name, declared)?;
                Ok(Found::Sound(self))
            }
            Found::Noted(fault, declared) => {
                self.put(alloc, name, declared)?;
                Ok(Found::Noted(fault, self))
            }
            Found::Lost(fault) => Ok(Found::Lost(fault)),
        }
    }
}
