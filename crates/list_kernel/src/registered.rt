//! The registered keys.
ghost use Rattle.std.specs.Prelude.{◌≡◌, ◌<◌, ◌++◌, ◌∷◌, [], false, IfOk, IsTrue, OnErr, OnOk};
ghost use Rattle.gpi.specs.Keys.{has, no_keys, is_time, least, fired_of, raised, IsWith, IsWithout};
ghost use Rattle.gpi.specs.declared.types.Key.TheVariants.{At, NextStep};
ghost use Rattle.gpi.specs.Events.{edge_keys, if_has};
ghost use Rattle.gpi.specs.Content.{no_counts};
ghost use Rattle.callback_book.specs.Books.{flag_of, if_flag, AddsTime, DropsTime, IsPlaced};
ghost use Rattle.kernel_base.specs.TimeSets.{times_of};
ghost use Rattle.list_kernel.specs.Registered.{keys_of, counts_of, signals_of, Fires};

use callback_book::Book;
use gpi::{Counts, Fired, Key, Report};
use kernel_base::Times;
use port_io::NoMemory;
use std::alloc::Global;

/// The registered keys: the times beside a book that has the others and the counts.
#[derive(Drop)]
pub struct Registered {
    times: Times,
    book: Book,
}

impl Registered {
    /// No keys of no signals. It takes no memory.
    pub fn of_none(alloc: Global) -> Registered
        ensures keys { keys_of result ≡ no_keys }
        ensures counts { counts_of result ≡ no_counts }
    {
        Registered {
            times: Times::new(alloc),
            book: Book::of_none(alloc),
        }
    }

    /// No keys of so many signals, with the counts 0. Its one error is the want of memory.
    pub fn new(alloc: Global, signals: u32) -> Result<Registered, NoMemory>
        ensures keys { IfOk result (λ all. keys_of all ≡ no_keys) }
        ensures counts { IfOk result (λ all. counts_of all ≡ no_counts) }
        ensures signals { IfOk result (λ all. signals_of all ≡ signals) }
    {
        let book = Book::new(alloc, signals)?;
        Ok(Registered {
            times: Times::new(alloc),
            book,
        })
    }

    /// Whether the key, which is no time, is registered.
    pub fn has(&self, key: Key) -> bool
        requires placed { IsPlaced (signals_of self.now) key }
        requires other { is_time key ≡ false }
        ensures { result ≡ flag_of self.now.book key }
    {
        self.book.has(key)
    }

    /// The least registered time, in steps.
    pub fn least_time(&self) -> Option<u64>
        ensures { result ≡ least (keys_of self.now).times }
    {
        self.times.least()
    }

    /// How many keys were registered, removed and fired.
    pub fn counts(&self) -> Counts
        ensures { result ≡ counts_of self.now }
    {
        self.book.counts()
    }

    /// Registers the key, and counts it. Its one error is the want of memory, for a time alone, and then nothing has changed.
    pub fn add(&mut self, key: Key) -> Result<(), NoMemory>
        requires { IsPlaced (signals_of self.old) key }
        ensures is { OnOk result (IsWith key (keys_of self.old) (keys_of self.new)) }
        ensures counts { OnOk result (counts_of self.new ≡ record (counts_of self.old) { primed = raised (counts_of self.old).primed }) }
        ensures kept { OnErr result ((keys_of self.new ≡ keys_of self.old) × (counts_of self.new ≡ counts_of self.old)) }
        ensures cause { OnErr result (IsTrue (is_time key)) }
        ensures signals { signals_of self.new ≡ signals_of self.old }
    {
        add_time(&mut self.times, key)?;
        self.book.add(key);
        Ok(())
    }

    /// Removes the key, and counts it.
    pub fn remove(&mut self, key: Key)
        requires { IsPlaced (signals_of self.old) key }
        ensures is { IsWithout (key ∷ []) (keys_of self.old) (keys_of self.new) }
        ensures counts { counts_of self.new ≡ record (counts_of self.old) { removed = raised (counts_of self.old).removed } }
        ensures signals { signals_of self.new ≡ signals_of self.old }
    {
        drop_time(&mut self.times, key);
        self.book.remove(key);
    }

    /// Fires the key, which is no time, if it is registered, and tells whether it was.
    pub fn take(&mut self, key: Key) -> bool
        requires placed { IsPlaced (signals_of self.old) key }
        requires other { is_time key ≡ false }
        ensures there { result ≡ flag_of self.old.book key }
        ensures fires { Fires (if_flag key self.old.book) self.old self.new }
        ensures kept { result ≡ false → self.new ≡ self.old }
    {
        self.book.take(key)
    }

    /// Fires those of the edge keys of a change that are registered, and answers them in order.
    pub fn change(&mut self, report: &Report) -> Fired
        requires { report.now.sig.0 < signals_of self.old }
        ensures fired { result ≡ fired_of (edge_keys report.now (keys_of self.old)) }
        ensures is { Fires (edge_keys report.now (keys_of self.old)) self.old self.new }
    {
        self.book.change(report)
    }

    /// Fires the keys of a time step that begins at this time, where they are registered, and answers them in order.
    pub fn begin_step(&mut self, time: u64) -> Fired
        ensures fired { result ≡ fired_of (if_has NextStep (keys_of self.old) ++ if_has (At time) (keys_of self.old)) }
        ensures is { Fires (if_has NextStep (keys_of self.old) ++ if_has (At time) (keys_of self.old)) self.old self.new }
    {
        let there = self.times.take(time);
        self.book.begin_step(time, there)
    }
}

/// A key that is a time is put among these. Its one error is the want of memory, and then nothing has changed.
fn add_time(times: &mut Times, key: Key) -> Result<(), NoMemory>
    ensures is { OnOk result (AddsTime key (times_of times.old) (times_of times.new)) }
    ensures kept { OnErr result (times_of times.new ≡ times_of times.old) }
    ensures cause { OnErr result (IsTrue (is_time key)) }
{
    match key {
        Key::At(time) => times.add(time),
        _ => Ok(()),
    }
}

/// A key that is a time is taken out of these.
fn drop_time(times: &mut Times, key: Key)
    ensures { DropsTime key (times_of times.old) (times_of times.new) }
{
    match key {
        Key::At(time) => {
            times.take(time);
        }
        _ => {}
    }
}
