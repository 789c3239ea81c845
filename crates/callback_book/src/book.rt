//! The registered keys, and the counts.
ghost use Rattle.std.specs.Prelude.{◌≡◌, ℕ, ◌<◌, ◌++◌, ◌∷◌, [], List, false, length, IfOk, replicate, if◌then◌else◌};
ghost use Rattle.gpi.specs.Keys.{has, holds, no_keys, is_time, same_key, among, fired_of, raised, raised_by, IsWith, IsWithout};
ghost use Rattle.gpi.specs.declared.types.Key.{Key as AnyKey};
ghost use Rattle.gpi.specs.declared.types.Key.TheVariants.{At, Change, NextStep};
ghost use Rattle.gpi.specs.Events.{edge_keys, if_has};
ghost use Rattle.gpi.specs.Content.{no_counts};
ghost use Rattle.kernel_base.specs.TimeSets.{IsWithoutTime};
ghost use Rattle.callback_book.specs.Books.{
  flag_of,
  keys_with,
  counts_of,
  signals_of,
  no_watch,
  IsPlaced,
  AddsTime,
  DropsTime,
  option_list,
  if_flag,
  if_there,
  level_part,
  Fires,
};

use four_value::Digit;
use gpi::{Counts, Fired, Key, Report};
use kernel_base::low_digit;
use port_io::NoMemory;
use std::alloc::{AllocError, Global};

/// Which keys of a signal are registered.
#[derive(Clone, Copy)]
pub struct Watch {
    rise: bool,
    fall: bool,
    change: bool,
}

/// The registered keys of a simulator but for the times, and how many keys were registered, removed and fired, times among them.
///
/// Which times are registered its user knows, and tells where it counts: contracts see the keys as a set, whatever the times are (`keys_with`), the counts
/// (`counts_of`), and of how many signals it holds keys (`signals_of`). Only [`new`](Book::new) takes memory.
#[derive(Drop)]
pub struct Book {
    watches: Vec<Watch>,
    read_write: bool,
    read_only: bool,
    next_step: bool,
    counts: Counts,
}

/// Watches of so many signals, none of them set.
fn unwatched(alloc: Global, signals: usize) -> Result<Vec<Watch>, AllocError>
    ensures { IfOk result (λ watches. watches.items ≡ replicate signals no_watch) }
{
    let mut watches = Vec::new(alloc);
    let mut at = 0;
    while at < signals {
        watches.push(Watch {
            rise: false,
            fall: false,
            change: false,
        })?;
        at += 1;
    }
    Ok(watches)
}

impl Book {
    /// A book of no signals. It takes no memory.
    pub fn of_none(alloc: Global) -> Book
        ensures keys { keys_with [] result ≡ no_keys }
        ensures counts { counts_of result ≡ no_counts }
    {
        Book {
            watches: Vec::new(alloc),
            read_write: false,
            read_only: false,
            next_step: false,
            counts: Counts {
                primed: 0,
                removed: 0,
                fired: 0,
            },
        }
    }

    /// A book of so many signals, in which nothing is registered, with the counts 0. Its one error is the want of memory.
    pub fn new(alloc: Global, signals: u32) -> Result<Book, NoMemory>
        ensures keys { IfOk result (λ book. keys_with [] book ≡ no_keys) }
        ensures counts { IfOk result (λ book. counts_of book ≡ no_counts) }
        ensures signals { IfOk result (λ book. signals_of book ≡ signals) }
    {
        let watches = unwatched(alloc, signals as usize)?;
        Ok(Book {
            watches,
            read_write: false,
            read_only: false,
            next_step: false,
            counts: Counts {
                primed: 0,
                removed: 0,
                fired: 0,
            },
        })
    }

    /// Whether the key, which is no time, is registered.
    pub fn has(&self, key: Key) -> bool
        requires placed { IsPlaced (signals_of self.now) key }
        requires other { is_time key ≡ false }
        ensures { result ≡ flag_of self.now key }
    {
        match key {
            Key::At(_) => false,
            Key::Rise(sig) => self.watches[sig.0 as usize].rise,
            Key::Fall(sig) => self.watches[sig.0 as usize].fall,
            Key::Change(sig) => self.watches[sig.0 as usize].change,
            Key::ReadWrite => self.read_write,
            Key::ReadOnly => self.read_only,
            Key::NextStep => self.next_step,
        }
    }

    /// How many keys were registered, removed and fired. A count that has reached 2^64 - 1 stays there.
    pub fn counts(&self) -> Counts
        ensures { result ≡ counts_of self.now }
    {
        self.counts
    }

    /// A key that is no time is registered, or isn't any more.
    fn set(&mut self, key: Key, on: bool)
        requires placed { IsPlaced (signals_of self.old) key }
        requires other { is_time key ≡ false }
        ensures is { (k : AnyKey) → flag_of self.new k ≡ (if same_key k key then on else flag_of self.old k) }
        ensures counts { counts_of self.new ≡ counts_of self.old }
        ensures signals { signals_of self.new ≡ signals_of self.old }
    {
        match key {
            Key::At(_) => {}
            Key::Rise(sig) => self.watches[sig.0 as usize].rise = on,
            Key::Fall(sig) => self.watches[sig.0 as usize].fall = on,
            Key::Change(sig) => self.watches[sig.0 as usize].change = on,
            Key::ReadWrite => self.read_write = on,
            Key::ReadOnly => self.read_only = on,
            Key::NextStep => self.next_step = on,
        }
    }

    /// A key is registered, or isn't any more. Of a time nothing is noted.
    fn note(&mut self, key: Key, on: bool)
        requires { IsPlaced (signals_of self.old) key }
        ensures is { (k : AnyKey) → is_time k ≡ false → flag_of self.new k ≡ (if same_key k key then on else flag_of self.old k) }
        ensures counts { counts_of self.new ≡ counts_of self.old }
        ensures signals { signals_of self.new ≡ signals_of self.old }
    {
        match key {
            Key::At(_) => {}
            _ => self.set(key, on),
        }
    }

    /// Registers the key, and counts it; a time is counted alone. It takes no memory.
    pub fn add(&mut self, key: Key)
        requires { IsPlaced (signals_of self.old) key }
        ensures is { (ts us : List ℕ) → AddsTime key ts us → IsWith key (keys_with ts self.old) (keys_with us self.new) }
        ensures counts { counts_of self.new ≡ record (counts_of self.old) { primed = raised (counts_of self.old).primed } }
        ensures signals { signals_of self.new ≡ signals_of self.old }
    {
        self.note(key, true);
        self.counts.primed = self.counts.primed.saturating_add(1);
    }

    /// Removes the key, and counts it; a time is counted alone.
    pub fn remove(&mut self, key: Key)
        requires { IsPlaced (signals_of self.old) key }
        ensures is { (ts us : List ℕ) → DropsTime key ts us → IsWithout (key ∷ []) (keys_with ts self.old) (keys_with us self.new) }
        ensures counts { counts_of self.new ≡ record (counts_of self.old) { removed = raised (counts_of self.old).removed } }
        ensures signals { signals_of self.new ≡ signals_of self.old }
    {
        self.note(key, false);
        self.counts.removed = self.counts.removed.saturating_add(1);
    }

    /// Fires the key, which is no time, if it is registered, and tells whether it was.
    pub fn take(&mut self, key: Key) -> bool
        requires placed { IsPlaced (signals_of self.old) key }
        requires other { is_time key ≡ false }
        ensures there { result ≡ flag_of self.old key }
        ensures fires { (ts : List ℕ) → Fires (if_flag key self.old) ts self.old ts self.new }
        ensures kept { result ≡ false → self.new ≡ self.old }
    {
        if !self.has(key) {
            return false;
        }
        self.note(key, false);
        self.counts.fired = self.counts.fired.saturating_add(1);
        true
    }

    /// Fires the key, which is no time, if it is registered, and answers it then.
    fn taken(&mut self, key: Key) -> Option<Key>
        requires placed { IsPlaced (signals_of self.old) key }
        requires other { is_time key ≡ false }
        ensures fired { option_list result ≡ if_flag key self.old }
        ensures is { (ts : List ℕ) → Fires (option_list result) ts self.old ts self.new }
    {
        if self.take(key) { Some(key) } else { None }
    }

    /// Fires the key of the edge that a change of one bit is (IEEE 1364-2005, clause 9.7.2), if it is registered.
    fn take_level(&mut self, report: &Report) -> Option<Key>
        requires { report.now.sig.0 < signals_of self.old }
        ensures fired { option_list result ≡ level_part report.now (keys_with [] self.old) }
        ensures is { (ts : List ℕ) → Fires (option_list result) ts self.old ts self.new }
        ensures other { among (Change report.now.sig) (option_list result) ≡ false }
    {
        if report.after.width() == 1 {
            match low_digit(report.after) {
                Digit::One => self.taken(Key::Rise(report.sig)),
                Digit::Zero => self.taken(Key::Fall(report.sig)),
                _ => None,
            }
        } else {
            None
        }
    }

    /// Fires those of the edge keys of a change that are registered, and answers them in order.
    pub fn change(&mut self, report: &Report) -> Fired
        requires { report.now.sig.0 < signals_of self.old }
        ensures fired { (ts : List ℕ) → result ≡ fired_of (edge_keys report.now (keys_with ts self.old)) }
        ensures is { (ts : List ℕ) → Fires (edge_keys report.now (keys_with ts self.old)) ts self.old ts self.new }
    {
        let first = self.take_level(report);
        let second = self.taken(Key::Change(report.sig));
        in_order(first, second)
    }

    /// Fires the keys of a time step that begins at this time, where they are registered, and answers them in order. Whether the time is registered
    /// is told by who calls, and it isn't any more.
    pub fn begin_step(&mut self, time: u64, there: bool) -> Fired
        ensures fired { (ts : List ℕ) → there ≡ holds time ts
            → result ≡ fired_of (if_has NextStep (keys_with ts self.old) ++ if_has (At time) (keys_with ts self.old)) }
        ensures is { (ts us : List ℕ) → there ≡ holds time ts → IsWithoutTime time ts us
            → Fires (if_has NextStep (keys_with ts self.old) ++ if_has (At time) (keys_with ts self.old)) ts self.old us self.new }
    {
        let first = self.taken(Key::NextStep);
        let second = self.taken_time(time, there);
        in_order(first, second)
    }

    /// Counts a time as fired if it was registered, and answers it then.
    fn taken_time(&mut self, time: u64, there: bool) -> Option<Key>
        ensures fired { option_list result ≡ if_there there time }
        ensures is { (k : AnyKey) → flag_of self.new k ≡ flag_of self.old k }
        ensures counts { counts_of self.new
            ≡ record (counts_of self.old) { fired = raised_by (if_there there time) (counts_of self.old).fired } }
        ensures signals { signals_of self.new ≡ signals_of self.old }
    {
        if !there {
            return None;
        }
        self.counts.fired = self.counts.fired.saturating_add(1);
        Some(Key::At(time))
    }
}

/// These keys, in order.
fn in_order(first: Option<Key>, second: Option<Key>) -> Fired
    ensures { result ≡ fired_of (option_list first ++ option_list second) }
{
    match first {
        Some(key) => Fired {
            first: Some(key),
            second,
        },
        None => Fired {
            first: second,
            second: None,
        },
    }
}
