//! A simulator whose calls are made only where they are allowed.
//!
//! The interface doesn't tell which keys are registered, so a book is kept of them beside the simulator.

ghost use Rattle.std.specs.List.{list_any};
ghost use Rattle.std.specs.Prelude.{◌≡◌, Bool, true, false, [], length, IfOk, OnOk, OnErr};
ghost use Rattle.gpi.specs.Content.{IsAsked, no_design, opening};
ghost use Rattle.gpi.specs.Soundness.{IsSoundFlat};
ghost use Rattle.gpi.specs.Keys.{same_key};
ghost use Rattle.edge_tests.specs.Kernel.Calls.{IsAnswered, IsBook};
ghost use Rattle.edge_tests.specs.Kernel.Keys.{keys_in, without, without_all};
ghost use Rattle.edge_tests.specs.declared.kernel.calls.Call.TheVariants as call;

use crate::kernel::calls::{Answer, Call, Reading};
use four_value::Bits;
use gpi::{Advance, Fired, Flat, Gpi, Key, LATEST_TIME, Region, SigId};
use port_io::NoMemory;
use std::alloc::Global;

/// How many signals the design has, and which keys are registered.
#[derive(Drop)]
pub struct Book {
    signals: usize,
    keys: Vec<Key>,
}

/// Whether the two are one key.
fn is_same(key: Key, other: Key) -> bool
    ensures { result ≡ same_key key other }
{
    key == other
}

impl Book {
    /// The book of a simulator that holds no design. It takes no memory.
    pub fn new(alloc: Global) -> Book
        ensures signals { result.signals ≡ 0 }
        ensures keys { result.keys.items ≡ [] }
    {
        Book {
            signals: 0,
            keys: Vec::new(alloc),
        }
    }

    /// Whether the key is registered.
    fn has(&self, key: Key) -> bool
        ensures { result ≡ list_any (same_key key) self.now.keys.items }
    {
        self.keys.iter().any(|own| is_same(key, *own))
    }

    /// Notes that a key isn't registered any more.
    fn take_out(&mut self, key: Key)
        ensures keys { self.new.keys.items ≡ without key self.old.keys.items }
        ensures signals { self.new.signals ≡ self.old.signals }
    {
        self.keys.retain(|own| !is_same(*own, key));
    }

    /// Notes that these keys aren't registered any more.
    fn take_fired(&mut self, fired: Fired)
        ensures keys { self.new.keys.items ≡ without_all (keys_in fired) self.old.keys.items }
        ensures signals { self.new.signals ≡ self.old.signals }
    {
        if let Some(key) = fired.first {
            self.take_out(key);
        }
        if let Some(key) = fired.second {
            self.take_out(key);
        }
    }
}

/// The simulator takes a design, whose opening state it then is in. Only want of memory is an error, and then it holds no design.
pub fn take_design<K: Gpi>(
    alloc: Global,
    flat: &Flat,
    kernel: &mut K,
    book: &mut Book,
) -> Result<(), NoMemory>
    requires { IsSoundFlat flat.now }
    ensures loaded { OnOk result (K.is_loaded kernel.new) }
    ensures book { IsBook book.new (K.content kernel.new) }
    ensures opening { OnOk result (K.content kernel.new ≡ opening flat.now) }
    ensures none { OnErr result (K.content kernel.new ≡ no_design) }
{
    *book = Book::new(alloc);
    kernel.load(alloc, flat)?;
    book.signals = flat.signals.len();
    Ok(())
}

/// Whether a simulator of so many signals could register a key, if it isn't registered.
fn may_register<K: Gpi>(kernel: &K, signals: usize, key: Key) -> bool
    ensures yes { result ≡ true → IsAsked signals (K.content kernel.now).state key }
    ensures no { result ≡ false → IsAsked signals (K.content kernel.now).state key → ⊥ }
{
    match key {
        Key::At(time) => kernel.now() < time && time <= LATEST_TIME,
        Key::Rise(sig) | Key::Fall(sig) | Key::Change(sig) => (sig.0 as usize) < signals,
        Key::ReadWrite | Key::ReadOnly => kernel.region() != Region::End,
        Key::NextStep => true,
    }
}

/// A key is registered. Only want of memory is an error, here and below, and then nothing has changed.
fn registered<K: Gpi>(kernel: &mut K, book: &mut Book, key: Key) -> Result<Answer, NoMemory>
    requires loaded { K.is_loaded kernel.old }
    requires book { IsBook book.old (K.content kernel.old) }
    ensures loaded { K.is_loaded kernel.new }
    ensures book { IsBook book.new (K.content kernel.new) }
    ensures is { IfOk result (λ answer. IsAnswered (K.content kernel.old) (call.Register key) answer (K.content kernel.new)) }
    ensures kept { OnErr result (K.content kernel.new ≡ K.content kernel.old) }
{
    if book.has(key) || !may_register(kernel, book.signals, key) {
        return Ok(Answer::Refused);
    }
    let count = book.keys.len();
    book.keys.push(key)?;
    match kernel.register(key) {
        Ok(()) => Ok(Answer::Done),
        Err(fault) => {
            book.keys.truncate(count);
            Err(fault)
        }
    }
}

/// A key is removed.
fn removed<K: Gpi>(kernel: &mut K, book: &mut Book, key: Key) -> Answer
    requires loaded { K.is_loaded kernel.old }
    requires book { IsBook book.old (K.content kernel.old) }
    ensures loaded { K.is_loaded kernel.new }
    ensures book { IsBook book.new (K.content kernel.new) }
    ensures is { IsAnswered (K.content kernel.old) (call.Remove key) result (K.content kernel.new) }
{
    if !book.has(key) {
        return Answer::Refused;
    }
    kernel.remove(key);
    book.take_out(key);
    Answer::Done
}

/// A number is written to a signal.
fn deposited<K: Gpi>(kernel: &mut K, book: &mut Book, sig: SigId, number: u64) -> Answer
    requires loaded { K.is_loaded kernel.old }
    requires book { IsBook book.old (K.content kernel.old) }
    ensures loaded { K.is_loaded kernel.new }
    ensures book { IsBook book.new (K.content kernel.new) }
    ensures is { IsAnswered (K.content kernel.old) (call.Deposit sig number) result (K.content kernel.new) }
{
    if kernel.region() == Region::End || sig.0 as usize >= book.signals {
        return Answer::Refused;
    }
    let width = kernel.read(sig).width();
    let fired = kernel.deposit(sig, Bits::from_number(width, u128::from(number)));
    book.take_fired(fired);
    Answer::Fired(fired)
}

/// A signal is forced to a number.
fn forced<K: Gpi>(kernel: &mut K, book: &mut Book, sig: SigId, number: u64) -> Answer
    requires loaded { K.is_loaded kernel.old }
    requires book { IsBook book.old (K.content kernel.old) }
    ensures loaded { K.is_loaded kernel.new }
    ensures book { IsBook book.new (K.content kernel.new) }
    ensures is { IsAnswered (K.content kernel.old) (call.Force sig number) result (K.content kernel.new) }
{
    if kernel.region() == Region::End || sig.0 as usize >= book.signals {
        return Answer::Refused;
    }
    let width = kernel.read(sig).width();
    let fired = kernel.force(sig, Bits::from_number(width, u128::from(number)));
    book.take_fired(fired);
    Answer::Fired(fired)
}

/// A signal is released.
fn released<K: Gpi>(kernel: &mut K, book: &mut Book, sig: SigId) -> Answer
    requires loaded { K.is_loaded kernel.old }
    requires book { IsBook book.old (K.content kernel.old) }
    ensures loaded { K.is_loaded kernel.new }
    ensures book { IsBook book.new (K.content kernel.new) }
    ensures is { IsAnswered (K.content kernel.old) (call.Release sig) result (K.content kernel.new) }
{
    if kernel.region() == Region::End || sig.0 as usize >= book.signals {
        return Answer::Refused;
    }
    let fired = kernel.release(sig);
    book.take_fired(fired);
    Answer::Fired(fired)
}

/// A signal is read.
fn value<K: Gpi>(kernel: &K, book: &Book, sig: SigId) -> Answer
    requires loaded { K.is_loaded kernel.now }
    requires book { IsBook book.now (K.content kernel.now) }
    ensures { IsAnswered (K.content kernel.now) (call.Read sig) result (K.content kernel.now) }
{
    if sig.0 as usize >= book.signals {
        return Answer::Refused;
    }
    Answer::Value(Reading {
        bits: kernel.read(sig),
        forced: kernel.is_forced(sig),
    })
}

/// One event is simulated.
fn advanced<K: Gpi>(kernel: &mut K, book: &mut Book) -> Result<Answer, NoMemory>
    requires loaded { K.is_loaded kernel.old }
    requires book { IsBook book.old (K.content kernel.old) }
    ensures loaded { K.is_loaded kernel.new }
    ensures book { IsBook book.new (K.content kernel.new) }
    ensures is { IfOk result (λ answer. IsAnswered (K.content kernel.old) call.Advance answer (K.content kernel.new)) }
    ensures kept { OnErr result (K.content kernel.new ≡ K.content kernel.old) }
{
    match kernel.advance()? {
        Advance::Idle => Ok(Answer::Advanced(Advance::Idle)),
        Advance::Moved(moved) => {
            book.take_fired(moved.fired);
            Ok(Answer::Advanced(Advance::Moved(moved)))
        }
    }
}

/// A call is made where it is allowed.
pub fn asked<K: Gpi>(kernel: &mut K, book: &mut Book, call: Call) -> Result<Answer, NoMemory>
    requires loaded { K.is_loaded kernel.old }
    requires book { IsBook book.old (K.content kernel.old) }
    ensures loaded { K.is_loaded kernel.new }
    ensures book { IsBook book.new (K.content kernel.new) }
    ensures is { IfOk result (λ answer. IsAnswered (K.content kernel.old) call answer (K.content kernel.new)) }
    ensures kept { OnErr result (K.content kernel.new ≡ K.content kernel.old) }
{
    match call {
        Call::Register(key) => registered(kernel, book, key),
        Call::Remove(key) => Ok(removed(kernel, book, key)),
        Call::Deposit(sig, number) => Ok(deposited(kernel, book, sig, number)),
        Call::Force(sig, number) => Ok(forced(kernel, book, sig, number)),
        Call::Release(sig) => Ok(released(kernel, book, sig)),
        Call::Read(sig) => Ok(value(kernel, book, sig)),
        Call::Advance => advanced(kernel, book),
    }
}
