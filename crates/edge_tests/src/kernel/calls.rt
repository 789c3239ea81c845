//! Calls of a simulator's interface, as rows ask for them, and what they are answered.

ghost use Rattle.std.specs.Prelude.{◌≡◌};
ghost use Rattle.table_rows.specs.Rows.{part_at};
ghost use Rattle.edge_tests.specs.Kernel.Calls.{call_of, key_of, signal_of};

use four_value::Bits;
use gpi::{Advance, Fired, Key, SigId};
use table_rows::{Row, number_of};

/// What a signal shows, and whether it is forced.
#[derive(Clone, Copy, Debug)]
pub struct Reading {
    pub bits: Bits,
    pub forced: bool,
}

/// A call of the interface.
#[derive(Clone, Copy, Debug)]
pub enum Call {
    Register(Key),
    Remove(Key),
    /// A number that is written to a signal, modulo 2 to the signal's width.
    Deposit(SigId, u64),
    /// A number that a signal is forced to, modulo 2 to the signal's width.
    Force(SigId, u64),
    Release(SigId),
    Read(SigId),
    Advance,
}

/// What a call is answered.
#[derive(Clone, Copy, Debug)]
pub enum Answer {
    /// The call isn't allowed as the simulator stands, and so isn't made.
    Refused,
    /// Nothing is told.
    Done,
    /// The keys that a deposit, a force or a release fired.
    Fired(Fired),
    /// A signal was read.
    Value(Reading),
    /// What `advance` answers.
    Advanced(Advance),
}

/// The signal of this number, the last of 32 bits where it is beyond.
fn signal_of(number: u64) -> SigId
    ensures { result ≡ signal_of number }
{
    SigId(u32::try_from(number).unwrap_or(u32::MAX))
}

/// The key of this name and number, if there is one.
fn key_of(name: &[u8], number: u64) -> Option<Key>
    ensures { result ≡ key_of name.now number }
{
    if name == b"at".as_slice() {
        Some(Key::At(number))
    } else if name == b"rise".as_slice() {
        Some(Key::Rise(signal_of(number)))
    } else if name == b"fall".as_slice() {
        Some(Key::Fall(signal_of(number)))
    } else if name == b"change".as_slice() {
        Some(Key::Change(signal_of(number)))
    } else if name == b"read_write".as_slice() {
        Some(Key::ReadWrite)
    } else if name == b"read_only".as_slice() {
        Some(Key::ReadOnly)
    } else if name == b"next_step".as_slice() {
        Some(Key::NextStep)
    } else {
        None
    }
}

/// The call that a row asks for, if it asks for one.
pub fn call_of(row: &Row<'_>) -> Option<Call>
    ensures { result ≡ call_of row.now }
{
    let asked = row.part(0);
    if asked == b"register".as_slice() {
        key_of(row.part(2), row.number(3)).map(Call::Register)
    } else if asked == b"remove".as_slice() {
        key_of(row.part(2), row.number(3)).map(Call::Remove)
    } else if asked == b"deposit".as_slice() {
        Some(Call::Deposit(signal_of(row.number(2)), row.number(3)))
    } else if asked == b"force".as_slice() {
        Some(Call::Force(signal_of(row.number(2)), row.number(3)))
    } else if asked == b"release".as_slice() {
        Some(Call::Release(signal_of(row.number(2))))
    } else if asked == b"read".as_slice() {
        Some(Call::Read(signal_of(row.number(2))))
    } else if asked == b"advance".as_slice() {
        Some(Call::Advance)
    } else {
        None
    }
}
