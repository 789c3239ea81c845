//! A store and a sink, by what they tell and by what each call does.
ghost use Rattle.std.specs.Prelude.{◌≡◌, ℕ, ◌≤◌, List, Option, length, IfOk, OnOk, OnErr, IsErrOf};
ghost use Rattle.std.specs.Io.KnownBytes.{Appends};
ghost use Rattle.port_io.specs.Ports.{IsRaised, GivesFile, AppendsPart};

use std::alloc::{AllocError, AllocFailed, Global};
use std::error::Error;
use std::fmt;

/// Want of memory, merged with no other answer.
#[derive(Clone, Copy, Debug, PartialEq, Eq)]
pub struct NoMemory;

impl fmt::Display for NoMemory {
    fn fmt<W: fmt::Write>(&self, f: &mut fmt::Formatter<W>) -> fmt::Result {
        f.write_str("out of memory")
    }
}

impl Error for NoMemory {}

impl From<AllocError> for NoMemory {
    fn from(_: AllocError) -> Self {
        NoMemory
    }
}

impl<T: Drop> From<AllocFailed<T>> for NoMemory {
    fn from(_: AllocFailed<T>) -> Self {
        NoMemory
    }
}

/// Why a read gave nothing.
#[derive(Clone, Copy, Debug, PartialEq, Eq)]
pub enum StoreFault {
    /// There is no such file, or it could not be read. The store's count of faults rose.
    Failed,
    /// There was no memory for the bytes.
    OutOfMemory,
}

impl fmt::Display for StoreFault {
    fn fmt<W: fmt::Write>(&self, f: &mut fmt::Formatter<W>) -> fmt::Result {
        match self {
            StoreFault::Failed => f.write_str("cannot read the file"),
            StoreFault::OutOfMemory => f.write_str("out of memory"),
        }
    }
}

impl Error for StoreFault {}

impl From<AllocError> for StoreFault {
    ghost use Rattle.port_io.specs.declared.ports.StoreFault.TheVariants.{OutOfMemory};

    ghost from_gives = { λ _ fault. fault ≡ OutOfMemory };

    fn from(_: AllocError) -> Self {
        StoreFault::OutOfMemory
    }
}

/// Why a put did not take all of its bytes.
#[derive(Clone, Copy, Debug, PartialEq, Eq)]
pub enum SinkFault {
    /// The bytes could not be written. The sink's count of faults rose.
    Failed,
    /// There was no memory for the bytes.
    OutOfMemory,
}

impl fmt::Display for SinkFault {
    fn fmt<W: fmt::Write>(&self, f: &mut fmt::Formatter<W>) -> fmt::Result {
        match self {
            SinkFault::Failed => f.write_str("cannot write the bytes"),
            SinkFault::OutOfMemory => f.write_str("out of memory"),
        }
    }
}

impl Error for SinkFault {}

impl From<AllocError> for SinkFault {
    ghost use Rattle.port_io.specs.declared.ports.SinkFault.TheVariants.{OutOfMemory};

    ghost from_gives = { λ _ fault. fault ≡ OutOfMemory };

    fn from(_: AllocError) -> Self {
        SinkFault::OutOfMemory
    }
}

/// Files by name.
pub trait Store {
    /// The file of each name, where the store tells its files; a name without a file has `None`.
    ghost files: { Self → Option (List ℕ → Option (List ℕ)) };

    /// How often a read failed: a number of 64 bits that stays at its largest value.
    ghost faults: { Self → ℕ };

    /// A read of at most so many bytes of the named file may give these bytes and turn the first
    /// store into the second.
    ghost gives: { Self → List ℕ → ℕ → List ℕ → Self → Type 0 };

    /// A read of the named file may fail and turn the first store into the second.
    ghost misses: { Self → List ℕ → Self → Type 0 };

    /// Reads the first `most` bytes of the file `name`, or all of it where it has fewer.
    ///
    /// `StoreFault::Failed` comes only where the count of faults rose in this call, or stands at
    /// its largest value; a missing file is such a failure. `StoreFault::OutOfMemory` comes only
    /// from want of memory. Whatever the answer, the store tells the same files afterwards, and its
    /// count of faults has not fallen.
    fn read_file(&mut self, alloc: Global, name: &str, most: usize) -> Result<Vec<u8>, StoreFault>
        ensures given { IfOk result (λ bytes. gives self.old name.now most bytes.items self.new) }
        ensures missed { IsErrOf result StoreFault.Failed → misses self.old name.now self.new }
        ensures length { IfOk result (λ bytes. length bytes.items ≤ most) }
        ensures files { files self.new ≡ files self.old }
        ensures count { faults self.old ≤ faults self.new }
        ensures cause { IsErrOf result StoreFault.Failed → IsRaised (faults self.old) (faults self.new) };

    /// What is given is the first `most` bytes of the file, where the store tells its files.
    ghost gives_file: { (before : Self) (name : List ℕ) (most : ℕ) (bytes : List ℕ) (after : Self)
        → gives before name most bytes after → GivesFile (files before) name most bytes };

    /// A read that gives leaves the files that the store tells as they were.
    ghost gives_same: { (before : Self) (name : List ℕ) (most : ℕ) (bytes : List ℕ) (after : Self)
        → gives before name most bytes after → files after ≡ files before };

    /// A read that misses leaves the files that the store tells as they were.
    ghost misses_same: { (before : Self) (name : List ℕ) (after : Self)
        → misses before name after → files after ≡ files before };

    /// The count of faults does not fall in a read that gives.
    ghost gives_count: { (before : Self) (name : List ℕ) (most : ℕ) (bytes : List ℕ) (after : Self)
        → gives before name most bytes after → faults before ≤ faults after };

    /// The count of faults rises in a read that misses, or stands at its largest value.
    ghost misses_count: { (before : Self) (name : List ℕ) (after : Self)
        → misses before name after → IsRaised (faults before) (faults after) };
}

/// A place where lines are put, one after the other.
pub trait Sink {
    /// The bytes put so far, where the sink tells them.
    ghost told: { Self → Option (List ℕ) };

    /// How often a put failed: a number of 64 bits that stays at its largest value.
    ghost faults: { Self → ℕ };

    /// A put of the piece may succeed and turn the first sink into the second.
    ghost takes: { Self → List ℕ → Self → Type 0 };

    /// A put of the piece may fail and turn the first sink into the second.
    ghost breaks: { Self → List ℕ → Self → Type 0 };

    /// Puts the bytes after those that were put before.
    ///
    /// Either error leaves a part of the bytes put, from their front, which may be none of them.
    /// `SinkFault::Failed` comes only where the count of faults rose in this call, or stands at its
    /// largest value. `SinkFault::OutOfMemory` comes only from want of memory. Whatever the answer,
    /// the count of faults has not fallen.
    fn put(&mut self, alloc: Global, bytes: &[u8]) -> Result<(), SinkFault>
        ensures taken { OnOk result (takes self.old bytes.now self.new) }
        ensures broken { IsErrOf result SinkFault.Failed → breaks self.old bytes.now self.new }
        ensures part { OnErr result (AppendsPart (told self.old) (told self.new) bytes.now) }
        ensures count { faults self.old ≤ faults self.new }
        ensures cause { IsErrOf result SinkFault.Failed → IsRaised (faults self.old) (faults self.new) };

    /// A piece that is taken is appended, where the sink tells its bytes.
    ghost takes_told: { (before : Self) (piece : List ℕ) (after : Self)
        → takes before piece after → Appends (told before) (told after) piece };

    /// Of a piece that breaks a part is appended, from its front, where the sink tells its bytes.
    ghost breaks_told: { (before : Self) (piece : List ℕ) (after : Self)
        → breaks before piece after → AppendsPart (told before) (told after) piece };

    /// The count of faults does not fall in a put that takes.
    ghost takes_count: { (before : Self) (piece : List ℕ) (after : Self)
        → takes before piece after → faults before ≤ faults after };

    /// The count of faults rises in a put that breaks, or stands at its largest value.
    ghost breaks_count: { (before : Self) (piece : List ℕ) (after : Self)
        → breaks before piece after → IsRaised (faults before) (faults after) };
}
