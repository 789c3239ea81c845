//! A store in memory, whose calls fail where they are told to.
ghost use Rattle.std.specs.Prelude.{◌≡◌, ℕ, ◌∷◌, [], ◌++◌, ◌≤◌, Some, List, Option, take, length, OnOk, OnErr, IfOk, IsErrOf};
ghost use Rattle.std.specs.Option.{option_copied, option_map};
ghost use Rattle.std.specs.Str.{bytes_eq};
ghost use Rattle.port_io.specs.Ports.{next_count, IsRaised};
ghost use Rattle.port_io.specs.Memory.{file_of};
ghost use Rattle.port_io.specs.Steps.{StoreGives, StoreMisses, gives_file_of, gives_same_of, misses_same_of, gives_count_of, misses_count_of};

use crate::calls::Calls;
use crate::{Name, NoMemory, Store, StoreFault};
use std::alloc::{AllocError, Global};
use std::marker::Model;

/// A file in memory.
#[derive(Drop)]
struct StoredFile {
    name: Name,
    bytes: Vec<u8>,
}

impl Model for StoredFile {
    ghost use Rattle.port_io.specs.Memory.{File};

    ghost Value = { File };

    ghost view = { λ file. record { name = file.name; bytes = file.bytes.items } };
}

impl StoredFile {
    fn is_named(&self, name: &[u8]) -> bool
        ensures { result ≡ bytes_eq self.now.name name.now }
    {
        self.name.bytes() == name
    }

    /// The first `most` bytes of the file, or all of them where it has fewer.
    fn first_bytes(&self, alloc: Global, most: usize) -> Result<Vec<u8>, AllocError>
        ensures { IfOk result (λ bytes. bytes.items ≡ take most self.now.bytes) }
    {
        let end = most.min(self.bytes.len());
        self.bytes[..end].to_vec(alloc)
    }
}

/// Files in memory, which it tells. Its calls of `read_file` are numbered from 1; it fails at the
/// numbers that it is given, and at a name without a file.
#[derive(Drop)]
pub struct MemStore {
    alloc: Global,
    files: Vec<StoredFile>,
    calls: Calls,
}

impl Model for MemStore {
    ghost use Rattle.port_io.specs.Memory.{Files};

    ghost Value = { Files };

    ghost use Rattle.port_io.specs.MemoryView.{store_view};

    ghost view = { store_view };
}

impl MemStore {
    /// A store without a file, of which no call fails. It takes no memory.
    pub fn new(alloc: Global) -> Self
        ensures { result ≡ record { files = []; calls = 0; failing = []; faults = 0 } }
    {
        MemStore {
            alloc,
            files: Vec::new(alloc),
            calls: Calls::new(alloc),
        }
    }

    /// Adds a file, in place of an older one of that name. Only want of memory is an error, and it
    /// leaves the store as it was.
    pub fn add(&mut self, name: &str, bytes: &[u8]) -> Result<(), NoMemory>
        ensures ok { OnOk result (self.new ≡ record self.old { files = record { name = name.now; bytes = bytes.now } ∷ self.old.files }) }
        ensures err { OnErr result (self.new ≡ self.old) }
    {
        let name = Name::of(self.alloc, name.as_bytes())?;
        let bytes = bytes.to_vec(self.alloc)?;
        self.files.insert(0, StoredFile { name, bytes })?;
        Ok(())
    }

    /// Lets the call of that number, from 1, fail. Only want of memory is an error, and it leaves
    /// the store as it was.
    pub fn fail_at(&mut self, call: u64) -> Result<(), NoMemory>
        ensures ok { OnOk result (self.new ≡ record self.old { failing = self.old.failing ++ call ∷ [] }) }
        ensures err { OnErr result (self.new ≡ self.old) }
    {
        self.calls.fail_at(call)
    }
}

impl Store for MemStore {
    ghost files = { λ store. Some (file_of store.files) };

    ghost faults = { λ store. store.faults };

    ghost gives = { StoreGives };

    ghost misses = { StoreMisses };

    ghost gives_file = { gives_file_of };

    ghost gives_same = { gives_same_of };

    ghost misses_same = { misses_same_of };

    ghost gives_count = { gives_count_of };

    ghost misses_count = { misses_count_of };

    /// Every call raises the number of calls by one, also one that wants memory.
    fn read_file(&mut self, alloc: Global, name: &str, most: usize) -> Result<Vec<u8>, StoreFault>
        ensures given { IfOk result (λ bytes. StoreGives self.old name.now most bytes.items self.new) }
        ensures missed { IsErrOf result StoreFault.Failed → StoreMisses self.old name.now self.new }
        ensures length { IfOk result (λ bytes. length bytes.items ≤ most) }
        ensures files { Some (file_of self.new.files) ≡ Some (file_of self.old.files) }
        ensures count { self.old.faults ≤ self.new.faults }
        ensures cause { IsErrOf result StoreFault.Failed → IsRaised self.old.faults self.new.faults }
        ensures no_memory { IsErrOf result StoreFault.OutOfMemory
            → self.new ≡ record self.old { calls = next_count self.old.calls } }
    {
        if self.calls.begin() {
            self.calls.fail();
            return Err(StoreFault::Failed);
        }
        match find_file(&self.files, name.as_bytes()) {
            Some(file) => Ok(file.first_bytes(alloc, most)?),
            None => {
                self.calls.fail();
                Err(StoreFault::Failed)
            }
        }
    }
}

/// The newest file of that name.
fn find_file<'a>(files: &'a [StoredFile], name: &[u8]) -> Option<&'a StoredFile>
    ensures { option_map (λ file. file.bytes) (option_copied result) ≡ file_of files.now name.now }
{
    files.iter().find(|file| file.is_named(name))
}
