//! A small text.
ghost use Rattle.std.specs.Prelude.{◌≡◌, [], IfOk};

use crate::NoMemory;
use std::alloc::Global;
use std::marker::Model;

/// A small text, seen as the list of its bytes.
#[derive(Drop)]
pub struct Name {
    bytes: Option<Vec<u8>>,
}

impl Model for Name {
    ghost use Rattle.std.specs.Prelude.{List, ℕ};

    ghost Value = { List ℕ };

    ghost use Rattle.port_io.specs.Name.{name_bytes};

    ghost view = { name_bytes };
}

impl Name {
    /// The text of these bytes, copied. Only want of memory is an error.
    pub fn of(alloc: Global, bytes: &[u8]) -> Result<Name, NoMemory>
        ensures { IfOk result (λ name. name ≡ bytes.now) }
    {
        let stored = bytes.to_vec(alloc)?;
        Ok(Name {
            bytes: Some(stored),
        })
    }

    /// The text without a byte. It takes no memory.
    pub fn empty() -> Name
        ensures { result ≡ [] }
    {
        Name { bytes: None }
    }

    /// The bytes of the text. It takes no memory.
    pub fn bytes(&self) -> &[u8]
        ensures { result.now ≡ self.now }
    {
        match &self.bytes {
            Some(stored) => stored,
            None => &[],
        }
    }
}
