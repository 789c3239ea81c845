//! Texts that are made of pieces.

ghost use Rattle.std.specs.Prelude.{◌≡◌, ℕ, List, take, IfOk};
ghost use Rattle.std.specs.List.{flat_map};

use port_io::Sequence;
use std::alloc::{AllocError, Global};

/// The pieces, one behind the other. Only want of memory is an error, here and in all of this crate.
pub fn joined(alloc: Global, pieces: &[&[u8]]) -> Result<Vec<u8>, AllocError>
    ensures { IfOk result (λ text. text.items ≡ flat_map (λ piece. piece.now) pieces.now) }
{
    pieces.concat(alloc)
}

/// What is shown by its text.
pub trait Shown {
    /// The text.
    ghost text: { Self → List ℕ };

    /// The text.
    fn shown(&self, alloc: Global) -> Result<Vec<u8>, AllocError>
        ensures { IfOk result (λ shown. shown.items ≡ text self.now) };
}

/// The texts of the first `most` of these, one behind the other.
pub fn texts<T: Shown>(
    alloc: Global,
    most: usize,
    items: &Sequence<T>,
) -> Result<Vec<u8>, AllocError>
    ensures { IfOk result (λ shown. shown.items ≡ flat_map T.text (take most items.now)) }
{
    let mut shown = Vec::new(alloc);
    for at in 0..items.len().min(most) {
        shown.extend_from_slice(&items.get(at).shown(alloc)?)?;
    }
    Ok(shown)
}

/// The texts of all of these, one behind the other.
pub fn all_texts<T: Shown>(alloc: Global, items: &Sequence<T>) -> Result<Vec<u8>, AllocError>
    ensures { IfOk result (λ shown. shown.items ≡ flat_map T.text items.now) }
{
    texts(alloc, items.len(), items)
}
