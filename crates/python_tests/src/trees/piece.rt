//! Texts that are made of pieces.

ghost use Rattle.std.specs.Prelude.{◌≡◌, IfOk};
ghost use Rattle.std.specs.List.{flat_map};
ghost use Rattle.hex.specs.Hex.{encode_lower};
ghost use Rattle.python_tests.specs.Trees.TreeText.{quoted_text};

use port_io::Name;
use std::alloc::{AllocError, Global};

/// The pieces, one behind the other. Only want of memory is an error, here and in all of this crate.
pub fn joined(alloc: Global, pieces: &[&[u8]]) -> Result<Vec<u8>, AllocError>
    ensures { IfOk result (λ text. text.items ≡ flat_map (λ piece. piece.now) pieces.now) }
{
    pieces.concat(alloc)
}

/// A text in hexadecimal digits, in lower case.
pub fn hex_text(alloc: Global, text: &Name) -> Result<Vec<u8>, AllocError>
    ensures { IfOk result (λ digits. digits.items ≡ encode_lower text.now) }
{
    let digits = hex::encode(alloc, text.bytes())?;
    Ok(digits.into_bytes())
}

/// A text between its quotes.
pub fn quoted_text(alloc: Global, text: &Name) -> Result<Vec<u8>, AllocError>
    ensures { IfOk result (λ quoted. quoted.items ≡ quoted_text text.now) }
{
    let digits = hex_text(alloc, text)?;
    joined(alloc, &[b"'", &digits, b"'"])
}
