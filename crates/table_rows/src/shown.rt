//! How bytes are shown.

ghost use Rattle.std.specs.Prelude.{◌≡◌, ◌++◌, ◌∷◌, [], IfOk, OnOk, OnErr, string_bytes};
ghost use Rattle.table_rows.specs.Shown.{latin, in_quotes, ShowsFront};

use std::alloc::{AllocError, Global};

/// Bytes as characters, those of Latin-1, behind a text. Only want of memory is an error, and after it a front of them stands there.
pub fn push_bytes(out: &mut String, bytes: &[u8]) -> Result<(), AllocError>
    ensures ok { OnOk result (string_bytes out.new ≡ string_bytes out.old ++ latin bytes.now) }
    ensures err { OnErr result (ShowsFront (string_bytes out.old) (string_bytes out.new) bytes.now) }
{
    for byte in bytes {
        out.push(char::from(*byte))?;
    }
    Ok(())
}

/// Bytes as characters between quotes, with `\0a` for a line feed. Only want of memory is an error.
#[tactic(auto, unfolding(crate::specs::Shown::shown_bytes))]
pub fn quoted(alloc: Global, bytes: &[u8]) -> Result<String, AllocError>
    ensures { IfOk result (λ text. string_bytes text ≡ in_quotes bytes.now) }
{
    let mut out = String::new(alloc);
    out.push('"')?;
    for byte in bytes {
        match *byte {
            b'\n' => out.push_str("\\0a")?,
            other => out.push(char::from(other))?,
        }
    }
    out.push('"')?;
    Ok(out)
}
