//! Paths as texts.

ghost use Rattle.std.specs.Prelude.{◌≡◌, ℕ, ◌++◌, Some, IfOk};
ghost use Rattle.v_flat.specs.Paths.{Path, below, word_text};
ghost use Rattle.v_layout.specs.Steps.{dotted};
ghost use Rattle.v_layout.specs.Texts.{HasText};

use port_io::NoMemory;
use std::alloc::Global;

/// A path, a dot and a name. Only want of memory is an error.
pub(crate) fn dotted(alloc: Global, path: &[u8], name: &[u8]) -> Result<Vec<u8>, NoMemory>
    ensures { IfOk result (λ text. text.items ≡ dotted path.now name.now) }
{
    let mut text = path.to_vec(alloc)?;
    text.push(b'.')?;
    text.extend_from_slice(name)?;
    Ok(text)
}

/// The path of what has this name in the instance of a path, `top.inner.name` (IEEE 1364-2005, clause 12.5). Only want of memory is an
/// error.
pub fn path_below(alloc: Global, path: &[u8], name: &[u8]) -> Result<Vec<u8>, NoMemory>
    ensures { IfOk result (λ text. (p : Path) → HasText p path.now → HasText (below p name.now) text.items) }
{
    dotted(alloc, path, name)
}

/// The path of a memory's word, `top.memory[3]`. Only want of memory is an error.
pub(crate) fn word_path(alloc: Global, path: &[u8], index: u32) -> Result<Vec<u8>, NoMemory>
    ensures { IfOk result (λ text. text.items ≡ path.now ++ word_text (Some index)) }
{
    let mut text = path.to_vec(alloc)?;
    text.push(b'[')?;
    text.extend_from_slice(index.to_string(alloc)?.as_bytes())?;
    text.push(b']')?;
    Ok(text)
}
