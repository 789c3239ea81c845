//! Numbers and digits in a line.
ghost use Rattle.std.specs.Prelude.{◌≡◌, ◌++◌, OnOk, OnErr};
ghost use Rattle.std.specs.Fmt.{decimal};
ghost use Rattle.four_value.specs.Vector.{digit_letters};

use four_value::Bits;
use std::alloc::{AllocError, Global};

/// Adds a number as its decimal digits. After an error the line is as it was.
pub(crate) fn add_number(alloc: Global, line: &mut Vec<u8>, number: u64) -> Result<(), AllocError>
    ensures ok { OnOk result (line.new.items ≡ line.old.items ++ decimal number) }
    ensures err { OnErr result (line.new.items ≡ line.old.items) }
{
    let text = number.to_string(alloc)?;
    line.extend_from_slice(text.as_bytes())?;
    Ok(())
}

/// Adds the digits of a value, the highest first. After an error the line is as it was.
pub(crate) fn add_digits(line: &mut Vec<u8>, bits: Bits) -> Result<(), AllocError>
    ensures ok { OnOk result (line.new.items ≡ line.old.items ++ digit_letters bits) }
    ensures err { OnErr result (line.new.items ≡ line.old.items) }
{
    let text = bits.text();
    let count = bits.width() as usize;
    line.extend_from_slice(&text[..count])?;
    Ok(())
}
