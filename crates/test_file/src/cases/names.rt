//! Names of cases.

ghost use Rattle.std.specs.Prelude.{◌≡◌, ◌++◌, [], codes, IfOk};
ghost use Rattle.std.specs.Fmt.{decimal};
ghost use Rattle.std.specs.Option.{unwrap_or};
ghost use Rattle.test_meaning.specs.Cases.{case_name, three_digits};

use port_io::{Name, NoMemory};
use std::alloc::Global;

/// The zeros before a number, with which it has three digits at least.
fn zeros(number: u32) -> &'static [u8]
    ensures { result.now ++ decimal number ≡ three_digits number }
{
    if number < 10 {
        b"00"
    } else if number < 100 {
        b"0"
    } else {
        b""
    }
}

/// A text, or nothing.
fn text_of(text: &Option<Name>) -> &[u8]
    ensures { result.now ≡ unwrap_or text.now [] }
{
    match text {
        Some(text) => text.bytes(),
        None => b"",
    }
}

/// The name of a factory's case (cocotb 1.8, `TestFactory.generate_tests`): prefix, function, postfix, `_`, and the number, from 1, with
/// three digits at least. Only want of memory is an error.
pub fn case_name(
    alloc: Global,
    prefix: &Option<Name>,
    function: &[u8],
    postfix: &Option<Name>,
    number: u32,
) -> Result<Name, NoMemory>
    ensures { IfOk result (λ name. name ≡ case_name prefix.now function.now postfix.now number) }
{
    let mut text = text_of(prefix).to_vec(alloc)?;
    text.extend_from_slice(function)?;
    text.extend_from_slice(text_of(postfix))?;
    text.extend_from_slice(b"_")?;
    text.extend_from_slice(zeros(number))?;
    let digits = number.to_string(alloc)?;
    text.extend_from_slice(digits.as_bytes())?;
    Name::of(alloc, &text)
}
