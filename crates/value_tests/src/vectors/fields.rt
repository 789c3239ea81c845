//! The fields of a row of the table.
ghost use Rattle.std.specs.Prelude.{◌≤◌, IfSome};

use four_value::{Bits, Digit};

/// The digit of a text that is one digit.
pub fn digit(text: &str) -> Option<Digit> {
    let bits = vector(text)?;
    if bits.width() == 1 {
        Some(bits.digit(0))
    } else {
        None
    }
}

/// The vector of some digits, which stand in a text with the most significant first.
pub fn vector(text: &str) -> Option<Bits> {
    let mut place = u8::try_from(text.len()).ok()?;
    if place < 1 || place > 128 {
        return None;
    }
    let mut bits = Bits::all(place, Digit::X);
    for byte in text.bytes() {
        place = place.checked_sub(1)?;
        if place >= bits.width() {
            return None;
        }
        bits = bits.with_digit(place, digit_of_byte(byte)?);
    }
    Some(bits)
}

/// A decimal width, 1 to 128.
pub fn width(text: &str) -> Option<u8>
    ensures { IfSome result (λ w. (1 ≤ w) × (w ≤ 128)) }
{
    let width = text.parse::<u8>().ok()?;
    if 1 <= width && width <= 128 {
        Some(width)
    } else {
        None
    }
}

fn digit_of_byte(byte: u8) -> Option<Digit> {
    match byte {
        b'0' => Some(Digit::Zero),
        b'1' => Some(Digit::One),
        b'x' => Some(Digit::X),
        b'z' => Some(Digit::Z),
        _ => None,
    }
}
