//! Kinds of bytes.

ghost use Rattle.std.specs.Prelude.{◌≡◌, length, take, drop, slice_index};
ghost use Rattle.std.specs.List.{take_while, list_all};
ghost use Rattle.py_syntax.specs.Bytes;

pub fn is_digit(byte: u8) -> bool
    ensures { result ≡ Bytes.is_digit byte }
{
    b'0' <= byte && byte <= b'9'
}

pub fn is_letter(byte: u8) -> bool
    ensures { result ≡ Bytes.is_letter byte }
{
    (b'a' <= byte && byte <= b'z') || (b'A' <= byte && byte <= b'Z') || byte == b'_'
}

pub fn is_word_byte(byte: u8) -> bool
    ensures { result ≡ Bytes.is_word_byte byte }
{
    is_letter(byte) || is_digit(byte)
}

pub fn is_number_byte(base: u8, byte: u8) -> bool
    ensures { result ≡ Bytes.is_number_byte base byte }
{
    is_word_byte(byte) || (base == 10 && byte == b'.')
}

pub fn is_quote(byte: u8) -> bool
    ensures { result ≡ Bytes.is_quote byte }
{
    byte == b'"' || byte == b'\''
}

pub fn is_brace(byte: u8) -> bool
    ensures { result ≡ Bytes.is_brace byte }
{
    byte == b'{' || byte == b'}'
}

pub fn is_printable(byte: u8) -> bool
    ensures { result ≡ Bytes.is_printable byte }
{
    b' ' <= byte && byte <= b'~'
}

pub fn is_escapable(byte: u8) -> bool
    ensures { result ≡ Bytes.is_escapable byte }
{
    byte == b'\\' || is_quote(byte)
}

/// The byte of that number, or 0 behind the end.
pub fn byte_at(text: &[u8], at: usize) -> u8
    ensures { result ≡ slice_index text.now at }
{
    if at < text.len() { text[at] } else { 0 }
}

pub fn are_printable(bytes: &[u8]) -> bool
    ensures { result ≡ list_all Bytes.is_printable bytes.now }
{
    bytes.iter().all(|byte| is_printable(*byte))
}
