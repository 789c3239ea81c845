//! The classes of bytes that tokens are made of.

ghost use Rattle.std.specs.Prelude.{◌≡◌};
ghost use Rattle.v_lex.specs.Bytes.{is_separator, is_digit, is_letter, is_name_start, is_in};

/// Space, tab, line feed, carriage return or form feed (IEEE 1364-2005, clause 3.2).
pub fn is_separator(byte: u8) -> bool
    ensures { result ≡ is_separator byte }
{
    byte == b' ' || byte == b'\t' || byte == b'\n' || byte == b'\r' || byte == 0x0c
}

/// A decimal digit.
pub fn is_digit(byte: u8) -> bool
    ensures { result ≡ is_digit byte }
{
    b'0' <= byte && byte <= b'9'
}

/// A letter of either case.
pub fn is_letter(byte: u8) -> bool
    ensures { result ≡ is_letter byte }
{
    (b'A' <= byte && byte <= b'Z') || (b'a' <= byte && byte <= b'z')
}

/// A byte that may begin a name: a letter or `_` (clause 3.7).
pub fn is_name_start(byte: u8) -> bool
    ensures { result ≡ is_name_start byte }
{
    is_letter(byte) || byte == b'_'
}

/// A class of bytes that a run is made of.
#[derive(Clone, Copy, Debug, PartialEq, Eq)]
pub enum ByteClass {
    /// Separators.
    Separator,
    /// Decimal digits.
    Digit,
    /// Decimal digits and `_`.
    Decimal,
    /// Bytes of a name: letters, digits, `_` and `$`.
    Name,
    /// Bytes that count as digits behind a base letter: `0` to `9`, `a` to `f`, `x` and `z` in either case, `?` and `_`.
    Written,
    /// All but the line feed.
    Line,
    /// All but the line feed and the quote.
    Text,
}

impl ByteClass {
    /// Whether the byte is of the class.
    pub fn contains(self, byte: u8) -> bool
        ensures { result ≡ is_in self byte }
    {
        match self {
            ByteClass::Separator => is_separator(byte),
            ByteClass::Digit => is_digit(byte),
            ByteClass::Decimal => is_digit(byte) || byte == b'_',
            ByteClass::Name => is_letter(byte) || is_digit(byte) || byte == b'_' || byte == b'$',
            ByteClass::Written => is_written(byte),
            ByteClass::Line => byte != b'\n',
            ByteClass::Text => byte != b'\n' && byte != b'"',
        }
    }
}

fn is_written(byte: u8) -> bool
    ensures { result ≡ is_in ByteClass.Written byte }
{
    is_digit(byte)
        || (b'a' <= byte && byte <= b'f')
        || (b'A' <= byte && byte <= b'F')
        || byte == b'x'
        || byte == b'X'
        || byte == b'z'
        || byte == b'Z'
        || byte == b'?'
        || byte == b'_'
}
