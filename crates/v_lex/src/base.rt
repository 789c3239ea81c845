//! The base of a number.

ghost use Rattle.std.specs.Prelude.{◌≡◌, Option};
ghost use Rattle.v_lex.specs.Digits.{base_of, bits_of};

/// The base of a number that names one (IEEE 1364-2005, clause 3.5.1).
#[derive(Clone, Copy, Debug, PartialEq, Eq)]
pub enum Base {
    Binary,
    Octal,
    Decimal,
    Hexadecimal,
}

impl Base {
    /// The base that a letter of either case names.
    pub fn of(letter: u8) -> Option<Base>
        ensures { result ≡ base_of letter }
    {
        if letter == b'b' || letter == b'B' {
            return Some(Base::Binary);
        }
        if letter == b'o' || letter == b'O' {
            return Some(Base::Octal);
        }
        if letter == b'd' || letter == b'D' {
            return Some(Base::Decimal);
        }
        if letter == b'h' || letter == b'H' {
            return Some(Base::Hexadecimal);
        }
        None
    }

    /// How many bits one written digit has. In base ten a digit has no bits of its own.
    pub fn bits(self) -> u8
        ensures { result ≡ bits_of self }
    {
        match self {
            Base::Binary => 1,
            Base::Octal => 3,
            Base::Decimal => 0,
            Base::Hexadecimal => 4,
        }
    }
}
