//! Operators, delimiters and brackets.

/// A kind of bracket. Braces are none.
#[derive(Clone, Copy, Debug, PartialEq, Eq)]
pub enum Bracket {
    /// `(` or `)`
    Round,
    /// `[` or `]`
    Square,
}

/// An operator or a delimiter (the language reference, 2.5 and 2.6) that is no bracket.
#[derive(Clone, Copy, Debug, PartialEq, Eq)]
pub enum Operator {
    /// `,`
    Comma,
    /// `.`
    Dot,
    /// `:`
    Colon,
    /// `@`
    At,
    /// `~`
    Invert,
    /// `=`
    Assign,
    /// `<`
    Less,
    /// `>`
    Greater,
    /// `|`
    Or,
    /// `^`
    Xor,
    /// `&`
    And,
    /// `+`
    Plus,
    /// `-`
    Minus,
    /// `*`
    Times,
    /// `%`
    Modulo,
    /// `==`
    Equal,
    /// `!=`
    NotEqual,
    /// `<=`
    LessEqual,
    /// `>=`
    GreaterEqual,
    /// `<<`
    ShiftLeft,
    /// `>>`
    ShiftRight,
    /// `//`
    FloorDivide,
    /// `|=`
    OrAssign,
    /// `^=`
    XorAssign,
    /// `&=`
    AndAssign,
    /// `+=`
    PlusAssign,
    /// `-=`
    MinusAssign,
    /// `*=`
    TimesAssign,
    /// `%=`
    ModuloAssign,
    /// `<<=`
    ShiftLeftAssign,
    /// `>>=`
    ShiftRightAssign,
    /// `//=`
    FloorDivideAssign,
}
