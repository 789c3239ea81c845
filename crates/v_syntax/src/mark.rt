//! The operators and marks of the grammar.

ghost use Rattle.std.specs.Prelude.{◌≡◌, ◌≤◌, ℕ, List, Some, None, length};
ghost use Rattle.v_syntax.specs.Marks.{mark_spelling, mark_at, IsMarkAt};
ghost use Rattle.v_syntax.specs.declared.mark.Mark.{Mark};

/// An operator or a mark of the grammar, by its sign (IEEE 1364-2005, clause 5.1 and annex A).
#[derive(Clone, Copy, Debug, PartialEq, Eq)]
pub enum Mark {
    /// `===`
    CaseEqual,
    /// `!==`
    CaseUnequal,
    /// `<<<`
    ArithmeticShiftLeft,
    /// `>>>`
    ArithmeticShiftRight,
    /// `<=`
    LessOrEqual,
    /// `>=`
    GreaterOrEqual,
    /// `==`
    Equal,
    /// `!=`
    Unequal,
    /// `&&`
    LogicalAnd,
    /// `||`
    LogicalOr,
    /// `<<`
    ShiftLeft,
    /// `>>`
    ShiftRight,
    /// `~&`
    Nand,
    /// `~|`
    Nor,
    /// `~^`
    TildeCaret,
    /// `^~`
    CaretTilde,
    /// `+:`
    PlusColon,
    /// `#`
    Hash,
    /// `(`
    OpenParenthesis,
    /// `)`
    CloseParenthesis,
    /// `;`
    Semicolon,
    /// `,`
    Comma,
    /// `=`
    Assign,
    /// `[`
    OpenBracket,
    /// `]`
    CloseBracket,
    /// `:`
    Colon,
    /// `@`
    At,
    /// `*`
    Star,
    /// `.`
    Dot,
    /// `{`
    OpenBrace,
    /// `}`
    CloseBrace,
    /// `?`
    Question,
    /// `|`
    Bar,
    /// `^`
    Caret,
    /// `&`
    Ampersand,
    /// `<`
    Less,
    /// `>`
    Greater,
    /// `+`
    Plus,
    /// `-`
    Minus,
    /// `/`
    Slash,
    /// `%`
    Percent,
    /// `!`
    Exclamation,
    /// `~`
    Tilde,
}

/// All marks, those of more bytes first.
pub const MARKS: [Mark; 43] = [
    Mark::CaseEqual,
    Mark::CaseUnequal,
    Mark::ArithmeticShiftLeft,
    Mark::ArithmeticShiftRight,
    Mark::LessOrEqual,
    Mark::GreaterOrEqual,
    Mark::Equal,
    Mark::Unequal,
    Mark::LogicalAnd,
    Mark::LogicalOr,
    Mark::ShiftLeft,
    Mark::ShiftRight,
    Mark::Nand,
    Mark::Nor,
    Mark::TildeCaret,
    Mark::CaretTilde,
    Mark::PlusColon,
    Mark::Hash,
    Mark::OpenParenthesis,
    Mark::CloseParenthesis,
    Mark::Semicolon,
    Mark::Comma,
    Mark::Assign,
    Mark::OpenBracket,
    Mark::CloseBracket,
    Mark::Colon,
    Mark::At,
    Mark::Star,
    Mark::Dot,
    Mark::OpenBrace,
    Mark::CloseBrace,
    Mark::Question,
    Mark::Bar,
    Mark::Caret,
    Mark::Ampersand,
    Mark::Less,
    Mark::Greater,
    Mark::Plus,
    Mark::Minus,
    Mark::Slash,
    Mark::Percent,
    Mark::Exclamation,
    Mark::Tilde,
];

impl Mark {
    /// The bytes of the sign.
    pub fn spelling(self) -> &'static [u8]
        ensures is { result.now ≡ mark_spelling self }
        ensures some { 1 ≤ length result.now }
    {
        match self {
            Mark::CaseEqual => b"===",
            Mark::CaseUnequal => b"!==",
            Mark::ArithmeticShiftLeft => b"<<<",
            Mark::ArithmeticShiftRight => b">>>",
            Mark::LessOrEqual => b"<=",
            Mark::GreaterOrEqual => b">=",
            Mark::Equal => b"==",
            Mark::Unequal => b"!=",
            Mark::LogicalAnd => b"&&",
            Mark::LogicalOr => b"||",
            Mark::ShiftLeft => b"<<",
            Mark::ShiftRight => b">>",
            Mark::Nand => b"~&",
            Mark::Nor => b"~|",
            Mark::TildeCaret => b"~^",
            Mark::CaretTilde => b"^~",
            Mark::PlusColon => b"+:",
            Mark::Hash => b"#",
            Mark::OpenParenthesis => b"(",
            Mark::CloseParenthesis => b")",
            Mark::Semicolon => b";",
            Mark::Comma => b",",
            Mark::Assign => b"=",
            Mark::OpenBracket => b"[",
            Mark::CloseBracket => b"]",
            Mark::Colon => b":",
            Mark::At => b"@",
            Mark::Star => b"*",
            Mark::Dot => b".",
            Mark::OpenBrace => b"{",
            Mark::CloseBrace => b"}",
            Mark::Question => b"?",
            Mark::Bar => b"|",
            Mark::Caret => b"^",
            Mark::Ampersand => b"&",
            Mark::Less => b"<",
            Mark::Greater => b">",
            Mark::Plus => b"+",
            Mark::Minus => b"-",
            Mark::Slash => b"/",
            Mark::Percent => b"%",
            Mark::Exclamation => b"!",
            Mark::Tilde => b"~",
        }
    }
}

/// Of the marks that stand at the front of a text the longest is taken, and there is none only where none stands there.
pub fn longest_mark()
    ensures longest { (text : List ℕ) (m k : Mark) → mark_at text ≡ Some m → IsMarkAt text k → length (mark_spelling k) ≤ length (mark_spelling m) }
    ensures none { (text : List ℕ) (k : Mark) → mark_at text ≡ None → IsMarkAt text k → ⊥ }
{}
