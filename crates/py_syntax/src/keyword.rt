//! The reserved words.

ghost use Rattle.std.specs.Prelude.{◌≡◌};
ghost use Rattle.py_syntax.specs.Keywords.{keyword_bytes, keyword_of};

/// A reserved word of Python (the language reference, 2.3.1). It is no name.
#[derive(Clone, Copy, Debug, PartialEq, Eq)]
pub enum Keyword {
    False,
    None,
    True,
    And,
    As,
    Assert,
    Async,
    Await,
    Break,
    Class,
    Continue,
    Def,
    Del,
    Elif,
    Else,
    Except,
    Finally,
    For,
    From,
    Global,
    If,
    Import,
    In,
    Is,
    Lambda,
    Nonlocal,
    Not,
    Or,
    Pass,
    Raise,
    Return,
    Try,
    While,
    With,
    Yield,
}

/// All reserved words.
const KEYWORDS: [Keyword; 35] = [
    Keyword::False,
    Keyword::None,
    Keyword::True,
    Keyword::And,
    Keyword::As,
    Keyword::Assert,
    Keyword::Async,
    Keyword::Await,
    Keyword::Break,
    Keyword::Class,
    Keyword::Continue,
    Keyword::Def,
    Keyword::Del,
    Keyword::Elif,
    Keyword::Else,
    Keyword::Except,
    Keyword::Finally,
    Keyword::For,
    Keyword::From,
    Keyword::Global,
    Keyword::If,
    Keyword::Import,
    Keyword::In,
    Keyword::Is,
    Keyword::Lambda,
    Keyword::Nonlocal,
    Keyword::Not,
    Keyword::Or,
    Keyword::Pass,
    Keyword::Raise,
    Keyword::Return,
    Keyword::Try,
    Keyword::While,
    Keyword::With,
    Keyword::Yield,
];

impl Keyword {
    /// How the word is spelled.
    pub fn bytes(self) -> &'static [u8]
        ensures { result.now ≡ keyword_bytes self }
    {
        match self {
            Keyword::False => b"False",
            Keyword::None => b"None",
            Keyword::True => b"True",
            Keyword::And => b"and",
            Keyword::As => b"as",
            Keyword::Assert => b"assert",
            Keyword::Async => b"async",
            Keyword::Await => b"await",
            Keyword::Break => b"break",
            Keyword::Class => b"class",
            Keyword::Continue => b"continue",
            Keyword::Def => b"def",
            Keyword::Del => b"del",
            Keyword::Elif => b"elif",
            Keyword::Else => b"else",
            Keyword::Except => b"except",
            Keyword::Finally => b"finally",
            Keyword::For => b"for",
            Keyword::From => b"from",
            Keyword::Global => b"global",
            Keyword::If => b"if",
            Keyword::Import => b"import",
            Keyword::In => b"in",
            Keyword::Is => b"is",
            Keyword::Lambda => b"lambda",
            Keyword::Nonlocal => b"nonlocal",
            Keyword::Not => b"not",
            Keyword::Or => b"or",
            Keyword::Pass => b"pass",
            Keyword::Raise => b"raise",
            Keyword::Return => b"return",
            Keyword::Try => b"try",
            Keyword::While => b"while",
            Keyword::With => b"with",
            Keyword::Yield => b"yield",
        }
    }

    /// The reserved word of this spelling.
    #[tactic(auto, unfolding(crate::specs::Keywords::keyword_of))]
    pub fn of(word: &[u8]) -> Option<Keyword>
        ensures { result ≡ keyword_of word.now }
    {
        KEYWORDS
            .iter()
            .copied()
            .find(|keyword| keyword.bytes() == word)
    }
}
