//! Compiler directives, and what stands at a place of a text.

ghost use Rattle.std.specs.Prelude.{◌≡◌};
ghost use Rattle.v_lex.specs.DirectiveWords.{directive_spelling};

use port_io::Name;
use v_syntax::Token;

/// The word behind the backquote of a directive (IEEE 1364-2005, clause 19).
#[derive(Clone, Copy, Debug, PartialEq, Eq)]
pub enum DirectiveWord {
    DefaultNetType,
    Define,
    Else,
    ElsIf,
    EndIf,
    IfDef,
    IfNDef,
    ResetAll,
    TimeScale,
    Undef,
}

/// The words of all directives.
pub const DIRECTIVE_WORDS: [DirectiveWord; 10] = [
    DirectiveWord::DefaultNetType,
    DirectiveWord::Define,
    DirectiveWord::Else,
    DirectiveWord::ElsIf,
    DirectiveWord::EndIf,
    DirectiveWord::IfDef,
    DirectiveWord::IfNDef,
    DirectiveWord::ResetAll,
    DirectiveWord::TimeScale,
    DirectiveWord::Undef,
];

impl DirectiveWord {
    /// The bytes of the word, without the backquote.
    pub fn spelling(self) -> &'static [u8]
        ensures { result.now ≡ directive_spelling self }
    {
        match self {
            DirectiveWord::DefaultNetType => b"default_nettype",
            DirectiveWord::Define => b"define",
            DirectiveWord::Else => b"else",
            DirectiveWord::ElsIf => b"elsif",
            DirectiveWord::EndIf => b"endif",
            DirectiveWord::IfDef => b"ifdef",
            DirectiveWord::IfNDef => b"ifndef",
            DirectiveWord::ResetAll => b"resetall",
            DirectiveWord::TimeScale => b"timescale",
            DirectiveWord::Undef => b"undef",
        }
    }
}

/// A directive with its parts.
#[derive(Drop)]
pub enum Directive {
    /// The time unit and the time precision, in femtoseconds (clause 19.8).
    TimeScale(u64, u64),
    /// A name is defined from here on, without a text (clause 19.3.1).
    Define(Name),
    /// A name is no longer defined (clause 19.3.2).
    Undef(Name),
    /// A part follows that is taken where the name is defined (clause 19.4).
    IfDef(Name),
    /// A part follows that is taken where the name isn't defined.
    IfNDef(Name),
    /// A part follows that is taken where no earlier one was and the name is defined.
    ElsIf(Name),
    /// A part follows that is taken where no earlier one was.
    Else,
    /// The conditional ends.
    EndIf,
    /// The unit is 1 ns again (clause 19.6).
    ResetAll,
    /// The kind of undeclared nets, which has no effect (clause 19.2).
    DefaultNetType,
    /// A conditional whose name is missing. It counts as opened.
    Unnamed,
    /// No directive, or one whose parts are wrong. It has no effect.
    Broken,
}

/// A rule of the text's bytes.
#[derive(Clone, Copy, Debug, PartialEq, Eq)]
pub enum LexRule {
    /// A byte that begins no token.
    BadByte,
    /// A number with a wrong size, a wrong digit, no digit, or a value that is too large.
    BadNumber,
    /// A text that isn't closed on its line, or a comment that isn't closed.
    UnclosedText,
    /// A directive that isn't one of these, that is broken, or that stays open.
    Directive,
}

/// A rule that is broken at a byte place.
#[derive(Clone, Copy, Debug, PartialEq, Eq)]
pub struct BrokenRule {
    pub rule: LexRule,
    pub place: u32,
}

/// What stands at a place.
#[derive(Drop)]
pub enum Content {
    /// A separator, a comment, or what is skipped.
    Gap,
    Token(Token),
    Directive(Directive),
    /// A rule is broken here.
    Broken(LexRule),
}

/// What stands at a place, with its number of bytes.
#[derive(Drop)]
pub struct Piece {
    pub size: usize,
    pub content: Content,
}

/// A conditional that is open.
#[derive(Clone, Copy, Debug, PartialEq, Eq)]
pub struct Conditional {
    /// The byte place of its opening directive.
    pub place: u32,
    /// The part at hand is taken: what stands around it is, and its condition holds.
    pub is_taken: bool,
    /// A later part may be taken: what stands around is, and no part was yet.
    pub may_take: bool,
    /// Its `else` stands before.
    pub has_else: bool,
}
