//! A place in a text, and how a piece moves it on.

ghost use Rattle.std.specs.Prelude.{◌≡◌, ◌≤◌, ◌<◌, ◌+◌, ◌^◌, length, slice_get, OnOk, IfSome, Option};
ghost use Rattle.std.specs.Option.{option_to_list};
ghost use Rattle.py_syntax.specs.Places.{place_after, context_of, first_place, line_ends};
ghost use Rattle.py_syntax.specs.Places;
ghost use Rattle.py_syntax.specs.Line.{physical_line};
ghost use Rattle.py_syntax.specs.Logical;

use crate::gather::is_token;
use port_io::NoMemory;
use py_syntax::{Bracket, Broken, Context, LineNumber, LineRule, Mode, OpenBracket, Piece, Token};
use std::alloc::Global;
use std::marker::Model;

/// A place in a text, by what stands before it.
#[derive(Drop)]
pub struct Position {
    mode: Mode,
    at_front: bool,
    is_fresh: bool,
    spaces: u32,
    line: LineNumber,
    open_brackets: Vec<OpenBracket>,
}

impl Model for Position {
    ghost use Rattle.py_syntax.specs.Places.{Place};

    ghost Value = { Place };

    ghost view = { λ a. record {
      mode = a.mode;
      at_front = a.at_front;
      is_fresh = a.is_fresh;
      spaces = a.spaces;
      line = a.line.0;
      open_brackets = a.open_brackets.items;
    } };
}

fn is_line_end(piece: &Piece) -> bool
    ensures { result ≡ Places.is_line_end piece.now }
{
    matches!(piece, Piece::LineEnd)
}

fn line_ends(piece: &Piece) -> u32
    ensures { result ≡ Places.line_ends piece.now }
{
    match piece {
        Piece::LineEnd => 1,
        Piece::Docstring(count) => *count,
        _ => 0,
    }
}

fn part_of(mode: Mode) -> Mode
    ensures { result ≡ Places.part_of mode }
{
    match mode {
        Mode::Format(quote) => Mode::Expression(quote),
        other => other,
    }
}

fn literal_of(mode: Mode) -> Mode
    ensures { result ≡ Places.literal_of mode }
{
    match mode {
        Mode::Expression(quote) => Mode::Format(quote),
        other => other,
    }
}

fn mode_after(mode: Mode, piece: &Piece) -> Mode
    ensures { result ≡ Places.mode_after mode piece.now }
{
    match piece {
        Piece::FormatStart(quote) => Mode::Format(*quote),
        Piece::FormatOpen => part_of(mode),
        Piece::FormatClose => literal_of(mode),
        Piece::FormatEnd | Piece::FormatCut | Piece::LineEnd => Mode::Code,
        _ => mode,
    }
}

fn spaces_after(at_front: bool, spaces: u32, piece: &Piece) -> u32
    requires { spaces + 1 < 2 ^ 32 }
    ensures { result ≡ Places.spaces_after at_front spaces piece.now }
{
    match piece {
        Piece::LineEnd => 0,
        Piece::Space if at_front => spaces + 1,
        _ => spaces,
    }
}

fn same_bracket(left: Bracket, right: Bracket) -> bool
    ensures { result ≡ Places.same_bracket left right }
{
    match (left, right) {
        (Bracket::Round, Bracket::Round) | (Bracket::Square, Bracket::Square) => true,
        _ => false,
    }
}

fn is_code(mode: Mode) -> bool
    ensures { result ≡ Places.is_code mode }
{
    matches!(mode, Mode::Code)
}

fn closes(open_brackets: &[OpenBracket], bracket: Bracket) -> bool
    ensures { result ≡ Places.closes open_brackets.now bracket }
{
    match open_brackets.last() {
        Some(open) => same_bracket(open.bracket, bracket),
        None => false,
    }
}

fn open_after_token(
    line: LineNumber,
    open_brackets: &mut Vec<OpenBracket>,
    token: &Token,
) -> Result<(), NoMemory>
    ensures { OnOk result (open_brackets.new.items ≡ Places.open_after_token line.0 open_brackets.old.items token.now) }
{
    match token {
        Token::Open(bracket) => open_brackets.push(OpenBracket {
            bracket: *bracket,
            line,
        })?,
        Token::Close(bracket) if closes(open_brackets, *bracket) => {
            let _ = open_brackets.pop();
        }
        _ => {}
    }
    Ok(())
}

/// The rule that a token breaks in code: a closing bracket that closes nothing.
fn closing_rule(open_brackets: &[OpenBracket], token: &Token) -> Option<LineRule>
    ensures { result ≡ Logical.closing_rule open_brackets.now token.now }
{
    match token {
        Token::Close(bracket) if !closes(open_brackets, *bracket) => Some(LineRule::BadByte),
        _ => None,
    }
}

/// The rule that a piece breaks.
fn rule_of(mode: Mode, open_brackets: &[OpenBracket], piece: &Piece) -> Option<LineRule>
    ensures { result ≡ Logical.rule_of mode open_brackets.now piece.now }
{
    match piece {
        Piece::Token(token, is_printable) => {
            if !*is_printable {
                Some(LineRule::BadByte)
            } else if is_code(mode) {
                closing_rule(open_brackets, token)
            } else {
                None
            }
        }
        Piece::Tab => Some(LineRule::Tab),
        Piece::BadByte => Some(LineRule::BadByte),
        Piece::OpenText | Piece::OpenDocstring => Some(LineRule::UnclosedText),
        Piece::LineEnd if !is_code(mode) => Some(LineRule::UnclosedText),
        _ => None,
    }
}

impl Position {
    /// The front of a text.
    pub fn new(alloc: Global) -> Self
        ensures { result ≡ first_place }
    {
        Position {
            mode: Mode::Code,
            at_front: true,
            is_fresh: true,
            spaces: 0,
            line: LineNumber(1),
            open_brackets: Vec::new(alloc),
        }
    }

    pub fn context(&self) -> Context
        ensures { result ≡ context_of self.now }
    {
        Context {
            mode: self.mode,
            at_front: self.at_front,
            is_fresh: self.is_fresh,
        }
    }

    pub fn spaces(&self) -> u32
        ensures { result ≡ self.now.spaces }
    {
        self.spaces
    }

    pub fn line(&self) -> LineNumber
        ensures { result ≡ physical_line self.now.line }
    {
        self.line
    }

    /// The rule that a piece breaks here.
    #[tactic(auto, unfolding(py_syntax::specs::Logical::broken_by))]
    pub fn broken_by(&self, piece: &Piece) -> Option<Broken>
        ensures { result ≡ Logical.broken_by (record { place = self.now; piece = piece.now }) }
    {
        let rule = rule_of(self.mode, &self.open_brackets, piece)?;
        Some(Broken {
            line: self.line,
            rule,
        })
    }

    /// Whether a piece ends the logical line.
    pub fn is_logical_end(&self, piece: &Piece) -> bool
        ensures { result ≡ Places.is_logical_end self.now.open_brackets piece.now }
    {
        is_line_end(piece) && self.open_brackets.is_empty()
    }

    /// Moves on behind a piece.
    #[tactic(auto, unfolding(py_syntax::specs::Places::place_after))]
    pub fn pass(&mut self, piece: &Piece) -> Result<(), NoMemory>
        requires spaces { self.old.spaces + 1 < 2 ^ 32 }
        requires lines { self.old.line + Places.line_ends piece.now < 2 ^ 32 }
        ensures { OnOk result (self.new ≡ place_after self.old piece.now) }
    {
        let is_token = is_token(piece);
        let is_logical_end = self.is_logical_end(piece);
        if is_code(self.mode)
            && let Piece::Token(token, _) = piece
        {
            open_after_token(self.line, &mut self.open_brackets, token)?;
        }
        self.spaces = spaces_after(self.at_front, self.spaces, piece);
        self.at_front = is_line_end(piece) || (self.at_front && !is_token);
        self.is_fresh = is_logical_end || (self.is_fresh && !is_token);
        self.line = LineNumber(self.line.0 + line_ends(piece));
        self.mode = mode_after(self.mode, piece);
        Ok(())
    }

    /// The f-string that is open where the text ends.
    pub fn open_format(&self) -> Option<Broken>
        ensures { option_to_list result ≡ Logical.open_format self.now }
    {
        if is_code(self.mode) {
            return None;
        }
        Some(Broken {
            line: self.line,
            rule: LineRule::UnclosedText,
        })
    }

    /// The outermost bracket that is open where the text ends.
    pub fn open_bracket(&self) -> Option<Broken>
        ensures { option_to_list result ≡ Logical.open_line (slice_get self.now.open_brackets 0) }
    {
        let open = self.open_brackets.first()?;
        Some(Broken {
            line: open.line,
            rule: LineRule::UnclosedText,
        })
    }
}
