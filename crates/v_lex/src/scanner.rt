//! The whole text, piece by piece.

ghost use Rattle.std.specs.Prelude.{◌≡◌, ◌≤◌, ◌<◌, ◌+◌, ◌^◌, ◌++◌, ℕ, List, [], length, Option, None, IfOk, IfErr, OnOk};
ghost use Rattle.port_io.specs.Limits.{most_bytes};
ghost use Rattle.v_lex.specs.Lexing.{Scan, State, earlier, earliest, left_open, with_content, with_token, with_fault, after_content};
ghost use Rattle.v_lex.specs.Lexing.{is_module, with_unit};
ghost use Rattle.v_lex.specs.Row.{Reads};
ghost use Rattle.v_lex.specs.Scan.{scan_of};
ghost use Rattle.v_lex.specs.Faults.{IsFault};
ghost use Rattle.v_lex.specs.Found.{found_with, nothing, of_found, end_of};
ghost use Rattle.v_lex.specs.States.{state_of};

use crate::directive::{BrokenRule, Conditional, Content, LexRule};
use crate::pieces::piece_at;
use crate::state::{NANOSECOND, State};
use crate::{LexFault, Tokens};
use port_io::NoMemory;
use std::alloc::Global;
use v_syntax::{Keyword, Token};

/// What was found before a place.
#[derive(Drop)]
struct Found {
    tokens: Vec<Token>,
    places: Vec<u32>,
    /// The unit of time at each `module`, in femtoseconds.
    units: Vec<u64>,
    first: Option<BrokenRule>,
}

/// Whether the token is the keyword `module`.
fn is_module(token: &Token) -> bool
    ensures { result ≡ is_module token.now }
{
    matches!(token, Token::Keyword(Keyword::Module))
}

/// Adds the unit that holds at a token, where the token is `module`.
fn add_unit(units: &mut Vec<u64>, token: &Token, unit: u64) -> Result<(), NoMemory>
    ensures { OnOk result ((more : List ℕ) → units.new.items ++ more ≡ units.old.items ++ with_unit token.now unit more) }
{
    if is_module(token) {
        units.push(unit)?;
    }
    Ok(())
}

/// Of two broken rules the one at the lesser place; at one place the first.
fn earlier(first: Option<BrokenRule>, second: Option<BrokenRule>) -> Option<BrokenRule>
    ensures { result ≡ earlier first second }
{
    match (first, second) {
        (None, _) => second,
        (Some(_), None) => first,
        (Some(a), Some(b)) => { if a.place <= b.place { first } else { second } }
    }
}

/// The first of the conditionals that are left open.
fn first_open(conditionals: &[Conditional]) -> Option<BrokenRule>
    ensures { result ≡ earliest (left_open conditionals.now) }
{
    let mut first = None;
    for conditional in conditionals {
        let open = BrokenRule {
            rule: LexRule::Directive,
            place: conditional.place,
        };
        first = earlier(first, Some(open));
    }
    first
}

impl Found {
    fn new(alloc: Global) -> Found
        ensures { of_found result ≡ nothing }
    {
        Found {
            tokens: Vec::new(alloc),
            places: Vec::new(alloc),
            units: Vec::new(alloc),
            first: None,
        }
    }

    fn broken(&mut self, rule: LexRule, place: u32)
        ensures { (scan : Scan) → found_with (of_found self.new) scan ≡ found_with (of_found self.old) (with_fault place rule scan) }
    {
        self.first = earlier(self.first, Some(BrokenRule { rule, place }));
    }

    fn token(&mut self, unit: u64, token: Token, place: u32) -> Result<(), NoMemory>
        ensures { OnOk result ((scan : Scan)
            → found_with (of_found self.new) scan ≡ found_with (of_found self.old) (with_token unit place token scan)) }
    {
        add_unit(&mut self.units, &token, unit)?;
        self.tokens.push(token)?;
        self.places.push(place)?;
        Ok(())
    }

    /// Adds what stands at a place.
    #[tactic(auto, unfolding(crate::specs::Lexing::with_content, crate::specs::Lexing::after_content))]
    fn add(
        &mut self,
        alloc: Global,
        state: &mut State,
        place: u32,
        content: Content,
    ) -> Result<(), NoMemory>
        ensures found { OnOk result ((scan : Scan)
            → found_with (of_found self.new) scan
            ≡ found_with (of_found self.old) (with_content (state_of state.old) place content scan)) }
        ensures state { OnOk result (state_of state.new ≡ after_content (state_of state.old) place content) }
    {
        match content {
            Content::Gap => Ok(()),
            Content::Token(token) => self.token(state.unit, token, place),
            Content::Broken(rule) => {
                self.broken(rule, place);
                Ok(())
            }
            Content::Directive(directive) => {
                if !state.is_allowed(&directive) {
                    self.broken(LexRule::Directive, place);
                }
                state.apply(alloc, place, directive)
            }
        }
    }
}

/// What stands in the whole text, and the state at its end.
fn scan(alloc: Global, text: &[u8]) -> Result<(Found, State), NoMemory>
    requires { length text.now ≤ most_bytes }
    ensures found { IfOk result (λ x. found_with (of_found x.0) (end_of (state_of x.1)) ≡ found_with nothing (scan_of text.now)) }
    ensures state { IfOk result (λ x. state_of x.1 ≡ (scan_of text.now).last) }
{
    let mut found = Found::new(alloc);
    let mut state = State::start(alloc)?;
    let mut place = 0;
    while place < text.len() {
        let (_, rest) = text.split_at(place);
        let piece = piece_at(alloc, state.is_taken(), rest)?;
        let size = piece.size;
        found.add(alloc, &mut state, place as u32, piece.content)?;
        place += size;
    }
    Ok((found, state))
}

/// The tokens of a Verilog text with their byte places, and what its directives set; or the first rule that it breaks,
/// by place (IEEE 1364-2005, clauses 3 and 19). A conditional that stays open has the place of its opening directive.
pub fn lex(alloc: Global, text: &[u8]) -> Result<Tokens, LexFault>
    requires { length text.now ≤ most_bytes }
    // No rule is broken, and these are the text's tokens and places.
    ensures tokens { IfOk result (λ tokens. Reads text.now tokens) }
    // Otherwise it is the first broken rule.
    ensures refused { IfErr result (λ fault. IsFault fault text.now) }
{
    let (found, state) = scan(alloc, text)?;
    if let Some(broken) = earlier(found.first, first_open(&state.conditionals)) {
        return Err(LexFault::from(broken));
    }
    let Found {
        tokens,
        mut places,
        units,
        ..
    } = found;
    places.push(text.len() as u32)?;
    let step = state.step.unwrap_or(NANOSECOND);
    Ok(Tokens::new(tokens, places, units, state.unit, step))
}
