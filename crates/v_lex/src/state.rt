//! What the directives before a place have set.

ghost use Rattle.std.specs.Prelude.{◌≡◌, ◌≤◌, ◌<◌, ◌&&◌, not, length, Option, IfOk, OnOk, IfSome, ◌++◌, ◌∷◌, []};
ghost use Rattle.v_lex.specs.States.{state_of};
ghost use Rattle.v_lex.specs.Lexing.{innermost, outer, is_taken, opened, next_part, with_next_part, may_go_on, is_allowed};
ghost use Rattle.v_lex.specs.Lexing.{after_directive, start, least, nanosecond};

use crate::directive::{Conditional, Directive};
use crate::names::Names;
use port_io::NoMemory;
use std::alloc::Global;

/// Femtoseconds of the unit where no directive sets one.
pub const NANOSECOND: u64 = 1_000_000;

/// What the directives before a place have set.
#[derive(Drop)]
pub struct State {
    pub names: Names,
    /// The open conditionals, the innermost last.
    pub conditionals: Vec<Conditional>,
    /// The unit of time, in femtoseconds.
    pub unit: u64,
    /// The least precision so far, in femtoseconds.
    pub step: Option<u64>,
}

fn innermost(conditionals: &[Conditional]) -> Option<Conditional>
    ensures { result ≡ innermost conditionals.now }
{
    conditionals.last().copied()
}

/// Whether the part at hand is taken.
#[tactic(auto, unfolding(crate::specs::Lexing::is_taken))]
fn is_taken(conditionals: &[Conditional]) -> bool
    ensures { result ≡ is_taken conditionals.now }
{
    match innermost(conditionals) {
        Some(inner) => inner.is_taken,
        None => true,
    }
}

/// Whether the conditional at hand may have a further part.
fn may_go_on(conditionals: &[Conditional]) -> bool
    ensures { result ≡ may_go_on (innermost conditionals.now) }
{
    match innermost(conditionals) {
        Some(inner) => !inner.has_else,
        None => false,
    }
}

/// Opens a conditional, whose condition holds or not.
fn open(conditionals: &mut Vec<Conditional>, place: u32, holds: bool) -> Result<(), NoMemory>
    ensures { OnOk result (conditionals.new.items ≡ opened conditionals.old.items place holds) }
{
    let is_taken = is_taken(conditionals);
    conditionals.push(Conditional {
        place,
        is_taken: is_taken && holds,
        may_take: is_taken && !holds,
        has_else: false,
    })?;
    Ok(())
}

fn next_part(inner: Conditional, holds: bool, is_else: bool) -> Conditional
    ensures { result ≡ next_part inner holds is_else }
{
    Conditional {
        place: inner.place,
        is_taken: inner.may_take && holds,
        may_take: inner.may_take && !holds,
        has_else: is_else,
    }
}

/// Goes on to the next part of the conditional at hand, whose condition holds or not.
fn go_on(conditionals: &mut Vec<Conditional>, holds: bool, is_else: bool) -> Result<(), NoMemory>
    ensures { OnOk result (conditionals.new.items
        ≡ with_next_part conditionals.old.items holds is_else (innermost conditionals.old.items)) }
{
    match innermost(conditionals) {
        Some(inner) if !inner.has_else => {
            let _ = conditionals.pop();
            conditionals.push(next_part(inner, holds, is_else))?;
            Ok(())
        }
        _ => Ok(()),
    }
}

fn least(before: Option<u64>, precision: u64) -> u64
    ensures { result ≡ least before precision }
{
    match before {
        Some(step) => step.min(precision),
        None => precision,
    }
}

impl State {
    /// The state at the start of a text.
    #[tactic(auto, unfolding(crate::specs::Lexing::start))]
    pub fn start(alloc: Global) -> Result<State, NoMemory>
        ensures { IfOk result (λ s. state_of s ≡ start) }
    {
        let mut names = Names::new(alloc);
        names.define(alloc, b"COCOTB_SIM")?;
        Ok(State {
            names,
            conditionals: Vec::new(alloc),
            unit: NANOSECOND,
            step: None,
        })
    }

    /// Whether the part at hand is taken.
    pub fn is_taken(&self) -> bool
        ensures { result ≡ is_taken (state_of self.now).conditionals }
    {
        is_taken(&self.conditionals)
    }

    /// Whether the directive has its parts and stands where it may.
    #[tactic(auto, unfolding(crate::specs::Lexing::is_allowed))]
    pub fn is_allowed(&self, directive: &Directive) -> bool
        ensures { result ≡ is_allowed (state_of self.now) directive.now }
    {
        match directive {
            Directive::ElsIf(_) | Directive::Else => may_go_on(&self.conditionals),
            Directive::EndIf => innermost(&self.conditionals).is_some(),
            Directive::Unnamed | Directive::Broken => false,
            _ => true,
        }
    }

    /// What the directive at a place changes.
    #[tactic(auto, unfolding(crate::specs::Lexing::after_directive))]
    pub fn apply(&mut self, alloc: Global, place: u32, directive: Directive) -> Result<(), NoMemory>
        ensures { OnOk result (state_of self.new ≡ after_directive (state_of self.old) place directive) }
    {
        match directive {
            Directive::TimeScale(unit, precision) => {
                self.unit = unit;
                self.step = Some(least(self.step, precision));
                Ok(())
            }
            Directive::Define(name) => self.names.define(alloc, name.bytes()),
            Directive::Undef(name) => {
                self.names.undef(name.bytes());
                Ok(())
            }
            Directive::IfDef(name) => {
                let holds = self.names.contains(name.bytes());
                open(&mut self.conditionals, place, holds)
            }
            Directive::IfNDef(name) => {
                let holds = !self.names.contains(name.bytes());
                open(&mut self.conditionals, place, holds)
            }
            Directive::ElsIf(name) => {
                let holds = self.names.contains(name.bytes());
                go_on(&mut self.conditionals, holds, false)
            }
            Directive::Else => go_on(&mut self.conditionals, true, true),
            Directive::EndIf => {
                let _ = self.conditionals.pop();
                Ok(())
            }
            Directive::ResetAll => {
                self.unit = NANOSECOND;
                Ok(())
            }
            Directive::DefaultNetType | Directive::Broken => Ok(()),
            Directive::Unnamed => open(&mut self.conditionals, place, false),
        }
    }
}
