//! The state of a reader of VCD texts, line by line (IEEE 1364-2005, clause 18.2).
ghost use Rattle.std.specs.Prelude.{◌≡◌, ◌<◌, ◌≤◌, ℕ, List, false, length, Some, IfOk, OnOk, Decides, slice_get};
ghost use Rattle.name_table.specs.Places.{first_place};
ghost use Rattle.gpi.specs.Limits.{most_elements};
ghost use Rattle.vcd_text.specs.Hierarchy.{most_inner};
ghost use Rattle.vcd_text.specs.Forms.{IsScope, IsVar, IsTime, IsPair};
ghost use Rattle.vcd_text.specs.Rules.{begun, inner_path, with_instance, with_signal, Ends, IsOver, Takes};
ghost use Rattle.vcd_text.specs.Rules.{TakesWord, TakesStep, TakesTop, TakesEnd, TakesDeclaration, TakesOpening, TakesNext};
ghost use Rattle.vcd_text.specs.Reader.{Answers, IsChangeAt, IsCodeAt, IsKept, KeepsKnown, behind_opening};
ghost use Rattle.vcd_text.specs.Reader.{is_there, may_begin, may_have, may_tell, next_opening, state_of, with_change};

use crate::change::Change;
use crate::forms::{Pair, Var, is_step_line, pair_of, scope_name, time_in, var_of};
use crate::opening::digit_byte;
use crate::spelling::{code, value_line};
use four_value::Digit;
use name_table::Names;
use port_io::{Name, NoMemory};
use std::alloc::Global;
use std::mem;

/// The most instances of a design, and how many may stand inside one another below the top.
const MOST_INSTANCES: usize = 65_536;

const MOST_INNER: usize = 64;

/// The parts of a text, by what the next line is.
#[derive(Clone, Copy, Drop)]
pub(crate) enum Part {
    /// The step of time.
    Step,
    /// The begin of the top.
    Top,
    /// What is declared in an instance, or its end.
    Inside,
    /// The end of the declarations.
    Ended,
    /// Time 0.
    Start,
    /// The begin of the opening values.
    Dump,
    /// An opening value, or the end of these.
    Opening,
    /// A time or a change.
    Changes,
}

/// An instance whose end is still to come.
#[derive(Drop)]
pub(crate) struct Scope {
    pub(crate) path: Name,
    pub(crate) names: Names,
}

/// A signal that is declared.
#[derive(Drop)]
pub(crate) struct Known {
    pub(crate) number: usize,
    pub(crate) path: Name,
    pub(crate) width: u8,
    pub(crate) start: Digit,
}

/// What is known of a text behind some of its lines.
#[derive(Drop)]
pub(crate) struct Reader {
    pub(crate) part: Part,
    pub(crate) scope: Scope,
    pub(crate) outer: Vec<Scope>,
    pub(crate) nodes: usize,
    pub(crate) fresh: bool,
    pub(crate) free: usize,
    pub(crate) known: Vec<Known>,
    pub(crate) codes: Names,
    pub(crate) told: usize,
    pub(crate) time: u64,
    pub(crate) waits: bool,
    pub(crate) changes: Vec<Change>,
}

/// The path of what has this name in an instance. Only want of memory is an error.
fn path_in(alloc: Global, path: &[u8], name: &[u8]) -> Result<Name, NoMemory>
    ensures { IfOk result (λ inner. inner ≡ inner_path path.now name.now) }
{
    let mut inner = path.to_vec(alloc)?;
    inner.push(b'.')?;
    inner.extend_from_slice(name)?;
    Name::of(alloc, &inner)
}

/// An instance of that path, in which no name is used yet.
fn scope_at(alloc: Global, path: Name) -> Scope
    ensures path { result.path ≡ path }
    ensures none { (name : List ℕ) → is_there (first_place result.names name) ≡ false }
{
    Scope {
        path,
        names: Names::new(alloc),
    }
}

impl Reader {
    /// The reader before the first line.
    pub(crate) fn new(alloc: Global) -> Reader
        ensures begins { state_of result ≡ begun }
        ensures kept { IsKept result.codes result.known.items result.free }
    {
        Reader {
            part: Part::Step,
            scope: scope_at(alloc, Name::empty()),
            outer: Vec::new(alloc),
            nodes: 0,
            fresh: false,
            free: 0,
            known: Vec::new(alloc),
            codes: Names::new(alloc),
            told: 0,
            time: 0,
            waits: false,
            changes: Vec::new(alloc),
        }
    }

    /// Takes the line of the step.
    fn take_step(&mut self, line: &[u8]) -> bool
        ensures takes { Answers TakesStep (state_of self.old) line.now result (state_of self.new) }
        ensures known { KeepsKnown self.old self.new }
    {
        if !is_step_line(line) {
            return false;
        }
        self.part = Part::Top;
        true
    }

    /// Takes that line alone, behind which another part begins.
    fn take_word(&mut self, word: &[u8], next: Part, line: &[u8]) -> bool
        ensures takes { Answers (TakesWord word.now next) (state_of self.old) line.now result (state_of self.new) }
        ensures known { KeepsKnown self.old self.new }
    {
        if line != word {
            return false;
        }
        self.part = next;
        true
    }

    /// Takes the line with which the top begins.
    fn take_top(&mut self, alloc: Global, line: &[u8]) -> Result<bool, NoMemory>
        ensures takes { IfOk result (λ took. Answers TakesTop (state_of self.old) line.now took (state_of self.new)) }
        ensures known { KeepsKnown self.old self.new }
    {
        let Some(name) = scope_name(line) else {
            return Ok(false);
        };
        let path = Name::of(alloc, name)?;
        self.scope = scope_at(alloc, path);
        self.part = Part::Inside;
        self.nodes = 1;
        self.fresh = true;
        Ok(true)
    }

    /// Whether a name is used in the innermost instance.
    fn uses(&self, name: &[u8]) -> bool
        ensures { result ≡ is_there (first_place self.now.scope.names name.now) }
    {
        self.scope.names.find(name).is_some()
    }

    /// Whether an instance of that name may begin in the innermost one.
    fn may_begin(&self, name: &[u8]) -> bool
        ensures { result ≡ may_begin (state_of self.now) name.now }
    {
        !self.uses(name) && self.outer.len() < MOST_INNER && self.nodes < MOST_INSTANCES
    }

    /// An instance of that name begins in the innermost one.
    fn begin_instance(&mut self, alloc: Global, name: &[u8]) -> Result<(), NoMemory>
        requires { self.old.nodes < most_elements }
        ensures is { OnOk result (state_of self.new ≡ with_instance name.now (state_of self.old)) }
        ensures known { KeepsKnown self.old self.new }
    {
        let path = path_in(alloc, self.scope.path.bytes(), name)?;
        self.scope.names.note(alloc, name, 0)?;
        let outer = mem::replace(&mut self.scope, scope_at(alloc, path));
        self.outer.push(outer)?;
        self.nodes += 1;
        self.fresh = true;
        Ok(())
    }

    /// Takes the line with which an instance of that name begins.
    fn take_instance(&mut self, alloc: Global, line: &[u8], name: &[u8]) -> Result<bool, NoMemory>
        requires { IsScope line.now name.now }
        ensures takes { IfOk result (λ took. Answers TakesDeclaration (state_of self.old) line.now took (state_of self.new)) }
        ensures known { KeepsKnown self.old self.new }
    {
        if !self.may_begin(name) {
            return Ok(false);
        }
        self.begin_instance(alloc, name)?;
        Ok(true)
    }

    /// Whether the innermost instance may have a signal of that name and number.
    fn may_have(&self, name: &[u8], number: usize) -> bool
        ensures { result ≡ may_have (state_of self.now) name.now number }
    {
        self.fresh && self.free <= number && !self.uses(name)
    }

    /// A signal stands in the innermost instance.
    fn add_signal(&mut self, alloc: Global, var: Var<'_>) -> Result<(), NoMemory>
        requires kept { IsKept self.old.codes self.old.known.items self.old.free }
        requires small { var.number < most_elements }
        requires rises { self.old.free ≤ var.number }
        ensures is { OnOk result
            (state_of self.new ≡ with_signal var.entry.number var.entry.name.now var.entry.start var.entry.width (state_of self.old)) }
        ensures kept { OnOk result (IsKept self.new.codes self.new.known.items self.new.free) }
    {
        let path = path_in(alloc, self.scope.path.bytes(), var.name)?;
        let text = code(alloc, var.number)?;
        self.scope.names.note(alloc, var.name, 0)?;
        let place = self.known.len();
        self.known.push(Known {
            number: var.number,
            path,
            width: var.width,
            start: var.start,
        })?;
        self.codes.note(alloc, &text, place)?;
        self.free = var.number + 1;
        Ok(())
    }

    /// Takes the line of that signal.
    fn take_signal(&mut self, alloc: Global, line: &[u8], var: Var<'_>) -> Result<bool, NoMemory>
        requires is { IsVar line.now var.number var.name.now var.start var.width }
        requires kept { IsKept self.old.codes self.old.known.items self.old.free }
        ensures takes { IfOk result (λ took. Answers TakesDeclaration (state_of self.old) line.now took (state_of self.new)) }
        ensures kept { OnOk result (IsKept self.new.codes self.new.known.items self.new.free) }
    {
        if !self.may_have(var.name, var.number) {
            return Ok(false);
        }
        self.add_signal(alloc, var)?;
        Ok(true)
    }

    /// The innermost instance ends.
    fn end_instance(&mut self)
        ensures ends { Ends (state_of self.old) (state_of self.new) }
        ensures known { KeepsKnown self.old self.new }
    {
        match self.outer.pop() {
            Some(scope) => {
                self.scope = scope;
                self.fresh = false;
            }
            None => self.part = Part::Ended,
        }
    }

    /// Takes the line with which the innermost instance ends, or no line.
    fn take_end(&mut self, line: &[u8]) -> bool
        ensures takes { Answers TakesEnd (state_of self.old) line.now result (state_of self.new) }
        ensures known { KeepsKnown self.old self.new }
    {
        if line != b"$upscope $end\n".as_slice() {
            return false;
        }
        self.end_instance();
        true
    }

    /// Takes a line of what stands in the innermost instance, which isn't the begin of another one.
    fn take_inner(&mut self, alloc: Global, line: &[u8]) -> Result<bool, NoMemory>
        requires none { (name : List ℕ) → IsScope line.now name → ⊥ }
        requires kept { IsKept self.old.codes self.old.known.items self.old.free }
        ensures takes { IfOk result (λ took. Answers TakesDeclaration (state_of self.old) line.now took (state_of self.new)) }
        ensures kept { OnOk result (IsKept self.new.codes self.new.known.items self.new.free) }
    {
        match var_of(alloc, line) {
            Ok(Some(var)) => self.take_signal(alloc, line, var),
            Ok(None) => Ok(self.take_end(line)),
            Err(NoMemory) => Err(NoMemory),
        }
    }

    /// Takes a line of what stands in the innermost instance.
    fn take_declaration(&mut self, alloc: Global, line: &[u8]) -> Result<bool, NoMemory>
        requires kept { IsKept self.old.codes self.old.known.items self.old.free }
        ensures takes { IfOk result (λ took. Answers TakesDeclaration (state_of self.old) line.now took (state_of self.new)) }
        ensures kept { OnOk result (IsKept self.new.codes self.new.known.items self.new.free) }
    {
        match scope_name(line) {
            Some(name) => self.take_instance(alloc, line, name),
            None => self.take_inner(alloc, line),
        }
    }

    /// The line of the opening value of the next signal, where there is one, and else of the end of these. Only want of memory is an error.
    fn opening_line(&self, alloc: Global) -> Result<Vec<u8>, NoMemory>
        ensures { IfOk result (λ text. text.items ≡ next_opening (slice_get self.now.known.items self.now.told)) }
    {
        if self.told >= self.known.len() {
            return Ok(b"$end\n".to_vec(alloc)?);
        }
        let signal = &self.known[self.told];
        let digits = vec![in alloc; digit_byte(signal.start); signal.width as usize]?;
        value_line(alloc, signal.number, &digits)
    }

    /// Goes on behind an opening value, or to the changes.
    fn pass_opening(&mut self)
        ensures is { state_of self.new ≡ behind_opening (state_of self.old) }
        ensures known { KeepsKnown self.old self.new }
    {
        if self.told >= self.known.len() {
            self.part = Part::Changes;
        } else {
            self.told += 1;
        }
    }

    /// Takes that line alone, which is the next one among the opening values.
    fn take_own(&mut self, own: &[u8], line: &[u8]) -> bool
        requires { own.now ≡ next_opening (slice_get self.old.known.items self.old.told) }
        ensures takes { Answers TakesOpening (state_of self.old) line.now result (state_of self.new) }
        ensures known { KeepsKnown self.old self.new }
    {
        if own == line {
            self.pass_opening();
            true
        } else {
            false
        }
    }

    /// Takes the line of an opening value, or of the end of these.
    fn take_opening(&mut self, alloc: Global, line: &[u8]) -> Result<bool, NoMemory>
        ensures takes { IfOk result (λ took. Answers TakesOpening (state_of self.old) line.now took (state_of self.new)) }
        ensures known { KeepsKnown self.old self.new }
    {
        let own = self.opening_line(alloc)?;
        Ok(self.take_own(&own, line))
    }

    /// Whether that time may be told now: it is a later one, and there is a signal that may change then.
    fn may_tell(&self, time: u64) -> bool
        ensures { result ≡ may_tell (state_of self.now) time }
    {
        !self.waits && self.time < time && !self.known.is_empty()
    }

    /// Takes the line of that time.
    fn take_time(&mut self, line: &[u8], time: u64) -> bool
        requires { IsTime line.now time }
        ensures takes { Answers TakesNext (state_of self.old) line.now result (state_of self.new) }
        ensures known { KeepsKnown self.old self.new }
    {
        if !self.may_tell(time) {
            return false;
        }
        self.time = time;
        self.waits = true;
        true
    }

    /// The change of the signal at that place to these digits, where it has as many. Only want of memory is an error.
    fn change_at(
        &self,
        alloc: Global,
        place: usize,
        digits: &[u8],
    ) -> Result<Option<Change>, NoMemory>
        requires { place < length self.now.known.items }
        ensures { IfOk result (λ found. IsChangeAt (state_of self.now) (slice_get self.now.known.items place) digits.now found) }
    {
        let signal = &self.known[place];
        if signal.width as usize != digits.len() {
            return Ok(None);
        }
        let path = Name::of(alloc, signal.path.bytes())?;
        let digits = Name::of(alloc, digits)?;
        Ok(Some(Change {
            time: self.time,
            path,
            digits,
        }))
    }

    /// A change stands behind those before it.
    fn add_change(&mut self, change: Change) -> Result<(), NoMemory>
        ensures is { OnOk result (state_of self.new ≡ with_change change (state_of self.old)) }
        ensures known { KeepsKnown self.old self.new }
    {
        self.changes.push(change)?;
        self.waits = false;
        Ok(())
    }

    /// Takes the line of these digits of the signal at that place.
    fn take_digits(
        &mut self,
        alloc: Global,
        line: &[u8],
        place: usize,
        pair: Pair<'_>,
    ) -> Result<bool, NoMemory>
        requires none { (time : ℕ) → IsTime line.now time → ⊥ }
        requires is { IsPair line.now pair.digits.now pair.code.now }
        requires there { IsCodeAt self.old.known.items place pair.code.now }
        requires kept { IsKept self.old.codes self.old.known.items self.old.free }
        ensures takes { IfOk result (λ took. Answers TakesNext (state_of self.old) line.now took (state_of self.new)) }
        ensures known { KeepsKnown self.old self.new }
    {
        match self.change_at(alloc, place, pair.digits) {
            Ok(Some(change)) => {
                self.add_change(change)?;
                Ok(true)
            }
            Ok(None) => Ok(false),
            Err(NoMemory) => Err(NoMemory),
        }
    }

    /// Takes the line of these digits of the signal that has this code, if there is one.
    fn take_pair(&mut self, alloc: Global, line: &[u8], pair: Pair<'_>) -> Result<bool, NoMemory>
        requires none { (time : ℕ) → IsTime line.now time → ⊥ }
        requires is { IsPair line.now pair.digits.now pair.code.now }
        requires kept { IsKept self.old.codes self.old.known.items self.old.free }
        ensures takes { IfOk result (λ took. Answers TakesNext (state_of self.old) line.now took (state_of self.new)) }
        ensures known { KeepsKnown self.old self.new }
    {
        match self.codes.find(pair.code) {
            Some(place) => self.take_digits(alloc, line, place, pair),
            None => Ok(false),
        }
    }

    /// Takes the line of a change, or no line.
    fn take_change(&mut self, alloc: Global, line: &[u8]) -> Result<bool, NoMemory>
        requires none { (time : ℕ) → IsTime line.now time → ⊥ }
        requires kept { IsKept self.old.codes self.old.known.items self.old.free }
        ensures takes { IfOk result (λ took. Answers TakesNext (state_of self.old) line.now took (state_of self.new)) }
        ensures known { KeepsKnown self.old self.new }
    {
        match pair_of(line) {
            Some(pair) => self.take_pair(alloc, line, pair),
            None => Ok(false),
        }
    }

    /// Takes the line of a time or of a change.
    fn take_next(&mut self, alloc: Global, line: &[u8]) -> Result<bool, NoMemory>
        requires kept { IsKept self.old.codes self.old.known.items self.old.free }
        ensures takes { IfOk result (λ took. Answers TakesNext (state_of self.old) line.now took (state_of self.new)) }
        ensures known { KeepsKnown self.old self.new }
    {
        match time_in(alloc, line) {
            Ok(Some(time)) => Ok(self.take_time(line, time)),
            Ok(None) => self.take_change(alloc, line),
            Err(NoMemory) => Err(NoMemory),
        }
    }

    /// Takes the next line, with its line feed, where it may stand there. After `false` and after an error nothing is known of what was read.
    pub(crate) fn take(&mut self, alloc: Global, line: &[u8]) -> Result<bool, NoMemory>
        requires kept { IsKept self.old.codes self.old.known.items self.old.free }
        ensures takes { IfOk result (λ took. Answers Takes (state_of self.old) line.now took (state_of self.new)) }
        ensures kept { OnOk result (IsKept self.new.codes self.new.known.items self.new.free) }
    {
        match self.part {
            Part::Step => Ok(self.take_step(line)),
            Part::Top => self.take_top(alloc, line),
            Part::Inside => self.take_declaration(alloc, line),
            Part::Ended => Ok(self.take_word(b"$enddefinitions $end\n", Part::Start, line)),
            Part::Start => Ok(self.take_word(b"#0\n", Part::Dump, line)),
            Part::Dump => Ok(self.take_word(b"$dumpvars\n", Part::Opening, line)),
            Part::Opening => self.take_opening(alloc, line),
            Part::Changes => self.take_next(alloc, line),
        }
    }

    /// Whether a text may end here.
    pub(crate) fn is_over(&self) -> bool
        ensures { Decides result (IsOver (state_of self.now)) }
    {
        match self.part {
            Part::Changes => !self.waits,
            _ => false,
        }
    }
}
