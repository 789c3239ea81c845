//! Numbers of states.
ghost use Rattle.std.specs.Prelude.{◌≡◌};
ghost use Rattle.task_compile.specs.Reading.{falling, state_at};
ghost use Rattle.task_core.specs.States.{begins, read_at};

use crate::code::{Begun, Code, First, FirstHandler, Head};
use task_compile::{Action, Program, State};

/// A state of a program by its number, from 1 on; 0 is the end of a block, or of the handlers of a `try`.
#[derive(Clone, Copy)]
pub struct Numbered<'a> {
    pub(crate) program: &'a Program<'a>,
    pub(crate) number: usize,
}

/// What begins where a state does this; None of an `except`.
fn begun_of<'a>(action: Action<'a>) -> Option<Begun<'a>>
    ensures { result ≡ begins action.entry }
{
    match action {
        Action::Begin(item) => Some(Begun::Item(item)),
        Action::Elif(condition) => Some(Begun::Elif(condition)),
        Action::Except(_) => None,
    }
}

impl<'a> Numbered<'a> {
    /// The state of the number; None of the end.
    fn state(self) -> Option<State<'a>>
        ensures { result ≡ state_at self.entry.program.now.states.items self.entry.number }
    {
        if self.number == 0 {
            None
        } else {
            self.program.states.get(self.number - 1).copied()
        }
    }

    /// The place that this one leads to: a state of a lower number, else the end.
    fn lower(self, number: usize) -> Numbered<'a>
        ensures { result ≡ record self.entry { number = falling self.entry.number number } }
    {
        Numbered {
            program: self.program,
            number: if number < self.number { number } else { 0 },
        }
    }
}

impl<'a> Code<'a> for Numbered<'a> {
    ghost reads = { read_at };

    fn first(self) -> Option<First<'a, Numbered<'a>>> {
        match self.state() {
            Some(state) => match begun_of(state.action) {
                Some(begun) => Some(First {
                    head: Head {
                        begun,
                        first: self.lower(state.first),
                        second: self.lower(state.second),
                    },
                    rest: self.lower(state.next),
                }),
                None => None,
            },
            None => None,
        }
    }

    fn cost(self) -> Option<u64> {
        match self.state() {
            Some(state) => match begun_of(state.action) {
                Some(begun) => Some(begun.cost()),
                None => None,
            },
            None => None,
        }
    }

    fn first_handler(self) -> Option<FirstHandler<'a, Numbered<'a>>> {
        match self.state() {
            Some(state) => match state.action {
                Action::Except(caught) => Some(FirstHandler {
                    caught,
                    block: self.lower(state.first),
                    rest: self.lower(state.next),
                }),
                Action::Begin(_) | Action::Elif(_) => None,
            },
            None => None,
        }
    }
}
