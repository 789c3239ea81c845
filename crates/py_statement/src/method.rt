//! The methods that statements call.

ghost use Rattle.std.specs.Prelude.{◌≡◌};
ghost use Rattle.py_statement.specs.Words.{called_name, called_of};

use py_syntax::{Action, LogLevel};

/// What a method is that a statement calls.
#[derive(Clone, Copy, Debug, PartialEq, Eq)]
pub enum Called {
    Act(Action),
    Log(LogLevel),
    SetImmediateValue,
    PutNow,
    StartSoon,
}

/// All such methods.
const ALL: [Called; 10] = [
    Called::Act(Action::Set),
    Called::Act(Action::Clear),
    Called::Act(Action::Release),
    Called::Act(Action::Kill),
    Called::Log(LogLevel::Info),
    Called::Log(LogLevel::Warning),
    Called::Log(LogLevel::Error),
    Called::SetImmediateValue,
    Called::PutNow,
    Called::StartSoon,
];

impl Called {
    /// The method's name.
    pub fn name(self) -> &'static [u8]
        ensures { result.now ≡ called_name self }
    {
        match self {
            Called::Act(action) => action.name(),
            Called::Log(level) => level.name(),
            Called::SetImmediateValue => b"setimmediatevalue",
            Called::PutNow => b"put_nowait",
            Called::StartSoon => b"start_soon",
        }
    }

    /// The method of this name.
    #[tactic(auto, unfolding(crate::specs::Words::called_of))]
    pub fn of(name: &[u8]) -> Option<Called>
        ensures { result ≡ called_of name.now }
    {
        ALL.iter().copied().find(|method| method.name() == name)
    }
}
