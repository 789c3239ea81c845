//! What a turn comes to.
ghost use Rattle.std.specs.Prelude.{◌≡◌};
ghost use Rattle.scheduler.specs.Turns.{has_gone};

use await_tree::Given;
use port_io::NoMemory;
use rig_model::run::Outcome;

/// What a turn came to.
#[derive(Drop)]
pub enum Turn {
    /// The whole turn was done, and the test goes on; or no test runs, and the next one's start is still to come.
    Went,
    /// The planned start of the next test has fired.
    Due,
    /// The test has ended so.
    Over(Outcome),
    /// The fuel doesn't suffice for the next statement or event.
    Spent,
    /// The put of the next line of the turn's steps failed.
    WriteFault,
}

/// What becomes of a turn after something that its task wanted.
#[derive(Drop)]
pub enum Next {
    /// The task goes on, and is given this.
    GoesOn(Given),
    /// The turn ends so.
    Ends(Turn),
}

/// Whether the test goes on after such an answer.
pub fn has_gone(turn: &Result<Turn, NoMemory>) -> bool
    ensures { result ≡ has_gone turn.now }
{
    matches!(turn, Ok(Turn::Went))
}
