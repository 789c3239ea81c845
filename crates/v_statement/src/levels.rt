//! The levels that are left below a statement.

ghost use Rattle.std.specs.Prelude.{◌≡◌, ◌+◌, IfOk};
ghost use Rattle.v_expression.specs.Phrase.Stops.{Gives};
ghost use Rattle.v_statement.specs.Reading.{levels, lower, statement_of};

use v_expression::phrase::{ReadError, too_deep};
use v_syntax::{StatementPlace, Token};

/// How many levels are left below what begins here and needs one. Without one it is too deep.
#[tactic(auto, unfolding(crate::specs::Reading::levels))]
pub fn below(room: usize, here: &[Token]) -> Result<usize, ReadError>
    ensures gives { Gives (λ r. r) result (levels room here.now) }
    ensures less { IfOk result (λ r. room ≡ r + 1) }
{
    if room == 0 {
        return Err(too_deep(here));
    }
    Ok(room - 1)
}

/// The same, where a statement stands one level down.
pub fn below_statement(
    total: usize,
    room: usize,
    place: StatementPlace,
    here: &[Token],
) -> Result<usize, ReadError>
    ensures gives { Gives (λ r. r) result (levels room here.now) }
    ensures less { IfOk result (λ r. room ≡ r + 1) }
    ensures lower { IfOk result (λ r. lower total room place ≡ statement_of total r place) }
{
    let below = below(room, here)?;
    Ok(below)
}
