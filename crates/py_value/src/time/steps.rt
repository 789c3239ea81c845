//! Counts of steps.
ghost use Rattle.std.specs.Prelude.{◌≡◌, ◌≤◌, ◌*◌, ◌+◌, ◌%◌, nat_eq, nat_lt, if◌then◌else◌, Some, None};
ghost use Rattle.py_value.specs.Answer.{answer_map};
ghost use Rattle.py_value.specs.Time.Times as meaning;
ghost use Rattle.py_value.specs.Time.Counts as counts;

use py_syntax::FaultKind;

/// The longest time that a trigger waits, in steps: `step_limit` of `py_value`.
const STEP_LIMIT: u128 = 1 << 62;

/// A count of steps, as far as it is asked for.
#[derive(Clone, Copy, Debug)]
pub struct Steps {
    /// The count, where it is no more than the longest time.
    pub few: Option<u64>,
    /// Whether the count is odd.
    pub odd: bool,
}

/// The count, where it is no more than the longest time.
fn few(count: u128) -> Option<u64>
    ensures { result ≡ counts.few count }
{
    if count > STEP_LIMIT {
        None
    } else {
        Some(count as u64)
    }
}

/// `turns * unit + more`, where the code can hold it.
fn total(turns: u128, unit: u128, more: u128) -> Option<u128>
    ensures { result ≡ (if nat_lt (turns * unit + more) counts.count_limit then Some (turns * unit + more) else None) }
{
    turns.checked_mul(unit)?.checked_add(more)
}

/// So many steps, which are odd or even as told. None is a ValueError.
fn some_steps(count: u128, odd: bool) -> Result<Steps, FaultKind>
    ensures { odd ≡ nat_eq (count % 2) 1 → result ≡ answer_map counts.kept (counts.some_steps count) }
{
    if count == 0 {
        Err(FaultKind::ValueError)
    } else {
        Ok(Steps {
            few: few(count),
            odd,
        })
    }
}

/// `turns * unit + more` steps. None is a ValueError.
fn counted(turns: u128, unit: u128, more: u128) -> Result<Steps, FaultKind>
    ensures { result ≡ answer_map counts.kept (counts.some_steps (turns * unit + more)) }
{
    let odd = (turns % 2 * (unit % 2) + more % 2) % 2 == 1;
    match total(turns, unit, more) {
        Some(count) => some_steps(count, odd),
        None => Ok(Steps { few: None, odd }),
    }
}

/// `n` times so many femtoseconds as steps that have so many each: a whole number of them, at least one; everything else is a
/// ValueError.
#[tactic(auto, using(crate::proofs::TimeLemmas::Division::divided, crate::proofs::TimeLemmas::Division::rest))]
pub(crate) fn whole_steps(step_fs: u64, n: u128, fs: u64) -> Result<Steps, FaultKind>
    requires { 1 ≤ step_fs }
    ensures { result ≡ answer_map counts.kept (meaning.whole_steps step_fs (n * fs)) }
{
    let step = step_fs as u128;
    let unit = fs as u128;
    let rest = n % step * unit;
    if rest % step == 0 {
        counted(n / step, unit, rest / step)
    } else {
        Err(FaultKind::ValueError)
    }
}
