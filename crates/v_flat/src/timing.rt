//! Units of time, steps, and delays.

ghost use Rattle.std.specs.Prelude.{◌≡◌, ◌*◌};
ghost use Rattle.v_flat.specs.Delays.{few_steps, steps_of, whole_steps};

use four_value::Bits;

/// The longest delay of an assignment, in steps.
const MOST_DELAY: u128 = 4_611_686_018_427_387_904;

/// What a delay in a module goes by (IEEE 1364-2005, clause 19.8).
#[derive(Clone, Copy)]
pub struct Timing {
    /// The unit of time of the module, in femtoseconds.
    pub unit_fs: u64,
    /// The step of the design, in femtoseconds.
    pub step_fs: u64,
}

/// So many steps, if they are no more than the longest delay.
fn few_steps(steps: u128) -> Option<u64>
    ensures { result ≡ few_steps steps }
{
    if steps <= MOST_DELAY {
        Some(steps as u64)
    } else {
        None
    }
}

/// So many femtoseconds in steps of so many; none where they are no whole number of steps, or more than the longest delay.
#[tactic(auto, using(crate::proofs::Delays::no_step, crate::proofs::Delays::whole, crate::proofs::Delays::not_whole))]
fn whole_steps(femtoseconds: u128, step_fs: u64) -> Option<u64>
    ensures { result ≡ whole_steps femtoseconds step_fs }
{
    if step_fs == 0 {
        return None;
    }
    let step = step_fs as u128;
    if femtoseconds % step == 0 {
        few_steps(femtoseconds / step)
    } else {
        None
    }
}

/// So many units of time in steps, in the same way.
#[tactic(auto, using(crate::proofs::Delays::too_large))]
fn units_in_steps(number: u128, unit_fs: u64, step_fs: u64) -> Option<u64>
    ensures { result ≡ whole_steps (number * unit_fs) step_fs }
{
    match number.checked_mul(unit_fs as u128) {
        Some(femtoseconds) => whole_steps(femtoseconds, step_fs),
        None => None,
    }
}

impl Timing {
    /// The steps of a delay of so many units (IEEE 1364-2005, clauses 9.7.1 and 19.8); none where the number is 0 or has a digit that is x or
    /// z, or where the delay is no whole number of steps or more than 2^62 of them.
    pub fn steps(self, delay: Bits) -> Option<u64>
        ensures { result ≡ steps_of self delay }
    {
        match delay.to_number() {
            Some(0) => None,
            Some(number) => units_in_steps(number, self.unit_fs, self.step_fs),
            None => None,
        }
    }
}
