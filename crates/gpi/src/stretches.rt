//! How far the width of each signal stretches: a table, filled once from the last signal to the first.
ghost use Rattle.std.specs.Prelude.{◌≡◌, ◌+◌, ◌<◌, ◌≤◌, length, slice_index};
ghost use Rattle.gpi.specs.Limits.{most_elements};
ghost use Rattle.gpi.specs.Design.{widths};
ghost use Rattle.gpi.specs.Stretches.{AreStretches, IsStretch, AreStretchesFrom};

use crate::design::Signal;
use port_io::Sequence;

/// The signals of a design, and for each how many from it on have its width without a break.
#[derive(Clone, Copy)]
pub(crate) struct WidthTable<'a> {
    pub signals: &'a Sequence<Signal>,
    /// The table may be longer than the list of signals.
    pub stretches: &'a [u32],
}

/// Notes for each signal how many signals from it on have its width without a break. The table may be longer.
#[tactic(auto, using(crate::proofs::Sound::signals, crate::proofs::StretchLaws::table))]
pub(crate) fn note_stretches(signals: &Sequence<Signal>, stretches: &mut [u32])
    requires few { length signals.now ≤ most_elements }
    requires room { length signals.now ≤ length stretches.old }
    ensures { AreStretches stretches.new (widths signals.now) }
{
    for at in (0..signals.len()).rev() {
        stretches[at] = stretch_from(at, signals, stretches);
    }
}

/// How many signals from this one on have its width, where that is known of the next.
#[tactic(auto, using(crate::proofs::Sound::signals, crate::proofs::StretchLaws::steps))]
fn stretch_from(at: usize, signals: &Sequence<Signal>, stretches: &[u32]) -> u32
    requires few { length signals.now ≤ most_elements }
    requires inside { at < length signals.now }
    requires known { AreStretchesFrom (at + 1) stretches.now (widths signals.now) }
    ensures { IsStretch result at (widths signals.now) }
{
    let next = at + 1;
    if next < signals.len() && signals.get(next).width == signals.get(at).width {
        stretches[next] + 1
    } else {
        1
    }
}
