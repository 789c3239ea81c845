//! The changes of an activation.
ghost use Rattle.std.specs.Prelude.{◌≡◌, ℕ, ◌<◌, ◌≤◌, ◌+◌, ◌++◌, ◌∷◌, [], length, List, drop, vec_len, vec_capacity};
ghost use Rattle.gpi.specs.Limits.{most_elements};
ghost use Rattle.gpi.specs.Activation.{Map};
ghost use Rattle.gpi.specs.State.{changes};
ghost use Rattle.v_exec.specs.Workspace.{AreTouched, sigs_of};
ghost use Rattle.kernel_base.specs.Lists.{AreBelow, AreDistinct};
ghost use Rattle.fast_kernel.specs.Changes.{told};

use four_value::Bits;
use gpi::Report;
use kernel_base::are_same;
use v_exec::Touched;

/// The changes among the touched signals, by rising number of the signal. It takes no memory.
pub fn tell_changes(touched: &[Touched], shown: &[Bits], reports: &mut Vec<Report>)
    requires below { AreBelow (length shown.now) (sigs_of touched.now) }
    requires distinct { AreDistinct (sigs_of touched.now) }
    requires none { reports.old.items ≡ [] }
    requires room { length shown.now ≤ vec_capacity reports.old }
    ensures is { (before : Map) → length before ≡ length shown.now → AreTouched before shown.now touched.now
        → reports.new.items ≡ changes 0 before shown.now }
    ensures room { vec_capacity reports.old ≤ vec_capacity reports.new }
{
    tell(touched, shown, reports);
    if reports.len() > 1 {
        reports.sort_unstable_by_key(|report| report.sig.0);
    }
}

/// The changes among the touched signals, in their order.
fn tell(touched: &[Touched], shown: &[Bits], reports: &mut Vec<Report>)
    requires below { AreBelow (length shown.now) (sigs_of touched.now) }
    requires distinct { AreDistinct (sigs_of touched.now) }
    requires none { reports.old.items ≡ [] }
    requires room { length shown.now ≤ vec_capacity reports.old }
    ensures is { reports.new.items ≡ told shown.now touched.now }
    ensures room { vec_capacity reports.old ≤ vec_capacity reports.new }
{
    let mut at = 0;
    while at < touched.len() {
        tell_one(&touched[at], shown, reports);
        at += 1;
    }
}

/// The change of a touched signal, if it shows something else.
fn tell_one(touch: &Touched, shown: &[Bits], reports: &mut Vec<Report>)
    requires inside { touch.now.sig.0 < length shown.now }
    requires room { vec_len reports.old < vec_capacity reports.old }
    ensures is { reports.new.items ≡ reports.old.items ++ told shown.now (touch.now ∷ []) }
    ensures few { vec_len reports.new ≤ vec_len reports.old + 1 }
    ensures room { vec_capacity reports.old ≤ vec_capacity reports.new }
{
    let after = shown[touch.sig.0 as usize];
    if !are_same(touch.before, after) {
        reports
            .push(Report {
                sig: touch.sig,
                before: touch.before,
                after,
            })
            .unwrap();
    }
}
