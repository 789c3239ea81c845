//! Activations.
ghost use Rattle.std.specs.Prelude.{◌≡◌, ◌≤◌, length, [], vec_capacity, OnOk, OnErr};
ghost use Rattle.gpi.specs.Terms.{widths_of};
ghost use Rattle.gpi.specs.Targets.{AreFitting};
ghost use Rattle.gpi.specs.Activation.{activation, IsSound};
ghost use Rattle.list_kernel.specs.Values.{AreSized, AreValues};
ghost use Rattle.list_kernel.specs.Updates.{AreUpdates, HasRoom, HasRun};

use crate::updates::Updates;
use crate::values::Values;
use gpi::Act;
use port_io::NoMemory;

/// One activation at this time: the values become what it leaves, and its updates wait. Without memory all values and updates
/// are as before. The values keep what was shown before it.
pub fn activate(
    act: &Act,
    now: u64,
    values: &mut Values,
    updates: &mut Updates,
) -> Result<(), NoMemory>
    requires values { AreValues values.old }
    requires updates { AreUpdates updates.old (widths_of values.old.shown.items) }
    requires sound { IsSound act.now (widths_of values.old.shown.items) }
    ensures values { AreValues values.new }
    ensures updates { AreUpdates updates.new (widths_of values.old.shown.items) }
    ensures widths { widths_of values.new.shown.items ≡ widths_of values.old.shown.items }
    ensures before { values.new.shown_before.items ≡ values.old.shown.items }
    ensures due { updates.new.due.items ≡ updates.old.due.items }
    ensures is { OnOk result (HasRun now
        (activation act.now (record { signals = values.old.shown.items; hidden = values.old.hidden.items; updates = [] }))
        updates.old updates.new values.new) }
    ensures shown { OnErr result (values.new.shown.items ≡ values.old.shown.items) }
    ensures hidden { OnErr result (values.new.hidden.items ≡ values.old.hidden.items) }
    ensures later { OnErr result (updates.new.later.items ≡ updates.old.later.items) }
    ensures delayed { OnErr result (updates.new.delayed.items ≡ updates.old.delayed.items) }
{
    values.keep();
    match run(act, values, updates) {
        Ok(()) => {
            updates.enqueue_appended(now);
            Ok(())
        }
        Err(e) => {
            values.put_back();
            updates.appended.clear();
            Err(e)
        }
    }
}

/// Runs the statement, and makes room for what it appends. Without memory the values are of no use until they are put back.
fn run(act: &Act, values: &mut Values, updates: &mut Updates) -> Result<(), NoMemory>
    requires values { AreValues values.old }
    requires sound { IsSound act.now (widths_of values.old.shown.items) }
    requires none { updates.old.appended.items ≡ [] }
    ensures sized { AreSized values.new }
    ensures values { OnOk result (AreValues values.new) }
    ensures widths { widths_of values.new.shown.items ≡ widths_of values.old.shown.items }
    ensures shown_kept { values.new.shown_before.items ≡ values.old.shown_before.items }
    ensures hidden_kept { values.new.hidden_before.items ≡ values.old.hidden_before.items }
    ensures any_forced { values.new.any_forced ≡ values.old.any_forced }
    ensures is { OnOk result (record { signals = values.new.shown.items; hidden = values.new.hidden.items; updates = updates.new.appended.items }
        ≡ activation act.now (record { signals = values.old.shown.items; hidden = values.old.hidden.items; updates = [] })) }
    ensures fits { OnOk result (AreFitting updates.new.appended.items (widths_of values.old.shown.items)) }
    ensures due { updates.new.due.items ≡ updates.old.due.items }
    ensures later { updates.new.later.items ≡ updates.old.later.items }
    ensures delayed { updates.new.delayed.items ≡ updates.old.delayed.items }
    ensures due_capacity { vec_capacity updates.old.due ≤ vec_capacity updates.new.due }
    ensures later_capacity { vec_capacity updates.old.later ≤ vec_capacity updates.new.later }
    ensures room { OnOk result (HasRoom (length updates.new.appended.items) updates.new) }
{
    values.run(act, &mut updates.appended)?;
    updates.make_room()
}
