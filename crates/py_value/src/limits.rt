//! How large a trigger is.
ghost use Rattle.std.specs.Prelude.{◌≡◌};
ghost use Rattle.py_value.specs.Trigger.{row, is_small};
ghost use Rattle.py_value.specs.TriggerView.{view_form};
ghost use Rattle.py_value.specs.Extents as meaning;

use crate::{Form, Trig, Trigs};

/// How many leaves a trigger may have, `leaf_limit` in `specs/Limits.antt`.
const LEAF_LIMIT: u8 = 64;

/// How many triggers may stand inside one another, `depth_limit` there.
const DEPTH_LIMIT: u8 = 64;

/// How many leaves something has, and how many triggers stand inside one another there. Counts over the limits are `CUT`.
#[derive(Clone, Copy, Debug)]
pub(crate) struct Extent {
    leaves: u8,
    depth: u8,
}

/// Where all counts over the limits are alike.
const CUT: u8 = 65;

/// That of a trigger around something, with so many leaves besides.
fn around(inside: Extent, leaves: u8) -> Extent
    ensures { result ≡ meaning.around inside leaves }
{
    Extent {
        leaves: inside.leaves.saturating_add(leaves).min(CUT),
        depth: inside.depth.saturating_add(1).min(CUT),
    }
}

/// That of two things side by side.
fn beside(a: Extent, b: Extent) -> Extent
    ensures { result ≡ meaning.beside a b }
{
    Extent {
        leaves: a.leaves.saturating_add(b.leaves).min(CUT),
        depth: a.depth.max(b.depth),
    }
}

/// That of a trigger.
#[cycle(extents)]
fn trig_extent(trig: &Trig) -> Extent
    ensures { result ≡ meaning.trig_extent trig.now }
{
    form_extent(&trig.form)
}

/// That of what a trigger waits for.
#[cycle(extents)]
fn form_extent(form: &Form) -> Extent
    ensures { result ≡ meaning.extent (view_form form.now) }
{
    match form {
        Form::First(parts) => around(row_extent(parts), 0),
        Form::Combine(parts) => around(row_extent(parts), 0),
        Form::Limit { inner, .. } => around(row_extent(inner), 1),
        _ => Extent {
            leaves: 1,
            depth: 1,
        },
    }
}

/// That of triggers side by side.
#[cycle(extents)]
fn row_extent(trigs: &Trigs) -> Extent
    ensures { result ≡ meaning.row_extent (row trigs.now.list.items) }
{
    let mut extent = Extent {
        leaves: 0,
        depth: 0,
    };
    for trig in &trigs.list {
        extent = beside(extent, trig_extent(trig));
    }
    extent
}

impl Form {
    /// Whether a trigger that waits for this keeps within the limits of triggers that are made: 1 to 64 leaves, and at most 64
    /// triggers inside one another. It takes no memory.
    #[tactic(auto, using(crate::proofs::Cuts::small_cut))]
    pub fn is_small(&self) -> bool
        ensures { result ≡ is_small (view_form self.now) }
    {
        let extent = form_extent(self);
        1 <= extent.leaves && extent.leaves <= LEAF_LIMIT && extent.depth <= DEPTH_LIMIT
    }
}
