//! What an `except` catches (the language reference, 8.4).
ghost use Rattle.std.specs.Prelude.{◌≡◌};
ghost use Rattle.std.specs.List.{list_any};
ghost use Rattle.py_value.specs.Operator.Identity as identity;
ghost use Rattle.py_syntax.specs.StatementTrees.{view_caught};
ghost use Rattle.rig_model.specs.Task.Leaving as meaning;

use py_syntax::{Caught, FaultKind};

/// Whether both are one kind of fault.
pub fn same_kind(a: FaultKind, b: FaultKind) -> bool
    ensures { result ≡ identity.same_kind a b }
{
    a.name() == b.name()
}

/// Whether `except caught` catches a fault of this kind (the language reference, 8.4): one of its own kind, or any where `caught` is `Exception`.
pub fn catches_kind(caught: FaultKind, kind: FaultKind) -> bool
    ensures { result ≡ meaning.catches_kind kind caught }
{
    same_kind(caught, FaultKind::Exception) || same_kind(caught, kind)
}

/// Whether one of some kinds catches a fault of this kind.
fn catches_one(kinds: &[FaultKind], kind: FaultKind) -> bool
    ensures { result ≡ list_any (meaning.catches_kind kind) kinds.now }
{
    kinds.iter().any(|caught| catches_kind(*caught, kind))
}

/// Whether an `except` catches a fault of this kind: one without a kind catches all, as `Exception` does, and others those of their kinds.
pub fn catches(caught: &Caught, kind: FaultKind) -> bool
    ensures { result ≡ meaning.catches (view_caught caught.now) kind }
{
    match caught {
        Caught::All => true,
        Caught::Kind(k) => catches_kind(*k, kind),
        Caught::Kinds(kinds) => catches_one(kinds, kind),
        Caught::As(k, _) => catches_kind(*k, kind),
    }
}
