//! Which modules `import` may name, what may be imported from them, what is known without an import, and what the decorator's options are.

ghost use Rattle.std.specs.List.{list_any};
ghost use Rattle.std.specs.Prelude.{◌≡◌, [], ◌∷◌};
ghost use Rattle.test_meaning.specs.Rules.File.{always_known, built_in, is_always_known};
ghost use Rattle.test_meaning.specs.Rules.Names.{is_among};
ghost use Rattle.test_meaning.specs.Rules.Rules.{
  handles,
  has_export,
  is_exported,
  is_right_value,
  is_text,
  is_truth,
  is_whole,
  modules,
  other_exports,
  queues,
  triggers,
};
ghost use Rattle.test_meaning.specs.Rules.Uses.{is_kind};

use py_syntax::{Const, FaultKind};

/// Whether there is a module of this name that `import` may name.
pub fn is_module(name: &[u8]) -> bool
    ensures { result ≡ is_among name.now modules }
{
    name == b"cocotb".as_slice() || name == b"random".as_slice()
}

/// Whether a tests file may import a name from `cocotb.triggers`: the profile has fewer than cocotb 1.8.
fn is_of_triggers(name: &[u8]) -> bool
    ensures { result ≡ is_among name.now triggers.names }
{
    name == b"Timer".as_slice()
        || name == b"Edge".as_slice()
        || name == b"RisingEdge".as_slice()
        || name == b"FallingEdge".as_slice()
        || name == b"ReadWrite".as_slice()
        || name == b"ReadOnly".as_slice()
        || name == b"NextTimeStep".as_slice()
        || name == b"Event".as_slice()
        || name == b"Lock".as_slice()
        || name == b"Join".as_slice()
        || name == b"First".as_slice()
        || name == b"Combine".as_slice()
        || name == b"ClockCycles".as_slice()
        || name == b"TriggerException".as_slice()
        || name == b"with_timeout".as_slice()
}

/// Whether a name is the only one that a tests file may import from its module.
fn is_only(name: &[u8], only: &[u8]) -> bool
    ensures { result ≡ is_among name.now (only.now ∷ []) }
{
    name == only
}

/// Whether a name may be imported from this module, which is `cocotb.triggers`.
fn has_trigger(origin: &[u8], name: &[u8]) -> bool
    ensures { result ≡ has_export origin.now name.now triggers }
{
    b"cocotb.triggers".as_slice() == origin && is_of_triggers(name)
}

/// Whether a name may be imported from this module, which is `cocotb.handle`: the profile has three of its actions.
fn has_action(origin: &[u8], name: &[u8]) -> bool
    ensures { result ≡ has_export origin.now name.now handles }
{
    b"cocotb.handle".as_slice() == origin
        && (name == b"Force".as_slice()
            || name == b"Freeze".as_slice()
            || name == b"Release".as_slice())
}

/// Whether a name may be imported from this module, which is `cocotb.queue`.
fn has_queue(origin: &[u8], name: &[u8]) -> bool
    ensures { result ≡ has_export origin.now name.now queues }
{
    b"cocotb.queue".as_slice() == origin
        && (name == b"Queue".as_slice()
            || name == b"QueueEmpty".as_slice()
            || name == b"QueueFull".as_slice())
}

/// Whether a name may be imported from this module, which is one of those with a single name.
fn has_single(origin: &[u8], name: &[u8]) -> bool
    ensures { result ≡ list_any (has_export origin.now name.now) other_exports }
{
    (b"cocotb.clock".as_slice() == origin && is_only(name, b"Clock"))
        || (b"cocotb.regression".as_slice() == origin && is_only(name, b"TestFactory"))
        || (b"cocotb.result".as_slice() == origin && is_only(name, b"SimTimeoutError"))
        || (b"cocotb.utils".as_slice() == origin && is_only(name, b"get_sim_time"))
}

/// Whether a name may be imported from the module of this name, the parts of which have dots between them.
pub fn is_exported(origin: &[u8], name: &[u8]) -> bool
    ensures { result ≡ is_exported origin.now name.now }
{
    has_trigger(origin, name)
        || has_action(origin, name)
        || has_queue(origin, name)
        || has_single(origin, name)
}

/// Whether a kind of fault is known without an import.
pub fn is_always_known(kind: FaultKind) -> bool
    ensures { result ≡ is_always_known kind }
{
    !matches!(
        kind,
        FaultKind::SimTimeoutError
            | FaultKind::TriggerException
            | FaultKind::QueueEmpty
            | FaultKind::QueueFull
    )
}

/// Whether a name is that of a kind of fault which is known without an import.
fn is_known_kind(name: &[u8]) -> bool
    ensures { result ≡ is_among name.now always_known }
{
    match FaultKind::of(name) {
        Some(kind) => is_always_known(kind),
        None => false,
    }
}

/// Whether a name is known in each file: one of Python's functions, or a kind of fault (the library reference, "Built-in Functions" and
/// "Built-in Exceptions").
pub fn is_built_in(name: &[u8]) -> bool
    ensures { result ≡ is_among name.now built_in }
{
    name == b"int".as_slice()
        || name == b"str".as_slice()
        || name == b"bool".as_slice()
        || name == b"len".as_slice()
        || name == b"range".as_slice()
        || is_known_kind(name)
}

/// Whether a constant is a truth value.
fn is_truth(value: &Const) -> bool
    ensures { result ≡ is_truth value.now }
{
    matches!(value, Const::Truth(_))
}

/// Whether a constant is a whole number.
fn is_whole(value: &Const) -> bool
    ensures { result ≡ is_whole value.now }
{
    matches!(value, Const::Whole(_))
}

/// Whether a constant is a text.
fn is_text(value: &Const) -> bool
    ensures { result ≡ is_text value.now }
{
    matches!(value, Const::Text(_))
}

/// Whether a constant is a name, and that of a kind of fault.
pub fn is_kind(value: &Const) -> bool
    ensures { result ≡ is_kind value.now }
{
    match value {
        Const::Named(name) => FaultKind::of(name.bytes()).is_some(),
        _ => false,
    }
}

/// Whether a tests file may give `cocotb.test` an option of this name with such a value. The profile has five of the options of
/// cocotb 1.8 (`cocotb.test`), and is strict on their kinds.
pub fn is_right_value(option: &[u8], value: &Const) -> bool
    ensures { result ≡ is_right_value option.now value.now }
{
    (b"timeout_time".as_slice() == option && is_whole(value))
        || (b"timeout_unit".as_slice() == option && is_text(value))
        || (b"expect_fail".as_slice() == option && is_truth(value))
        || (b"expect_error".as_slice() == option && is_kind(value))
        || (b"skip".as_slice() == option && is_truth(value))
}
