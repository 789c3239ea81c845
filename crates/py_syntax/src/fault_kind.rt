//! The kinds of faults.

ghost use Rattle.std.specs.Prelude.{◌≡◌};
ghost use Rattle.py_syntax.specs.StatementTables.{fault_name, fault_of};

/// A kind of fault: an exception's class (the library reference, "Built-in Exceptions"), or one of cocotb's.
#[derive(Clone, Copy, Debug, PartialEq, Eq)]
pub enum FaultKind {
    AssertionError,
    AttributeError,
    IndexError,
    OverflowError,
    QueueEmpty,
    QueueFull,
    RuntimeError,
    SimTimeoutError,
    TriggerException,
    TypeError,
    UnboundLocalError,
    ValueError,
    ZeroDivisionError,
    Exception,
}

/// All kinds.
const KINDS: [FaultKind; 14] = [
    FaultKind::AssertionError,
    FaultKind::AttributeError,
    FaultKind::IndexError,
    FaultKind::OverflowError,
    FaultKind::QueueEmpty,
    FaultKind::QueueFull,
    FaultKind::RuntimeError,
    FaultKind::SimTimeoutError,
    FaultKind::TriggerException,
    FaultKind::TypeError,
    FaultKind::UnboundLocalError,
    FaultKind::ValueError,
    FaultKind::ZeroDivisionError,
    FaultKind::Exception,
];

impl FaultKind {
    /// The kind's name.
    pub fn name(self) -> &'static [u8]
        ensures { result.now ≡ fault_name self }
    {
        match self {
            FaultKind::AssertionError => b"AssertionError",
            FaultKind::AttributeError => b"AttributeError",
            FaultKind::IndexError => b"IndexError",
            FaultKind::OverflowError => b"OverflowError",
            FaultKind::QueueEmpty => b"QueueEmpty",
            FaultKind::QueueFull => b"QueueFull",
            FaultKind::RuntimeError => b"RuntimeError",
            FaultKind::SimTimeoutError => b"SimTimeoutError",
            FaultKind::TriggerException => b"TriggerException",
            FaultKind::TypeError => b"TypeError",
            FaultKind::UnboundLocalError => b"UnboundLocalError",
            FaultKind::ValueError => b"ValueError",
            FaultKind::ZeroDivisionError => b"ZeroDivisionError",
            FaultKind::Exception => b"Exception",
        }
    }

    /// The kind of this name.
    #[tactic(auto, unfolding(crate::specs::StatementTables::fault_of))]
    pub fn of(name: &[u8]) -> Option<FaultKind>
        ensures { result ≡ fault_of name.now }
    {
        KINDS.iter().copied().find(|kind| kind.name() == name)
    }
}
