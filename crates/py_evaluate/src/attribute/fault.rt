//! What goes wrong in an operation that takes memory.
ghost use Rattle.std.specs.Prelude.{◌≡◌};
ghost use Rattle.py_evaluate.specs.declared.attribute.fault.OperationFault.TheVariants.{OutOfMemory, Raised};

use port_io::NoMemory;
use py_syntax::FaultKind;
use std::alloc::{AllocError, AllocFailed};

/// Why an operation gives no value.
#[derive(Clone, Copy, Debug, PartialEq, Eq)]
pub enum OperationFault {
    /// It raises a fault of this kind, whose text is empty.
    Raised(FaultKind),
    /// There is no memory for the value.
    OutOfMemory,
}

impl From<NoMemory> for OperationFault {
    ghost from_gives = { λ _ fault. fault ≡ OutOfMemory };

    fn from(_: NoMemory) -> OperationFault {
        OperationFault::OutOfMemory
    }
}

impl From<AllocError> for OperationFault {
    ghost from_gives = { λ _ fault. fault ≡ OutOfMemory };

    fn from(_: AllocError) -> OperationFault {
        OperationFault::OutOfMemory
    }
}

impl<T: Drop> From<AllocFailed<T>> for OperationFault {
    ghost from_gives = { λ _ fault. fault ≡ OutOfMemory };

    fn from(_: AllocFailed<T>) -> OperationFault {
        OperationFault::OutOfMemory
    }
}

impl From<FaultKind> for OperationFault {
    ghost from_gives = { λ kind fault. fault ≡ Raised kind };

    fn from(kind: FaultKind) -> OperationFault {
        OperationFault::Raised(kind)
    }
}
