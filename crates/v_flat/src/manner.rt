//! How a value comes to a target.

ghost use Rattle.std.specs.Prelude.{◌≡◌};
ghost use Rattle.v_flat.specs.Targets.{fits_kind};

use crate::scope::DataKind;

/// How a value comes to a target.
#[derive(Clone, Copy)]
pub enum Manner {
    /// By an assignment in a procedure: to registers and to words of memories (IEEE 1364-2005, clause 9.2).
    Procedural,
    /// By a continuous assignment or a connection: to nets (clauses 6.1 and 12.3.9). Indices have to be constants.
    Continuous,
}

impl Manner {
    /// Whether an object of this kind may be a target of an assignment in this manner. That an input is driven from outside is another
    /// rule.
    pub fn fits(self, kind: DataKind) -> bool
        ensures { result ≡ fits_kind self kind }
    {
        match self {
            Manner::Procedural => match kind {
                DataKind::Register => true,
                DataKind::Net | DataKind::Input => false,
            },
            Manner::Continuous => match kind {
                DataKind::Net | DataKind::Input => true,
                DataKind::Register => false,
            },
        }
    }
}
