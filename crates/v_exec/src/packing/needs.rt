//! What instructions need.
ghost use Rattle.std.specs.Prelude.{◌≡◌, ◌+◌, ◌<◌, max};
ghost use Rattle.v_exec.specs.Packing.{too_many, deepest};

/// What instructions need to run.
#[derive(Clone, Copy)]
pub(crate) struct Needs {
    /// Room for so many operands, besides those that they find.
    pub(crate) depth: usize,
    /// The most stores that they do.
    pub(crate) stores: usize,
}

impl Needs {
    /// Nothing.
    pub(crate) fn none() -> Self
        ensures { result ≡ record { depth = 0; stores = 0 } }
    {
        Needs {
            depth: 0,
            stores: 0,
        }
    }

    /// What one of the two needs, whichever runs.
    pub(crate) fn or(self, other: Needs) -> Self
        ensures { result ≡ record { depth = max self.depth other.depth; stores = max self.stores other.stores } }
    {
        Needs {
            depth: self.depth.max(other.depth),
            stores: self.stores.max(other.stores),
        }
    }

    /// What both need, one after the other.
    pub(crate) fn then(self, next: Needs) -> Self
        requires { self.stores + next.stores < too_many }
        ensures { result ≡ record { depth = max self.depth next.depth; stores = self.stores + next.stores } }
    {
        Needs {
            depth: self.depth.max(next.depth),
            stores: self.stores + next.stores,
        }
    }

    /// What these need behind an expression that needs room for so many operands, and whose value is gone.
    pub(crate) fn behind(self, depth: usize) -> Self
        ensures { result ≡ record { depth = max depth self.depth; stores = self.stores } }
    {
        Needs {
            depth: depth.max(self.depth),
            stores: self.stores,
        }
    }

    /// What these need behind an expression that needs room for so many operands, and whose value stays below.
    pub(crate) fn above(self, depth: usize) -> Self
        requires { self.depth < too_many }
        ensures { result ≡ record { depth = deepest depth self.depth; stores = self.stores } }
    {
        Needs {
            depth: depth.max(self.depth + 1),
            stores: self.stores,
        }
    }
}
