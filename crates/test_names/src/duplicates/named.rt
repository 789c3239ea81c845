//! What has a name.

ghost use Rattle.std.specs.Prelude.{◌≡◌};

use port_io::Name;
use py_syntax::{Parameter, Setting};

/// What has a name.
pub trait Named {
    ghost use Rattle.std.specs.Prelude.{◌≡◌};
    ghost use Rattle.test_meaning.specs.Rules.Names.{Name};

    /// Its name.
    ghost name: { Self → Name };

    /// Its name.
    fn name(&self) -> &[u8]
        ensures { result.now ≡ name self.now };
}

impl Named for Name {
    ghost name = { λ n. n };

    fn name(&self) -> &[u8] {
        self.bytes()
    }
}

impl Named for Parameter {
    ghost name = { λ p. p.name };

    fn name(&self) -> &[u8] {
        self.name.bytes()
    }
}

impl Named for Setting {
    ghost name = { λ s. s.name };

    fn name(&self) -> &[u8] {
        self.name.bytes()
    }
}
