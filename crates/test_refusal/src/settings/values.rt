//! What constants stand for.

use py_syntax::Const;

/// What constants of a tests file stand for.
pub trait Values {
    ghost use Rattle.std.specs.Prelude.{◌≡◌};
    ghost use Rattle.test_meaning.specs.Rules.File.{File, value_in};

    /// What the whole file defines.
    ghost file: { Self → File };

    /// What a constant stands for: where it is the name of a constant of the file, the value of that one, and else itself.
    fn value_of<'a>(&'a self, constant: &'a Const) -> &'a Const
        ensures { result.now ≡ value_in (file self.now).constants constant.now };
}
