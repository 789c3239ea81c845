//! The names that a line of a block assigns.

ghost use Rattle.std.specs.Prelude.{◌≡◌};
ghost use Rattle.py_syntax.specs.StatementTrees.{view_header, view_statement};
ghost use Rattle.test_meaning.specs.Rules.Uses.{assigned_by, named_by};

use port_io::Name;
use py_syntax::{Caught, Header, Statement};
use std::slice::from_ref;

/// The name that a statement assigns; none where it assigns none.
pub(crate) fn assigned_by(statement: &Statement) -> &[Name]
    ensures { result.now ≡ assigned_by (view_statement statement.now) }
{
    match statement {
        Statement::Assign(name, _) => from_ref(name),
        Statement::AugmentedAssign(name, _, _) => from_ref(name),
        _ => &[],
    }
}

/// The name that a header assigns, of a `for` or of an `except` with `as`; none where it assigns none.
pub(crate) fn named_by(header: &Header) -> &[Name]
    ensures { result.now ≡ named_by (view_header header.now) }
{
    match header {
        Header::For(name, _) => from_ref(name),
        Header::Except(caught) => match caught {
            Caught::As(_, name) => from_ref(name),
            _ => &[],
        },
        _ => &[],
    }
}
