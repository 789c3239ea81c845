//! The function of a factory, where both stand above a line.

ghost use Rattle.std.specs.Prelude.{◌≡◌, option_copied};
ghost use Rattle.std.specs.Option.{option_map};
ghost use Rattle.test_meaning.specs.Rules.File.{factory, function, made_by};
ghost use Rattle.test_names.specs.Scope.Around.{around_in};

use crate::items::made_at;
use py_syntax::Parameter;
use test_names::scope::{FileScope, parameters_at};

/// The name of the function that the factory of a name is for, where that factory stands above.
fn function_name<'a>(scope: &'a FileScope<'_>, name: &[u8]) -> Option<&'a [u8]>
    ensures { option_copied result ≡ option_map (λ x. x.function) (factory (around_in scope.now).above name.now) }
{
    let number = scope.tables.factories.find(name)?;
    if number < scope.above {
        let item = scope.whole.items.get(number)?;
        made_at(item)
    } else {
        None
    }
}

/// The parameters of the function of a name, where it stands above.
fn parameters<'a>(scope: &'a FileScope<'_>, name: &[u8]) -> Option<&'a [Parameter]>
    ensures { option_copied result ≡ option_map (λ d. d.parameters) (function (around_in scope.now).above name.now) }
{
    let number = scope.tables.functions.find(name)?;
    if number < scope.above {
        parameters_at(&scope.whole.items, number)
    } else {
        None
    }
}

/// The parameters of the function of the factory of a name, where both stand above.
pub(crate) fn made_parameters<'a>(scope: &'a FileScope<'_>, name: &[u8]) -> Option<&'a [Parameter]>
    ensures { option_copied result ≡ option_map (λ d. d.parameters) (made_by (around_in scope.now).above name.now) }
{
    let function = function_name(scope, name)?;
    parameters(scope, function)
}
