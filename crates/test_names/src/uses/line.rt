//! Lines of a module outside of its functions, and the headers of functions.

ghost use Rattle.std.specs.Prelude.{◌≡◌, [], ◌∷◌, map, codes};
ghost use Rattle.std.specs.List.{flat_map};
ghost use Rattle.py_syntax.specs.ModuleTrees.{view_module_line};
ghost use Rattle.test_meaning.specs.Rules.Uses.{Makes, Needs, default_uses, expects_kind, line_uses, needed, setting_use};
ghost use Rattle.test_names.specs.Uses.Answer.{answer};

use crate::uses::header::of_constants;
use crate::uses::{Scope, first_of};
use py_syntax::{Const, ModuleLine, Parameter, Setting};
use test_meaning::rules::{FileRule, is_kind};

/// Whether an option of the decorator is `expect_error` with a kind of fault.
pub fn expects_kind(setting: &Setting) -> bool
    ensures { result ≡ expects_kind setting.now }
{
    setting.name.bytes() == b"expect_error".as_slice() && is_kind(&setting.value)
}

/// The rule that a kind of fault breaks, where a constant is one.
fn of_needed<S: Scope>(scope: &S, constant: &Const) -> Option<FileRule>
    ensures { result ≡ answer (S.file scope.now) (S.around scope.now) (needed constant.now ∷ []) }
{
    match constant {
        Const::Named(name) => scope.needs(name.bytes()),
        other => scope.takes(other),
    }
}

/// The rule that an option of the decorator breaks.
fn of_setting<S: Scope>(scope: &S, setting: &Setting) -> Option<FileRule>
    ensures { result ≡ answer (S.file scope.now) (S.around scope.now) (setting_use setting.now ∷ []) }
{
    if expects_kind(setting) {
        of_needed(scope, &setting.value)
    } else {
        scope.takes(&setting.value)
    }
}

/// The rule that the options of the decorator break.
fn of_settings<S: Scope>(scope: &S, settings: &[Setting]) -> Option<FileRule>
    ensures { result ≡ answer (S.file scope.now) (S.around scope.now) (map setting_use settings.now) }
{
    let mut found = None;
    for setting in settings {
        found = first_of(found, of_setting(scope, setting));
    }
    found
}

/// The rule that a parameter's default breaks.
fn of_default<S: Scope>(scope: &S, parameter: &Parameter) -> Option<FileRule>
    ensures { result ≡ answer (S.file scope.now) (S.around scope.now) (default_uses parameter.now) }
{
    match &parameter.default {
        Some(constant) => scope.takes(constant),
        None => None,
    }
}

/// The rule that the defaults of parameters break.
pub fn of_defaults<S: Scope>(scope: &S, parameters: &[Parameter]) -> Option<FileRule>
    ensures { result ≡ answer (S.file scope.now) (S.around scope.now) (flat_map default_uses parameters.now) }
{
    let mut found = None;
    for parameter in parameters {
        found = first_of(found, of_default(scope, parameter));
    }
    found
}

/// The rule that a factory of a function breaks.
fn of_factory<S: Scope>(scope: &S, function: &[u8]) -> Option<FileRule>
    ensures { result ≡ answer (S.file scope.now) (S.around scope.now) (Needs (codes "TestFactory") ∷ Makes function.now ∷ []) }
{
    first_of(scope.needs(b"TestFactory"), scope.makes(function))
}

/// The rule that the uses of a line outside of functions break.
pub fn of_line<S: Scope>(scope: &S, line: &ModuleLine) -> Option<FileRule>
    ensures { result ≡ answer (S.file scope.now) (S.around scope.now) (line_uses (view_module_line line.now)) }
{
    match line {
        ModuleLine::Import(_) => None,
        ModuleLine::FromImport(_, _) => None,
        ModuleLine::Constant(_, constant) => scope.takes(constant),
        ModuleLine::Test(settings) => {
            first_of(scope.needs(b"cocotb"), of_settings(scope, settings))
        }
        ModuleLine::Factory(_, function) => of_factory(scope, function.bytes()),
        ModuleLine::AddOption(factory, _, constants) => first_of(
            scope.extends(factory.bytes()),
            of_constants(scope, constants),
        ),
        ModuleLine::GenerateTests(factory, _, _) => scope.extends(factory.bytes()),
        ModuleLine::Function(_, _) => None,
    }
}
