//! Whether the lines of a factory are right.

ghost use Rattle.std.specs.Prelude.{◌≡◌};
ghost use Rattle.test_meaning.specs.Rules.Names.{is_among};
ghost use Rattle.test_meaning.specs.Rules.Uses.{parameter_names};

use crate::items::further;
use crate::makers::Makers;
use crate::makers::made::made_parameters;
use py_syntax::{ModuleItem, ModuleLine, Parameter};
use test_names::scope::FileScope;

/// Whether one of these parameters has this name.
fn has_parameter(parameters: &[Parameter], name: &[u8]) -> bool
    ensures { result ≡ is_among name.now (parameter_names parameters.now) }
{
    for parameter in parameters {
        if name == parameter.name.bytes() {
            return true;
        }
    }
    false
}

impl Makers {
    ghost use Rattle.std.specs.Prelude.{◌≡◌, ◌||◌, ◌&&◌, not, ℕ};
    ghost use Rattle.std.specs.List.{list_all};
    ghost use Rattle.py_syntax.specs.BlockTrees as tree;
    ghost use Rattle.py_syntax.specs.BlockTrees.{view_module_item};
    ghost use Rattle.py_syntax.specs.ModuleTrees.{view_module_line};
    ghost use Rattle.test_meaning.specs.Rules.File.{further, is_decorator, made_by};
    ghost use Rattle.test_meaning.specs.Rules.Rules.{has_right_options, is_complete, is_open_option};
    ghost use Rattle.test_names.specs.Scope.Around.{around_in, file_in};
    ghost use Rattle.test_refusal.specs.Makers.SoFar.{StandsAbove, has_option, has_value_in, is_generated};

    /// Whether a parameter has a default, or is an option of a factory.
    fn has_value(&self, factory: &[u8], parameter: &Parameter) -> bool
        ensures { result ≡ has_value_in self.now factory.now parameter.now }
    {
        parameter.default.is_some() || self.has_option(factory, parameter.name.bytes())
    }

    /// Whether each of these parameters has a default, or is an option of a factory.
    fn have_values(&self, factory: &[u8], parameters: &[Parameter]) -> bool
        ensures { result ≡ list_all (has_value_in self.now factory.now) parameters.now }
    {
        for parameter in parameters {
            if !self.has_value(factory, parameter) {
                return false;
            }
        }
        true
    }

    /// Whether an option may be added to a factory whose function has these parameters: it is a further one, it wasn't added yet, and no tests
    /// were generated.
    fn may_be_added(&self, factory: &[u8], option: &[u8], parameters: &[Parameter]) -> bool
        ensures { result ≡ (is_among option.now (parameter_names (further parameters.now))
            && not (has_option self.now factory.now option.now) && not (is_generated self.now factory.now)) }
    {
        has_parameter(further(parameters), option)
            && !self.has_option(factory, option)
            && !self.is_generated(factory)
    }

    /// Whether an option may be added to a factory on a line; yes where no function of its stands above.
    fn is_open_option(&self, scope: &FileScope<'_>, factory: &[u8], option: &[u8]) -> bool
        ensures { StandsAbove scope.now self.now → result ≡ is_open_option (file_in scope.now)
            (around_in scope.now).above factory.now option.now (made_by (around_in scope.now).above factory.now) }
    {
        match made_parameters(scope, factory) {
            Some(parameters) => self.may_be_added(factory, option, parameters),
            None => true,
        }
    }

    /// Whether the tests of a factory whose function has these parameters may be generated: each further one has a value, and they weren't before.
    fn may_generate(&self, factory: &[u8], parameters: &[Parameter]) -> bool
        ensures { result ≡ (list_all (has_value_in self.now factory.now) (further parameters.now) && not (is_generated self.now factory.now)) }
    {
        self.have_values(factory, further(parameters)) && !self.is_generated(factory)
    }

    /// Whether the tests of a factory may be generated on a line; yes where no function of its stands above.
    fn is_complete(&self, scope: &FileScope<'_>, factory: &[u8]) -> bool
        ensures { StandsAbove scope.now self.now
            → result ≡ is_complete (file_in scope.now) (around_in scope.now).above factory.now (made_by (around_in scope.now).above factory.now) }
    {
        match made_parameters(scope, factory) {
            Some(parameters) => self.may_generate(factory, parameters),
            None => true,
        }
    }

    /// Whether a line that adds an option to a factory or generates its tests may do so (cocotb 1.8, `TestFactory`); yes for any other line, a
    /// decorator too, for which others answer.
    fn line_has_right_options(&self, scope: &FileScope<'_>, line: &ModuleLine) -> bool
        ensures { (l : ℕ) → StandsAbove scope.now self.now → result ≡ (is_decorator (tree.LineAt l (view_module_line line.now))
            || has_right_options (file_in scope.now) (around_in scope.now).above (tree.LineAt l (view_module_line line.now))) }
    {
        match line {
            ModuleLine::AddOption(factory, option, _) => {
                self.is_open_option(scope, factory.bytes(), option.bytes())
            }
            ModuleLine::GenerateTests(factory, ..) => self.is_complete(scope, factory.bytes()),
            _ => true,
        }
    }

    /// Whether an item that adds an option to a factory or generates its tests may do so (else BadOption; cocotb 1.8, `TestFactory`); yes for any
    /// other item, a decorator too, for which others answer.
    pub fn has_right_options(&self, scope: &FileScope<'_>, item: &ModuleItem) -> bool
        ensures { StandsAbove scope.now self.now → result ≡ (is_decorator (view_module_item item.now)
            || has_right_options (file_in scope.now) (around_in scope.now).above (view_module_item item.now)) }
    {
        match item {
            ModuleItem::Line { line, .. } => self.line_has_right_options(scope, line),
            _ => true,
        }
    }
}
