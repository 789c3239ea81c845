//! What an item uses.

ghost use Rattle.std.specs.Prelude.{◌≡◌, false, IfOk};
ghost use Rattle.py_syntax.specs.BlockTrees.{block_of, view_module_item};
ghost use Rattle.test_meaning.specs.Rules.Rules.{first_broken};
ghost use Rattle.test_meaning.specs.Rules.Uses.{block_lines, inner_lines, own_names, own_uses, with_names};
ghost use Rattle.test_names.specs.Scope.Around.{around_in, file_in};
ghost use Rattle.test_names.specs.Uses.Answer.{answer};

use port_io::NoMemory;
use py_syntax::{BlockItem, ModuleItem, Parameter};
use std::alloc::Global;
use test_meaning::rules::{FileRule, Refusal};
use test_names::locals::locals;
use test_names::scope::FileScope;
use test_names::uses::{Scope, of_block, of_defaults, of_line};

/// The rule that the uses of an item's own line break: those of a line outside of functions, or of a function's defaults.
#[tactic(auto, using(test_names::proofs::UsesLemmas::Answers::nothing))]
pub fn of_own_uses<S: Scope>(scope: &S, item: &ModuleItem) -> Option<FileRule>
    ensures { result ≡ answer (S.file scope.now) (S.around scope.now) (own_uses (view_module_item item.now)) }
{
    match item {
        ModuleItem::Docstring { .. } => None,
        ModuleItem::Line { line, .. } => of_line(scope, line),
        ModuleItem::Function { parameters, .. } => of_defaults(scope, parameters),
    }
}

/// The first line of a function's block that breaks a rule, and the rule, in a scope of the function's item. The names of that scope don't
/// matter, since the function has its own. Only want of memory is an error.
fn of_body(
    alloc: Global,
    scope: &FileScope<'_>,
    parameters: &[Parameter],
    body: &[BlockItem],
) -> Result<Option<Refusal>, NoMemory>
    ensures { IfOk result (λ refusal. refusal ≡ first_broken (file_in scope.now)
        (block_lines (with_names (around_in scope.now).above (own_names parameters.now (block_of body.now))) false (block_of body.now))) }
{
    let own = locals(alloc, parameters, body)?;
    let inner = FileScope {
        whole: scope.whole,
        tables: scope.tables,
        above: scope.above,
        locals: &own,
    };
    of_block(alloc, &inner, false, body)
}

/// The first line of an item's block that breaks a rule, and the rule, in a scope of that item; none where it has no block. The names of that
/// scope don't matter, since a function has its own. Only want of memory is an error.
pub fn of_inner_lines(
    alloc: Global,
    scope: &FileScope<'_>,
    item: &ModuleItem,
) -> Result<Option<Refusal>, NoMemory>
    ensures { IfOk result
        (λ refusal. refusal ≡ first_broken (file_in scope.now) (inner_lines (around_in scope.now).above (view_module_item item.now))) }
{
    match item {
        ModuleItem::Function {
            parameters,
            body,
            ..
        } => of_body(alloc, scope, parameters, body),
        _ => Ok(None),
    }
}
