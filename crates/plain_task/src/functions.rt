//! The functions of a file.
ghost use Rattle.std.specs.Prelude.{◌≡◌, map, IfOk};
ghost use Rattle.test_meaning.specs.Body.Views.{view_function};
ghost use Rattle.task_core.specs.Code.Functions.{function_of};
ghost use Rattle.plain_task.specs.Tree.{read_tree};

use crate::tree::Tree;
use port_io::NoMemory;
use std::alloc::Global;
use task_core::code::Callable;
use test_meaning::body::TestFile;

/// The functions of a file, by number, each with the place of its first statement.
#[derive(Drop)]
pub struct TreeFunctions<'a> {
    pub(crate) functions: Vec<Callable<'a, Tree<'a>>>,
}

impl<'a> TreeFunctions<'a> {
    /// Those of this file. Only want of memory is an error.
    pub fn of(alloc: Global, file: &'a TestFile) -> Result<TreeFunctions<'a>, NoMemory>
        ensures { IfOk result (λ all. map (function_of read_tree) all.functions.items ≡ map view_function file.now.functions) }
    {
        let mut functions = Vec::new(alloc);
        for at in 0..file.functions.len() {
            let function = file.functions.get(at);
            functions.push(Callable {
                parameters: &function.parameters,
                others: &function.others,
                body: Tree::Items(&function.body),
            })?;
        }
        Ok(TreeFunctions { functions })
    }
}
