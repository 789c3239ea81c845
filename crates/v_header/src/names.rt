//! The names that a module declares.
//!
//! After want of memory a scope that was being filled is dropped, so no clause speaks of what its names then mean.

ghost use Rattle.std.specs.Prelude.{◌≡◌, ℕ, List, map, IfOk, OnOk};
ghost use Rattle.v_flat.specs.Scope.Scope.{means};
ghost use Rattle.v_syntax.specs.SourceTrees.{
  HeaderPortTree,
  NetTree,
  RegisterTree,
  view_header_port,
  view_item,
  view_module,
  view_net,
  view_ports,
  view_register,
};
ghost use Rattle.v_flat.specs.Headers as tree;
ghost use Rattle.v_flat.specs.Headers.{all_names, header_names, later, name_of, names_in, net_name, register_name};
ghost use Rattle.v_header.specs.Names.{and_later, header_port_name, item_names, parameter_name};
ghost use Rattle.v_header.specs.Parameters.{parameter_in};

use crate::parameters::{Parameter, parameters_of};
use port_io::NoMemory;
use std::alloc::Global;
use v_flat::scope::{Meaning, Scope};
use v_syntax::{
    HeaderPort, HeaderPorts, Identifier, Item, ItemKind, Module, NetDeclarator, RegisterDeclarator,
};

/// What declares one name.
trait Declares {
    /// What its trees are.
    ghost Tree: { Type 0 };

    /// Its tree.
    ghost tree: { Self → Tree };

    /// The name that a tree declares.
    ghost name: { Tree → List ℕ };

    /// The name that it declares.
    fn name(&self) -> &[u8]
        ensures { result.now ≡ name (tree self.now) };
}

impl Declares for Identifier {
    ghost Tree = { List ℕ };

    ghost tree = { name_of };

    ghost name = { λ n. n };

    fn name(&self) -> &[u8] {
        self.name.bytes()
    }
}

impl Declares for NetDeclarator {
    ghost Tree = { NetTree };

    ghost tree = { view_net };

    ghost name = { net_name };

    fn name(&self) -> &[u8] {
        self.name.name.bytes()
    }
}

impl Declares for RegisterDeclarator {
    ghost Tree = { RegisterTree };

    ghost tree = { view_register };

    ghost name = { register_name };

    fn name(&self) -> &[u8] {
        self.name.name.bytes()
    }
}

impl Declares for HeaderPort {
    ghost Tree = { HeaderPortTree };

    ghost tree = { view_header_port };

    ghost name = { header_port_name };

    fn name(&self) -> &[u8] {
        self.name.name.bytes()
    }
}

impl Declares for Parameter<'_> {
    ghost Tree = { tree.Parameter };

    ghost tree = { parameter_in };

    ghost name = { parameter_name };

    fn name(&self) -> &[u8] {
        self.name.name.bytes()
    }
}

/// From now on each of these names is declared further on. Only want of memory is an error.
fn declare_names<T: Declares>(scope: &mut Scope, alloc: Global, parts: &[T]) -> Result<(), NoMemory>
    ensures { OnOk result (means scope.new ≡ and_later (map T.name (map T.tree parts.now)) (means scope.old)) }
{
    for part in parts {
        scope.declare(alloc, part.name(), Meaning::Later)?;
    }
    Ok(())
}

/// From now on each name that an item declares, but for those of parameters, is declared further on. Only want of memory is an error.
#[tactic(auto, using(crate::proofs::LaterNames::item_steps))]
fn declare_item(scope: &mut Scope, alloc: Global, item: &Item) -> Result<(), NoMemory>
    ensures { OnOk result (means scope.new ≡ and_later (item_names (view_item item.now)) (means scope.old)) }
{
    match &item.kind {
        ItemKind::Ports { names, .. } => declare_names(scope, alloc, names),
        ItemKind::Nets { declarators, .. } => declare_names(scope, alloc, declarators),
        ItemKind::Registers { declarators, .. } => declare_names(scope, alloc, declarators),
        ItemKind::Integers(names) => declare_names(scope, alloc, names),
        _ => Ok(()),
    }
}

/// From now on each name that items declare, but for those of parameters, is declared further on. Only want of memory is an error.
fn declare_items(scope: &mut Scope, alloc: Global, items: &[Item]) -> Result<(), NoMemory>
    ensures { OnOk result (means scope.new ≡ and_later (names_in (map view_item items.now)) (means scope.old)) }
{
    for item in items {
        declare_item(scope, alloc, item)?;
    }
    Ok(())
}

/// From now on each name that a header declares is declared further on: none where it only names its ports. Only want of memory is an
/// error.
#[tactic(auto, using(crate::proofs::LaterNames::header_steps))]
fn declare_header(scope: &mut Scope, alloc: Global, ports: &HeaderPorts) -> Result<(), NoMemory>
    ensures { OnOk result (means scope.new ≡ and_later (header_names (view_ports ports.now)) (means scope.old)) }
{
    match ports {
        HeaderPorts::Named(_) => Ok(()),
        HeaderPorts::Declared(ports) => declare_names(scope, alloc, ports),
    }
}

/// From now on each parameter of a module is declared further on. Only want of memory is an error.
fn declare_parameters(scope: &mut Scope, alloc: Global, module: &Module) -> Result<(), NoMemory>
    ensures { OnOk result (means scope.new ≡ and_later (map parameter_name (tree.parameters_of (view_module «module».now))) (means scope.old)) }
{
    let parameters = parameters_of(alloc, module)?;
    declare_names(scope, alloc, &parameters)
}

/// From now on each name that a module declares is declared further on. Only want of memory is an error.
#[tactic(auto, using(crate::proofs::LaterNames::in_three))]
fn declare_all(scope: &mut Scope, alloc: Global, module: &Module) -> Result<(), NoMemory>
    ensures { OnOk result (means scope.new ≡ and_later (all_names (view_module «module».now)) (means scope.old)) }
{
    declare_parameters(scope, alloc, module)?;
    declare_header(scope, alloc, &module.ports)?;
    declare_items(scope, alloc, &module.items)
}

/// A scope in which each name that a module declares is declared further on, and no other name is (IEEE 1364-2005, clause 4.11): what its
/// names mean where constants alone count. Only want of memory is an error.
pub fn later_names(alloc: Global, module: &Module) -> Result<Scope, NoMemory>
    ensures { IfOk result (λ scope. means scope ≡ later (all_names (view_module «module».now))) }
{
    let mut scope = Scope::new(alloc);
    declare_all(&mut scope, alloc, module)?;
    Ok(scope)
}
