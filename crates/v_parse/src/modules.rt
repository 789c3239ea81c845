//! Modules.

ghost use Rattle.std.specs.Prelude.{◌≡◌, ◌<◌, [], ◌∷◌, ◌++◌, map, option_map, IfOk};
ghost use Rattle.v_syntax.specs.SourceTrees.{view_header_parameter, view_ports, view_item, view_module};
ghost use Rattle.v_syntax.specs.Sources.{module_tree};
ghost use Rattle.v_expression.specs.Phrase.Stops.{Gives};
ghost use Rattle.v_parse.specs.Reading.{items_of, module_name_of, module_body_of, module_of, modules_of};

use crate::headers::{maybe_parameters, maybe_ports};
use crate::item::{item, starts_item};
use port_io::boxed;
use std::alloc::{AllocError, Global};
use v_expression::phrase::{ReadError, after, after_word, identifier, starts_word};
use v_syntax::{HeaderParameter, HeaderPorts, Identifier, Item, Keyword, Mark, Module, Token};

/// The values, and behind them one that stood on the heap.
fn and_last<T: Drop>(mut all: Vec<T>, last: Box<T>) -> Result<Vec<T>, AllocError>
    ensures { IfOk result (λ made. made.items ≡ all.items ++ (last.value ∷ [])) }
{
    all.push(Box::into_inner(last))?;
    Ok(all)
}

/// All items that stand here.
#[tactic(auto, unfolding(crate::specs::Reading::items_of))]
fn items(
    alloc: Global,
    total: usize,
    room: usize,
    tokens: &[Token],
) -> Result<(Vec<Item>, &[Token]), ReadError>
    requires { room < 1000 }
    ensures { Gives (λ x. (map view_item x.0.items, x.1.now)) result (items_of total room tokens.now) }
{
    let mut all = Vec::new(alloc);
    let mut rest = tokens;
    for _ in 0..tokens.len() {
        if !starts_item(rest) {
            break;
        }
        let (another, others) = item(alloc, total, room, rest)?;
        all = and_last(all, another)?;
        rest = others;
    }
    Ok((all, rest))
}

/// A module of its parts, of which the parameters and the ports may be missing.
fn module_with(
    alloc: Global,
    name: Identifier,
    parameters: Option<Vec<HeaderParameter>>,
    ports: Option<Option<Box<HeaderPorts>>>,
    items: Vec<Item>,
) -> Module
    ensures { view_module result ≡ module_tree name (option_map (λ v. map view_header_parameter v.items) parameters)
        (option_map (option_map (λ b. view_ports b.value)) ports) (map view_item items.items) }
{
    let parameters = match parameters {
        Some(all) => all,
        None => Vec::new(alloc),
    };
    let ports = match ports {
        Some(Some(ports)) => Box::into_inner(ports),
        _ => HeaderPorts::Named(Vec::new(alloc)),
    };
    Module {
        name,
        parameters,
        ports,
        items,
    }
}

/// `module name`
#[tactic(auto, unfolding(crate::specs::Reading::module_name_of))]
fn module_name(
    alloc: Global,
    total: usize,
    tokens: &[Token],
) -> Result<(Identifier, &[Token]), ReadError>
    ensures { Gives (λ x. (x.0, x.1.now)) result (module_name_of total tokens.now) }
{
    let rest = after_word(Keyword::Module, tokens)?;
    identifier(alloc, total, rest)
}

/// `; {item} endmodule`
#[tactic(auto, unfolding(crate::specs::Reading::module_body_of))]
fn module_body(
    alloc: Global,
    total: usize,
    room: usize,
    tokens: &[Token],
) -> Result<(Vec<Item>, &[Token]), ReadError>
    requires { room < 1000 }
    ensures { Gives (λ x. (map view_item x.0.items, x.1.now)) result (module_body_of total room tokens.now) }
{
    let rest = after(Mark::Semicolon, tokens)?;
    let (items, rest) = items(alloc, total, room, rest)?;
    let rest = after_word(Keyword::EndModule, rest)?;
    Ok((items, rest))
}

/// `module name [# ( parameters )] [( [ports] )] ; {item} endmodule` (IEEE 1364-2005, clause 12.1 and annex A.1.2)
#[tactic(auto, unfolding(crate::specs::Reading::module_of))]
fn module(
    alloc: Global,
    total: usize,
    room: usize,
    tokens: &[Token],
) -> Result<(Box<Module>, &[Token]), ReadError>
    requires { room < 1000 }
    ensures { Gives (λ x. (view_module x.0.value, x.1.now)) result (module_of total room tokens.now) }
{
    let (name, rest) = module_name(alloc, total, tokens)?;
    let (parameters, rest) = maybe_parameters(alloc, total, room, rest)?;
    let (ports, rest) = maybe_ports(alloc, total, room, rest)?;
    let (items, rest) = module_body(alloc, total, room, rest)?;
    let made = module_with(alloc, name, parameters, ports, items);
    Ok((boxed(alloc, made)?, rest))
}

/// All modules that stand here.
#[tactic(auto, unfolding(crate::specs::Reading::modules_of))]
pub fn modules(
    alloc: Global,
    total: usize,
    room: usize,
    tokens: &[Token],
) -> Result<(Vec<Module>, &[Token]), ReadError>
    requires { room < 1000 }
    ensures { Gives (λ x. (map view_module x.0.items, x.1.now)) result (modules_of total room tokens.now) }
{
    let mut all = Vec::new(alloc);
    let mut rest = tokens;
    for _ in 0..tokens.len() {
        if !starts_word(Keyword::Module, rest) {
            break;
        }
        let (another, others) = module(alloc, total, room, rest)?;
        all = and_last(all, another)?;
        rest = others;
    }
    Ok((all, rest))
}
