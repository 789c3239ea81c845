//! The names of a design.

ghost use Rattle.std.specs.Prelude.{◌≡◌, ◌<◌, length, IfOk};
ghost use Rattle.run_view.specs.DesignNames.Names.{child_of};
ghost use Rattle.run_view.specs.DesignNames.Tables.{AreTables};

use crate::design_names::node::NodeNames;
use gpi::{Flat, Node, Spot};
use port_io::{Name, NoMemory, Sequence};
use std::alloc::Global;
use std::marker::Model;

/// The nodes of a design, with the names of each of them (IEEE 1364-2005, clause 12.5) by a map, seen as these nodes.
#[derive(Drop)]
pub struct DesignNames<'a> {
    nodes: &'a Sequence<Node>,
    tables: Vec<NodeNames<'a>>,
}

impl<'a> Model for DesignNames<'a> {
    ghost use Rattle.std.specs.Prelude.{List};
    ghost use Rattle.gpi.specs.declared.design.Node.{Node as declared_node};

    ghost Value = { List declared_node };

    ghost use Rattle.run_view.specs.DesignNames.Tables.{AreTables};

    ghost view = { λ names. names.nodes.now };

    ghost invariant = { λ names. AreTables names.tables.items names.nodes.now };
}

/// The names of each of these nodes. Only want of memory is an error.
fn tables_of<'a>(alloc: Global, nodes: &'a Sequence<Node>) -> Result<Vec<NodeNames<'a>>, NoMemory>
    ensures { IfOk result (λ tables. AreTables tables.items nodes.now) }
{
    let mut tables = Vec::new(alloc);
    for at in 0..nodes.len() {
        let table = NodeNames::of(alloc, &nodes.get(at).children)?;
        tables.push(table)?;
    }
    Ok(tables)
}

impl<'a> DesignNames<'a> {
    /// The names of a design, of all nodes at once. Only want of memory is an error.
    pub fn new(alloc: Global, flat: &'a Flat) -> Result<DesignNames<'a>, NoMemory>
        ensures { IfOk result (λ names. names ≡ flat.now.nodes) }
    {
        let nodes = &flat.nodes;
        let tables = tables_of(alloc, nodes)?;
        Ok(DesignNames { nodes, tables })
    }

    /// The nodes of the design. It takes no memory.
    pub fn nodes(&self) -> &'a Sequence<Node>
        ensures { result.now ≡ self.now }
    {
        self.nodes
    }

    /// What a name means that is declared in a node (IEEE 1364-2005, clause 12.5), where the first entry of the name counts; None where the
    /// node has no such name. One look-up in a map, and no scan. It takes no memory.
    pub fn child(&self, node: u32, name: &Name) -> Option<Spot>
        requires { node < length self.now }
        ensures { result ≡ child_of self.now node name.now }
    {
        self.tables[node as usize].find(name.bytes())
    }
}
