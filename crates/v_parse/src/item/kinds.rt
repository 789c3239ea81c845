//! Items put together of their parts.
//!
//! The parts that waited on the heap come to stand in their tree here, and not where tokens are read.

ghost use Rattle.std.specs.Prelude.{◌≡◌, map, option_map};
ghost use Rattle.v_syntax.specs.StatementTrees;
ghost use Rattle.v_syntax.specs.SourceTrees.{
  view_range,
  view_head,
  view_net,
  view_register,
  view_parameter,
  view_control,
  view_connections,
  view_kind,
  view_item,
  Ports,
  Nets,
  Registers,
  Parameters,
  Always,
  Initial,
  Instance,
  ItemAt,
};

use port_io::unboxed;
use v_syntax::{
    Connections, EventControl, Identifier, Item, ItemKind, NetDeclarator, ParameterAssignment,
    ParameterKind, PortHead, Range, RegisterDeclarator, Statement, TokenNumber,
};

/// `input` or `output` of these names, which the header has (IEEE 1364-2005, clause 12.3.3).
pub fn ports_kind(head: Box<PortHead>, names: Vec<Identifier>) -> ItemKind
    ensures { view_kind result ≡ Ports (view_head head.value) names.items }
{
    let head = Box::into_inner(head);
    ItemKind::Ports { head, names }
}

/// The nets of a `wire` line, all of that range (clause 4.2).
pub fn nets_kind(range: Option<Box<Range>>, declarators: Vec<NetDeclarator>) -> ItemKind
    ensures { view_kind result ≡ Nets (option_map (λ b. view_range b.value) range) (map view_net declarators.items) }
{
    let range = unboxed(range);
    ItemKind::Nets { range, declarators }
}

/// The registers and memories of a `reg` line, all of that range (clauses 4.2.2 and 4.9).
pub fn registers_kind(range: Option<Box<Range>>, declarators: Vec<RegisterDeclarator>) -> ItemKind
    ensures { view_kind result ≡ Registers (option_map (λ b. view_range b.value) range) (map view_register declarators.items) }
{
    let range = unboxed(range);
    ItemKind::Registers { range, declarators }
}

/// The parameters of a line, all of that range (clause 4.10).
pub fn parameters_kind(
    kind: ParameterKind,
    range: Option<Box<Range>>,
    assignments: Vec<ParameterAssignment>,
) -> ItemKind
    ensures { view_kind result ≡ Parameters kind (option_map (λ b. view_range b.value) range) (map view_parameter assignments.items) }
{
    let range = unboxed(range);
    ItemKind::Parameters {
        kind,
        range,
        assignments,
    }
}

/// An `always` with its events and its statement (clause 9.9.2).
pub fn always_kind(events: Box<EventControl>, statement: Box<Statement>) -> ItemKind
    ensures { view_kind result ≡ Always (view_control events.value) (StatementTrees.view statement.value) }
{
    let events = Box::into_inner(events);
    let statement = Box::into_inner(statement);
    ItemKind::Always { events, statement }
}

/// An `initial` with its statement (clause 9.9.1).
pub fn initial_kind(statement: Box<Statement>) -> ItemKind
    ensures { view_kind result ≡ Initial (StatementTrees.view statement.value) }
{
    ItemKind::Initial(Box::into_inner(statement))
}

/// An instance of the module `of`, with its overridden parameters and its ports.
pub fn instance_kind(
    of: Identifier,
    parameters: Option<Box<Connections>>,
    name: Identifier,
    ports: Option<Box<Connections>>,
) -> ItemKind
    ensures { view_kind result
        ≡ Instance of (option_map (λ b. view_connections b.value) parameters) name (option_map (λ b. view_connections b.value) ports) }
{
    let parameters = unboxed(parameters);
    let ports = unboxed(ports);
    ItemKind::Instance {
        module: of,
        parameters,
        name,
        ports,
    }
}

/// An item whose first token has that number.
pub fn item_with(at: TokenNumber, kind: Box<ItemKind>) -> Item
    ensures { view_item result ≡ ItemAt at (view_kind kind.value) }
{
    let kind = Box::into_inner(kind);
    Item { at, kind }
}
