//! The ports of a module.
//!
//! After want of memory a list that was being filled is dropped, so no clause speaks of what it then holds.

ghost use Rattle.std.specs.Prelude.{◌≡◌, ◌++◌, ℕ, List, length, map, option_map, slice_get, IfOk, OnOk};
ghost use Rattle.std.specs.Str.{bytes_eq};
ghost use Rattle.std.specs.List.{list_any};
ghost use Rattle.name_table.specs.Places.{first_place};
ghost use Rattle.v_syntax.specs.SourceTrees.{view_header_port, view_item, view_module, NamedPorts};
ghost use Rattle.v_flat.specs.Headers.{find_port, first_head, headed, headed_port, header_ports, port_name, ports_of};
ghost use Rattle.v_flat.specs.Declarations.{find_direction};
ghost use Rattle.v_header.specs.Heads.{headed_in};
ghost use Rattle.v_header.specs.Ports.{item_ports, known_direction, known_port, line_port, place_of, port_in, ports_in, ports_in_item};

use crate::heads::{HeadedPort, headed_ports};
use name_table::Names;
use port_io::NoMemory;
use std::alloc::Global;
use std::marker::Model;
use v_syntax::{Direction, HeaderPort, HeaderPorts, Identifier, Item, ItemKind, Module};

/// A port as an instance sees it (IEEE 1364-2005, clause 12.3).
#[derive(Clone, Copy)]
pub struct Port<'a> {
    /// Its name.
    pub name: &'a [u8],
    /// Its direction; none where the header names it and no item declares it.
    pub direction: Option<Direction>,
}

/// The ports of a module in the order of its header. A name that stands there twice is two ports, of which a look-up by name finds the
/// first.
#[derive(Drop)]
pub struct Ports<'a> {
    list: Vec<Port<'a>>,
    places: Names,
}

impl<'a> Model for Ports<'a> {
    ghost use Rattle.std.specs.Prelude.{◌≡◌, ℕ, List};
    ghost use Rattle.name_table.specs.Places.{first_place};
    ghost use Rattle.v_flat.specs.Headers.{Port};
    ghost use Rattle.v_header.specs.Ports.{place_of, ports_in};

    ghost Value = { List Port };

    ghost view = { λ ports. ports_in ports.list.items };

    ghost invariant = { λ ports. (n : List ℕ) → first_place ports.places n ≡ place_of n (ports_in ports.list.items) };
}

/// The place of the first port of each name. Only want of memory is an error.
fn places_of(alloc: Global, list: &[Port]) -> Result<Names, NoMemory>
    ensures { IfOk result (λ places. (n : List ℕ) → first_place places n ≡ place_of n (ports_in list.now)) }
{
    let mut places = Names::new(alloc);
    for at in 0..list.len() {
        let port = &list[at];
        places.note(alloc, port.name, at)?;
    }
    Ok(places)
}

/// The ports of a header that declares them. Only want of memory is an error.
fn headed_list<'a>(alloc: Global, headed: &[HeadedPort<'a>]) -> Result<Vec<Port<'a>>, NoMemory>
    ensures { IfOk result (λ found. ports_in found.items ≡ map headed_port (headed_in headed.now)) }
{
    let mut found = Vec::new(alloc);
    for port in headed {
        found.push(Port {
            name: port.name.name.bytes(),
            direction: Some(port.head.direction),
        })?;
    }
    Ok(found)
}

/// Adds ports of these names and of one direction. Only want of memory is an error.
fn add_line<'a>(
    found: &mut Vec<Port<'a>>,
    direction: Direction,
    names: &'a [Identifier],
) -> Result<(), NoMemory>
    ensures { OnOk result (ports_in found.new.items ≡ ports_in found.old.items ++ map (line_port direction) names.now) }
{
    for name in names {
        found.push(Port {
            name: name.name.bytes(),
            direction: Some(direction),
        })?;
    }
    Ok(())
}

/// Adds the ports that an item declares. Only want of memory is an error.
fn add_item<'a>(found: &mut Vec<Port<'a>>, item: &'a Item) -> Result<(), NoMemory>
    ensures { OnOk result (ports_in found.new.items ≡ ports_in found.old.items ++ ports_in_item (view_item item.now)) }
{
    match &item.kind {
        ItemKind::Ports { head, names } => add_line(found, head.direction, names),
        _ => Ok(()),
    }
}

/// The ports that items declare, each as often as it is declared. Only want of memory is an error.
fn item_list(alloc: Global, items: &[Item]) -> Result<Vec<Port<'_>>, NoMemory>
    ensures { IfOk result (λ found. ports_in found.items ≡ item_ports (map view_item items.now)) }
{
    let mut found = Vec::new(alloc);
    for item in items {
        add_item(&mut found, item)?;
    }
    Ok(found)
}

/// The ports that a header only names, with the directions of those that are declared. Only want of memory is an error.
fn named_list<'a>(
    alloc: Global,
    names: &'a [Identifier],
    declared: &Ports,
) -> Result<Vec<Port<'a>>, NoMemory>
    ensures { IfOk result (λ found. ports_in found.items ≡ map (known_port declared.now) names.now) }
{
    let mut found = Vec::new(alloc);
    for identifier in names {
        let name = identifier.name.bytes();
        found.push(Port {
            name,
            direction: declared.direction(name),
        })?;
    }
    Ok(found)
}

impl<'a> Ports<'a> {
    /// These ports. Only want of memory is an error.
    fn in_order(alloc: Global, list: Vec<Port<'a>>) -> Result<Ports<'a>, NoMemory>
        ensures { IfOk result (λ ports. ports ≡ ports_in list.entry.items) }
    {
        let places = places_of(alloc, &list)?;
        Ok(Ports { list, places })
    }

    /// The ports of a header that only names them. Only want of memory is an error.
    #[tactic(auto, using(crate::proofs::Directions::named_ports))]
    fn of_names(
        alloc: Global,
        names: &'a [Identifier],
        items: &[Item],
    ) -> Result<Ports<'a>, NoMemory>
        ensures { IfOk result (λ ports. ports ≡ header_ports (NamedPorts names.now) (map view_item items.now)) }
    {
        let declared = Ports::in_order(alloc, item_list(alloc, items)?)?;
        Ports::in_order(alloc, named_list(alloc, names, &declared)?)
    }

    /// The ports of a header that declares them. Only want of memory is an error.
    fn of_header(alloc: Global, ports: &'a [HeaderPort]) -> Result<Ports<'a>, NoMemory>
        ensures { IfOk result (λ found. found ≡ map headed_port (headed first_head (map view_header_port ports.now))) }
    {
        let headed = headed_ports(alloc, ports)?;
        Ports::in_order(alloc, headed_list(alloc, &headed)?)
    }

    /// The ports of a module: those of its header in their order (IEEE 1364-2005, clauses 12.3.2 to 12.3.4). Where the header only names
    /// them, the first item that declares a name tells its direction. Only want of memory is an error.
    pub fn of(alloc: Global, module: &'a Module) -> Result<Ports<'a>, NoMemory>
        ensures { IfOk result (λ ports. ports ≡ ports_of (view_module «module».now)) }
    {
        match &module.ports {
            HeaderPorts::Named(names) => Ports::of_names(alloc, names, &module.items),
            HeaderPorts::Declared(ports) => Ports::of_header(alloc, ports),
        }
    }

    /// Whether there is a port of a name.
    pub fn contains(&self, name: &[u8]) -> bool
        ensures { result ≡ list_any (bytes_eq name.now) (map port_name self.now) }
    {
        self.places.find(name).is_some()
    }

    /// The first port of a name; none where there is none.
    pub fn find(&self, name: &[u8]) -> Option<Port<'a>>
        ensures { option_map port_in result ≡ find_port name.now self.now }
    {
        match self.places.find(name) {
            Some(place) => self.get(place),
            None => None,
        }
    }

    /// The direction of the first port of a name, where there is one that has a direction.
    fn direction(&self, name: &[u8]) -> Option<Direction>
        ensures { result ≡ known_direction self.now name.now }
    {
        match self.find(name) {
            Some(port) => port.direction,
            None => None,
        }
    }

    /// Whether there is a port of a name, the first of which has a direction.
    #[tactic(auto, using(crate::proofs::Directions::has_direction))]
    pub fn has_direction(&self, name: &[u8]) -> bool
        ensures { result ≡ find_direction name.now self.now }
    {
        self.direction(name).is_some()
    }

    /// How many ports there are.
    pub fn len(&self) -> usize
        ensures { result ≡ length self.now }
    {
        self.list.len()
    }

    /// The port at a place in the order of the header, from 0; none behind the last.
    pub fn get(&self, index: usize) -> Option<Port<'a>>
        ensures { option_map port_in result ≡ slice_get self.now index }
    {
        self.list.get(index).copied()
    }
}
