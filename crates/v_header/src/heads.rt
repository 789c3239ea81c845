//! What stands in front of the names of ports.

ghost use Rattle.std.specs.Prelude.{◌≡◌, map, option_map, IfOk};
ghost use Rattle.v_syntax.specs.SourceTrees.{view_head, view_header_port};
ghost use Rattle.v_flat.specs.Headers.{first_head, head_or, headed};
ghost use Rattle.v_header.specs.Heads.{head_in, headed_in};

use port_io::NoMemory;
use std::alloc::Global;
use v_syntax::{Direction, HeaderPort, Identifier, PortHead, PortKind, Range};

/// A direction, with the kind and the range where they are written (IEEE 1364-2005, clause 12.3.3).
#[derive(Clone, Copy)]
pub struct Head<'a> {
    /// Whether the port is an input or an output.
    pub direction: Direction,
    /// The word `wire` or `reg`, where it is written.
    pub kind: Option<PortKind>,
    /// The range, where it is written.
    pub range: Option<&'a Range>,
}

/// A port of a header that declares it, with the head that it has (IEEE 1364-2005, clause 12.3.4).
#[derive(Clone, Copy)]
pub struct HeadedPort<'a> {
    /// Its own head, or else that of the port before it.
    pub head: Head<'a>,
    /// Its name.
    pub name: &'a Identifier,
}

impl<'a> Head<'a> {
    /// The head that is written.
    pub fn of(head: &'a PortHead) -> Head<'a>
        ensures { head_in result ≡ view_head head.now }
    {
        Head {
            direction: head.direction,
            kind: head.kind,
            range: head.range.as_ref(),
        }
    }
}

/// The head of a port of a header: its own, or else that of the port before.
fn head_behind<'a>(head: &'a Option<PortHead>, before: Head<'a>) -> Head<'a>
    ensures { head_in result ≡ head_or (option_map view_head head.now) (head_in before.entry) }
{
    match head {
        Some(head) => Head::of(head),
        None => before,
    }
}

/// The ports of a header that declares them, in their order. A first port without a head is an input of one digit. Only want of memory is
/// an error.
pub fn headed_ports(alloc: Global, ports: &[HeaderPort]) -> Result<Vec<HeadedPort<'_>>, NoMemory>
    ensures { IfOk result (λ found. headed_in found.items ≡ headed first_head (map view_header_port ports.now)) }
{
    let mut found = Vec::new(alloc);
    let mut head = Head {
        direction: Direction::Input,
        kind: None,
        range: None,
    };
    for port in ports {
        head = head_behind(&port.head, head);
        found.push(HeadedPort {
            head,
            name: &port.name,
        })?;
    }
    Ok(found)
}
