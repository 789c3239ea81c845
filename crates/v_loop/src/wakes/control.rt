//! The wakes of an event control.

ghost use Rattle.std.specs.Prelude.{◌≡◌, IfOk};
ghost use Rattle.v_flat.specs.Scope.Found.{ended};
ghost use Rattle.v_flat.specs.Scope.Scope.{find, means};
ghost use Rattle.v_flat.specs.Design.{events_of, wake_by, wake_edge_of, wake_in};
ghost use Rattle.v_loop.specs.Wakes.Gathered.{with_fault};

use gpi::{SigId, Wake, WakeEdge};
use port_io::{NoMemory, Sequence};
use std::alloc::Global;
use v_flat::scope::{Broken, DataObject, ElabRule, Found, Meaning, Scope, earlier};
use v_syntax::{Edge, Event};

/// The changes that count for an event (IEEE 1364-2005, clause 9.7.2): all of them where no edge is written.
fn edge_of(edge: Option<Edge>) -> WakeEdge
    ensures { result ≡ wake_edge_of edge }
{
    match edge {
        None => WakeEdge::Any,
        Some(Edge::Positive) => WakeEdge::Pos,
        Some(Edge::Negative) => WakeEdge::Neg,
    }
}

/// The wake of an event of a data object. BadRange is broken at its name by a memory.
fn object_wake(event: &Event, object: DataObject) -> Result<Wake, Broken>
    ensures { result ≡ ended (wake_in event.now object object.words) }
{
    match object.words {
        None => Ok(Wake {
            sig: SigId(object.first),
            edge: edge_of(event.edge),
        }),
        Some(_) => Err(Broken {
            rule: ElabRule::BadRange,
            place: event.name.at,
        }),
    }
}

/// The wake of an event. UnknownName is broken at a name that is not declared, and BadRange at that of a memory or a parameter.
fn wake(scope: &Scope, event: &Event) -> Result<Wake, Broken>
    ensures { result ≡ ended (wake_by event.now (find event.now.name.name (means scope.now))) }
{
    let place = event.name.at;
    match scope.find(event.name.name.bytes()) {
        None => Err(Broken {
            rule: ElabRule::UnknownName,
            place,
        }),
        Some(Meaning::Later) => Err(Broken {
            rule: ElabRule::UnknownName,
            place,
        }),
        Some(Meaning::Constant(_, _)) => Err(Broken {
            rule: ElabRule::BadRange,
            place,
        }),
        Some(Meaning::Object(object)) => object_wake(event, *object),
    }
}

/// The broken rule that counts, after this one too.
fn earliest(fault: Option<Broken>, other: Broken) -> Broken
    ensures { result ≡ with_fault fault other }
{
    match fault {
        None => other,
        Some(fault) => earlier(fault, other),
    }
}

/// What a process with an event control waits for (IEEE 1364-2005, clauses 9.7.2 to 9.7.4): the wake of each event, in the order of the text.
/// UnknownName is broken at a name that is not declared, and BadRange at that of a memory or a parameter. Only want of memory is an error.
pub fn events(
    alloc: Global,
    scope: &Scope,
    events: &[Event],
) -> Result<Found<Sequence<Wake>>, NoMemory>
    ensures { IfOk result (λ found. found ≡ events_of (means scope.now) events.now) }
{
    let mut wakes = Sequence::new(alloc);
    let mut fault = None;
    for event in events {
        match wake(scope, event) {
            Ok(wake) => wakes.push(wake)?,
            Err(other) => fault = Some(earliest(fault, other)),
        }
    }
    match fault {
        None => Ok(Found::Sound(wakes)),
        Some(fault) => Ok(Found::Lost(fault)),
    }
}
