//! One connection.

ghost use Rattle.std.specs.Prelude.{◌≡◌, Some, IfOk, option_map};
ghost use Rattle.v_flat.specs.Scope.Found.{EachIs, lost};
ghost use Rattle.v_flat.specs.Scope.Rules.{at};
ghost use Rattle.v_flat.specs.declared.scope.rule.ElabRule.TheVariants as rule;
ghost use Rattle.v_flat.specs.Scope.Scope.{means};
ghost use Rattle.v_flat.specs.Design.{value_checked};
ghost use Rattle.v_header.specs.Ports.{port_in};
ghost use Rattle.v_check.specs.Names.Proper.{AreProper};
ghost use Rattle.v_process.specs.Assign.Continuous.{KeepsOrGrows};
ghost use Rattle.v_elab.specs.declared.connect.joint.Joints as joints_record;
ghost use Rattle.v_elab.specs.Connect.Found.{Connects, IsAdded, ThenConnects, value_in};

use crate::connect::joined::joined;
use crate::connect::{Joined, Joint, Joints};
use port_io::NoMemory;
use std::alloc::Global;
use v_check::check;
use v_flat::scope::{Broken, ElabRule, Found, Scope};
use v_header::Port;
use v_process::drive::DrivenDigits;
use v_syntax::{Expression, TokenNumber};

/// A connection.
#[derive(Clone, Copy)]
pub(crate) struct Connection<'a> {
    /// Its first token.
    pub place: TokenNumber,
    /// The token at which BadPort is broken, where there is no port for it.
    pub name: TokenNumber,
    /// What a port is joined to by it, if to anything.
    pub value: Option<&'a Expression>,
}

/// What is found in a connection for which there is no port: BadPort is broken, and its value is checked. Only want of memory is an error.
fn nowhere(alloc: Global, scope: &Scope, connection: &Connection<'_>) -> Result<Found<()>, NoMemory>
    requires { AreProper (means scope.now) }
    ensures { IfOk result
        (λ found. found ≡ lost (at rule.BadPort connection.now.name) (value_checked (means scope.now) (value_in connection.now.value))) }
{
    let fault = Broken {
        rule: ElabRule::BadPort,
        place: connection.name,
    };
    match connection.value {
        Some(value) => Ok(check(alloc, scope, value)?.lost(fault).each(|_checked| ())),
        None => Ok(Found::Lost(fault)),
    }
}

/// Adds a joint where no rule is broken in it. Only want of memory is an error.
fn add(joints: &mut Vec<Joint>, port: Vec<u8>, found: Found<Joined>) -> Result<Found<()>, NoMemory>
    ensures { IfOk result (λ done. IsAdded port.items found joints.old.items done joints.new.items) }
{
    match found {
        Found::Sound(joined) => {
            joints.push(Joint { port, joined })?;
            Ok(Found::Sound(()))
        }
        Found::Noted(fault, _joined) => Ok(Found::Noted(fault, ())),
        Found::Lost(fault) => Ok(Found::Lost(fault)),
    }
}

/// What is found in the connection of a port. Only want of memory is an error. Whatever the answer, those digits that were driven are.
fn to_port(
    alloc: Global,
    scope: &Scope,
    port: Port<'_>,
    connection: &Connection<'_>,
    joints: &mut Vec<Joint>,
    driven: &mut DrivenDigits,
) -> Result<Found<()>, NoMemory>
    requires { AreProper (means scope.now) }
    ensures ok { IfOk result (λ found. Connects (means scope.now) connection.now.place connection.now.name
        (Some (port_in port.entry)) (value_in connection.now.value) driven.old joints.old.items found joints.new.items driven.new) }
    ensures grows { KeepsOrGrows driven.old driven.new }
{
    match connection.value {
        Some(value) => {
            let name = port.name.to_vec(alloc)?;
            let found = joined(
                alloc,
                scope,
                connection.place,
                port.direction,
                value,
                driven,
            )?;
            add(joints, name, found)
        }
        None => Ok(Found::Sound(())),
    }
}

/// What is found in a connection. Only want of memory is an error. Whatever the answer, those digits that were driven are.
fn connect(
    alloc: Global,
    scope: &Scope,
    port: Option<Port<'_>>,
    connection: &Connection<'_>,
    joints: &mut Vec<Joint>,
    driven: &mut DrivenDigits,
) -> Result<Found<()>, NoMemory>
    requires { AreProper (means scope.now) }
    ensures ok { IfOk result (λ found. Connects (means scope.now) connection.now.place connection.now.name
        (option_map port_in port.entry) (value_in connection.now.value) driven.old joints.old.items found joints.new.items driven.new) }
    ensures grows { KeepsOrGrows driven.old driven.new }
{
    match port {
        Some(port) => to_port(alloc, scope, port, connection, joints, driven),
        None => nowhere(alloc, scope, connection),
    }
}

/// What is found in a connection behind others; nothing more where there is no value without what is broken in them. Only want of memory
/// is an error. Whatever the answer, those digits that were driven are.
pub(crate) fn then_connect(
    alloc: Global,
    scope: &Scope,
    found: Found<()>,
    port: Option<Port<'_>>,
    connection: &Connection<'_>,
    joints: &mut Vec<Joint>,
    driven: &mut DrivenDigits,
) -> Result<Found<()>, NoMemory>
    requires { AreProper (means scope.now) }
    ensures ok { IfOk result (λ more. ThenConnects (means scope.now) connection.now.place connection.now.name
        (option_map port_in port.entry) (value_in connection.now.value) found driven.old joints.old.items more joints.new.items driven.new) }
    ensures grows { KeepsOrGrows driven.old driven.new }
{
    match found {
        Found::Sound(()) => Ok(connect(alloc, scope, port, connection, joints, driven)?),
        Found::Noted(fault, ()) => {
            Ok(connect(alloc, scope, port, connection, joints, driven)?.noted(fault))
        }
        Found::Lost(fault) => Ok(Found::Lost(fault)),
    }
}

/// What is found in all connections, where these are the joints.
pub(crate) fn together(found: Found<()>, list: Vec<Joint>) -> Found<Joints>
    ensures { EachIs (λ (u : Unit {0}) (all : joints_record.Joints). all.list.items ≡ list.items) found result }
{
    match found {
        Found::Sound(()) => Found::Sound(Joints { list }),
        Found::Noted(fault, ()) => Found::Noted(fault, Joints { list }),
        Found::Lost(fault) => Found::Lost(fault),
    }
}
