//! What the task of the rows sees: the design of `specs/Scene.antt` at a time of 3,000 steps of 1,000 fs.
ghost use Rattle.std.specs.Prelude.{◌≡◌, refl};
ghost use Rattle.py_evaluate.specs.Attribute.Look.{child};
ghost use Rattle.value_tests.specs.Expressions.Scene.{places, seen, unresolved};

use four_value::{Bits, Digit};
use gpi::{Region, SigId, Spot};
use port_io::Name;
use py_evaluate::attribute::Look;
use py_value::{EventNo, LockNo, Paths, QueueNo, TaskNo};

/// Signals `top.a` of eight digits z, `top.clk` of one digit 1, the memory `top.m` with the words 2 and 3, and `top.u._path`; the nodes
/// `top` and `top.u`.
pub struct Scene;

impl Paths for Scene {
    ghost places = { λ _. places };

    fn path(&self, sig: SigId) -> &[u8] {
        match sig.0 {
            0 => b"top.a",
            1 => b"top.clk",
            2 => b"top.m[2]",
            3 => b"top.m[3]",
            _ => b"top.u._path",
        }
    }

    fn node_path(&self, node: u32) -> &[u8] {
        match node {
            0 => b"top",
            _ => b"top.u",
        }
    }
}

/// What a name means in the top.
fn top_child(name: &[u8]) -> Option<Spot>
    ensures { result ≡ child seen 0 name.now }
{
    if b"a".as_slice() == name {
        Some(Spot::Sig(SigId(0)))
    } else if b"clk".as_slice() == name {
        Some(Spot::Sig(SigId(1)))
    } else if b"m".as_slice() == name {
        Some(Spot::Words {
            first: SigId(2),
            low: 2,
            count: 2,
        })
    } else if b"u".as_slice() == name {
        Some(Spot::Inner(1))
    } else {
        None
    }
}

/// What a name means in the inner node.
fn inner_child(name: &[u8]) -> Option<Spot>
    ensures { result ≡ child seen 1 name.now }
{
    if b"_path".as_slice() == name {
        Some(Spot::Sig(SigId(4)))
    } else {
        None
    }
}

/// The digits of the word 3: the highest first, 1, x, 0 and 1.
fn unknown_word() -> Bits
    ensures { result ≡ unresolved }
{
    Bits::from_number(4, 9).with_digit(2, Digit::X)
}

impl Look for Scene {
    ghost view = { λ _. seen };

    fn now(&self) -> u64 {
        3000
    }

    fn region(&self) -> Region {
        Region::Begin
    }

    fn step_fs(&self) -> u64 {
        1000
    }

    fn read(&self, sig: SigId) -> Bits {
        match sig.0 {
            0 => Bits::all(8, Digit::Z),
            1 => Bits::all(1, Digit::One),
            2 => Bits::from_number(4, 5),
            3 => unknown_word(),
            _ => Bits::all(2, Digit::One),
        }
    }

    fn width(&self, sig: SigId) -> u8 {
        match sig.0 {
            0 => 8,
            1 => 1,
            2 => 4,
            3 => 4,
            _ => 2,
        }
    }

    fn child(&self, node: u32, name: &Name) -> Option<Spot> {
        match node {
            0 => top_child(name.bytes()),
            _ => inner_child(name.bytes()),
        }
    }

    fn is_set(&self, event: EventNo) -> bool {
        match event.0 {
            0 => false,
            _ => true,
        }
    }

    fn is_locked(&self, lock: LockNo) -> bool {
        match lock.0 {
            0 => true,
            _ => false,
        }
    }

    fn is_done(&self, task: TaskNo) -> bool {
        match task.0 {
            0 => false,
            1 => true,
            _ => false,
        }
    }

    fn queue_len(&self, q: QueueNo) -> u32 {
        match q.0 {
            0 => 2,
            _ => 0,
        }
    }

    fn queue_full(&self, q: QueueNo) -> bool {
        match q.0 {
            0 => true,
            _ => false,
        }
    }

    fn queue_items(&self, q: QueueNo) -> EventNo {
        match q.0 {
            0 => EventNo(1),
            _ => EventNo(0),
        }
    }

    fn queue_space(&self, q: QueueNo) -> EventNo {
        match q.0 {
            0 => EventNo(0),
            _ => EventNo(1),
        }
    }

    #[tactic(auto, using(crate::proofs::ExpressionsLemmas::Declared::names_known))]
    fn names_are_known(&self) {}

    #[tactic(auto, using(crate::proofs::ExpressionsLemmas::Declared::events_known))]
    fn queues_are_known(&self) {}

    ghost told = { λ _. refl };
}
