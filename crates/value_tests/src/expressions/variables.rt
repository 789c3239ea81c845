//! The names of the rows' task.
ghost use Rattle.std.specs.Prelude.{◌≡◌, ◌++◌, ◌∷◌, [], IfOk};
ghost use Rattle.value_tests.specs.Expressions.Variables.{locals_of, plain_names, vector_names};
ghost use Rattle.value_tests.specs.Expressions.Variables as meaning;

use four_value::{Bits, Digit};
use gpi::SigId;
use port_io::{Name, NoMemory};
use py_evaluate::attribute::Locals;
use py_syntax::FaultKind;
use py_value::{EventNo, Fault, LockNo, QueueNo, TaskNo, Value};
use std::alloc::Global;

/// A name of a function, with its value where it has one.
#[derive(Drop)]
pub struct Variable {
    pub name: Name,
    pub value: Option<Value>,
}

/// The names of a function.
#[derive(Drop)]
pub struct Variables {
    pub list: Vec<Variable>,
}

impl Locals for Variables {
    ghost names = { λ s. locals_of s.list.items };

    fn local(&self, name: &Name) -> Option<&Value> {
        for variable in &self.list {
            if variable.name.bytes() == name.bytes() {
                return variable.value.as_ref();
            }
        }
        None
    }
}

/// A name, with its value or unassigned, behind others. Only want of memory is an error.
#[tactic(auto, using(crate::proofs::ExpressionsLemmas::Names::locals_more))]
fn push(
    alloc: Global,
    mut all: Variables,
    name: &[u8],
    value: Option<Value>,
) -> Result<Variables, NoMemory>
    ensures { IfOk result (λ more. locals_of more.list.items ≡ locals_of all.list.items ++ record { name = name.now; value = value } ∷ []) }
{
    let name = Name::of(alloc, name)?;
    all.list.push(Variable { name, value })?;
    Ok(all)
}

/// `dut` is the top; `i` 7, `j` -3, `b` True, `n` None, `t` the text `ns`.
fn plain(alloc: Global) -> Result<Variables, NoMemory>
    ensures { IfOk result (λ all. locals_of all.list.items ≡ plain_names) }
{
    let all = Variables {
        list: Vec::new(alloc),
    };
    let all = push(alloc, all, b"dut", Some(Value::Place(0)))?;
    let all = push(alloc, all, b"i", Some(Value::Whole(7)))?;
    let all = push(alloc, all, b"j", Some(Value::Whole(-3)))?;
    let all = push(alloc, all, b"b", Some(Value::Truth(true)))?;
    let all = push(alloc, all, b"n", Some(Value::Absent))?;
    push(alloc, all, b"t", Some(Value::Text(Name::of(alloc, b"ns")?)))
}

/// `v` is the vector 0110 and `w` the vector x1, `s` and `d` are the signals `top.a` and `top.clk`, and `zz` is unassigned.
fn vectors(alloc: Global) -> Result<Variables, NoMemory>
    ensures { IfOk result (λ all. locals_of all.list.items ≡ plain_names ++ vector_names) }
{
    let unknown = Bits::all(2, Digit::One).with_digit(1, Digit::X);
    let all = plain(alloc)?;
    let all = push(
        alloc,
        all,
        b"v",
        Some(Value::Vector(Bits::from_number(4, 6))),
    )?;
    let all = push(alloc, all, b"w", Some(Value::Vector(unknown)))?;
    let all = push(alloc, all, b"s", Some(Value::Signal(SigId(0))))?;
    let all = push(alloc, all, b"d", Some(Value::Signal(SigId(1))))?;
    push(alloc, all, b"zz", None)
}

/// Those, and: `l` is a held lock and `k` a free one, `e` an event that is set and `o` one that isn't, `p` a task that has ended and `q` one
/// that hasn't, `c` a clock, `f` a caught ValueError that says `hm`, `g` a queue that is full, and `h` one that is empty.
pub fn task_names(alloc: Global) -> Result<Variables, NoMemory>
    ensures { IfOk result (λ all. locals_of all.list.items ≡ meaning.task_names) }
{
    let fault = Fault {
        kind: FaultKind::ValueError,
        text: Name::of(alloc, b"hm")?,
    };
    let all = vectors(alloc)?;
    let all = push(alloc, all, b"l", Some(Value::Lock(LockNo(0))))?;
    let all = push(alloc, all, b"k", Some(Value::Lock(LockNo(1))))?;
    let all = push(alloc, all, b"e", Some(Value::Event(EventNo(1))))?;
    let all = push(alloc, all, b"o", Some(Value::Event(EventNo(0))))?;
    let all = push(alloc, all, b"p", Some(Value::Task(TaskNo(1))))?;
    let all = push(alloc, all, b"q", Some(Value::Task(TaskNo(2))))?;
    let all = push(
        alloc,
        all,
        b"c",
        Some(Value::Clock {
            sig: SigId(1),
            half: 5,
        }),
    )?;
    let all = push(alloc, all, b"f", Some(Value::Caught(fault)))?;
    let all = push(alloc, all, b"g", Some(Value::Queue(QueueNo(0))))?;
    push(alloc, all, b"h", Some(Value::Queue(QueueNo(1))))
}
