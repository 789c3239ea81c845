//! What is given to a call, and what its step costs.
ghost use Rattle.std.specs.Prelude.{◌≡◌};
ghost use Rattle.rig_model.specs.Task.Cost.{course_cost};
ghost use Rattle.rig_model.specs.Task.Step as meaning;
ghost use Rattle.task_core.specs.OpenCall.Call.{frame_in};
ghost use Rattle.task_core.specs.OpenCall.Course.{course_in};
ghost use Rattle.task_core.specs.Flow.Given.{is_leaving};

use crate::code::Code;
use crate::open_call::{Course, Jump, OpenCall};
use await_tree::Given;
use py_value::Value;

/// Whether a call leaves blocks, once it is given this.
fn is_leaving_given(given: &Option<Given>, course: &Course) -> bool
    ensures { result ≡ is_leaving (meaning.given_to given.now (course_in course.now)) }
{
    match given {
        Some(Given::Fault(_)) => true,
        _ => match course {
            Course::Leaves(_) => true,
            _ => false,
        },
    }
}

/// What the next step of a call costs, where it is given this.
pub(crate) fn step_cost<'a, C: Code<'a>>(call: &OpenCall<'a, C>, given: &Option<Given>) -> u64
    ensures { result ≡ course_cost (meaning.given_to given.now (frame_in C.reads call.now).course) (frame_in C.reads call.now).todo }
{
    if is_leaving_given(given, &call.course) {
        0
    } else {
        call.todo.cost()
    }
}

/// How a call goes on that is given a value: the value is to be used, unless blocks are left.
fn value_given(value: Value, course: Course) -> Course
    ensures { course_in result ≡ meaning.value_given value (course_in course) }
{
    match course {
        Course::Leaves(jump) => Course::Leaves(jump),
        _ => Course::Has(value),
    }
}

/// How a call goes on that is given this: a value is to be used, unless blocks are left, and a fault takes the place of whatever went on.
pub(crate) fn course_given(given: Option<Given>, course: Course) -> Course
    ensures { course_in result ≡ meaning.given_to given (course_in course) }
{
    match given {
        Some(Given::Value(value)) => value_given(value, course),
        Some(Given::Fault(fault)) => Course::Leaves(Jump::Throw(fault)),
        _ => course,
    }
}
