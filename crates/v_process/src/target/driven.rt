//! The digits of nets that targets drive.

ghost use Rattle.std.specs.Prelude.{◌≡◌, ◌≤◌, [], Option};
ghost use Rattle.four_value.specs.Limits.{most_digits};
ghost use Rattle.four_value.specs.Vector.{number};
ghost use Rattle.gpi.specs.Selects.{overlap_of};
ghost use Rattle.gpi.specs.Terms.{IsSound, value};
ghost use Rattle.v_flat.specs.Expressions.{no_signals};
ghost use Rattle.v_flat.specs.Targets.{inside_drive};
ghost use Rattle.v_process.specs.Drive.Digits.{IsInVector, drive_of};
ghost use Rattle.v_process.specs.Target.Digits.{IsFixedTarget, digits_of};

use crate::drive::Drive;
use gpi::{Object, Range, SigId, Target, Term};
use v_check::names::range;
use v_flat::scope::DataObject;

/// The value of a term that names no signal, as a number.
fn fixed_index(index: &Term) -> Option<u128>
    requires { IsSound index.now [] }
    ensures { result ≡ number (value index.now no_signals) }
{
    index.eval(&[]).to_number()
}

/// The digits that lie in a net of `whole` digits, of `width` digits from this index upwards.
fn inside(signal: SigId, range: Range, whole: u8, index: Option<u128>, width: u8) -> Drive
    requires whole { whole ≤ most_digits }
    requires width { width ≤ most_digits }
    ensures is { drive_of result ≡ inside_drive signal.0 (overlap_of range whole index width) }
    ensures inside { IsInVector (drive_of result) }
{
    match range.overlap(whole, index, width) {
        Some(overlap) => Drive {
            signal,
            low: overlap.place,
            count: overlap.count,
        },
        None => Drive {
            signal,
            low: 0,
            count: 0,
        },
    }
}

/// The digits of a net that a target drives whose indices are constants, where `object` is what its name means (IEEE 1364-2005, clause
/// 6.1). The target is that of a name, and no braces; a part of a memory's word, which no net has, is no digit.
pub fn driven_digits(object: DataObject, target: &Target) -> Drive
    requires { IsFixedTarget target.now }
    ensures is { drive_of result ≡ digits_of object target.now }
    ensures inside { IsInVector (drive_of result) }
{
    let signal = SigId(object.first);
    match target {
        Target::Whole(Object::Signal(_, width)) => Drive {
            signal,
            low: 0,
            count: *width,
        },
        Target::Whole(Object::Word(_, index, width)) => {
            inside(signal, range(object.bounds), *width, fixed_index(index), 1)
        }
        Target::Select(Object::Signal(_, whole), range, index, width) => {
            inside(signal, *range, *whole, fixed_index(index), *width)
        }
        Target::Select(Object::Word(_, _, _), _, _, _) | Target::Join(_, _) => Drive {
            signal,
            low: 0,
            count: 0,
        },
    }
}
