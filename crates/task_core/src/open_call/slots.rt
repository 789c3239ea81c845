//! The names of a call.
ghost use Rattle.std.specs.Prelude.{◌≡◌, ◌++◌, ◌<◌, [], List, ℕ, IfOk, IfSome, Option, length, slice_get, drop, map};
ghost use Rattle.rig_model.specs.Task.Frame.{locals_of, with_local};
ghost use Rattle.task_core.specs.OpenCall.Slots.{local_in, names_in, valued};

use port_io::{Name, NoMemory, Sequence};
use py_evaluate::attribute::Locals;
use py_value::{Value, copy};
use std::alloc::Global;

/// A name of a call, with its value where it has one.
#[derive(Drop)]
pub(crate) struct Slot<'a> {
    name: &'a Name,
    value: Option<Value>,
}

/// The names of a call with their values; a name without one is unassigned (the language reference, 4.2.2).
#[derive(Drop)]
pub struct Slots<'a> {
    slots: Vec<Slot<'a>>,
}

/// A copy of the value at this place, and the place behind it; none behind the last value.
#[tactic(auto, using(crate::proofs::OpenCallLemmas::Naming::dropped_past, crate::proofs::OpenCallLemmas::Naming::dropped_more, std::proofs::lemmas::Option::slice_get_past))]
fn next_value(
    alloc: Global,
    values: &Sequence<Value>,
    place: &mut usize,
) -> Result<Option<Value>, NoMemory>
    ensures is { IfOk result (λ v. v ≡ slice_get values.now place.old) }
    ensures rest { IfOk result (λ _. drop place.new values.now ≡ drop 1 (drop place.old values.now)) }
{
    if *place < values.len() {
        let value = copy(alloc, values.get(*place))?;
        *place += 1;
        Ok(Some(value))
    } else {
        Ok(None)
    }
}

impl<'a> Slots<'a> {
    /// No name. It takes no memory.
    pub fn none(alloc: Global) -> Slots<'a>
        ensures { names_in result ≡ [] }
    {
        Slots {
            slots: Vec::new(alloc),
        }
    }

    /// The names that are parameters, with these values, in order, and behind them the others. Names for which there is no value are unassigned,
    /// and values beyond all names are left out. Only want of memory is an error.
    pub fn of(
        alloc: Global,
        parameters: &'a Sequence<Name>,
        others: &'a Sequence<Name>,
        values: &Sequence<Value>,
    ) -> Result<Slots<'a>, NoMemory>
        ensures { IfOk result (λ slots. names_in slots ≡ locals_of (parameters.now ++ others.now) values.now) }
    {
        let mut slots = Slots::none(alloc);
        let mut place = 0;
        slots.add(alloc, parameters, values, &mut place)?;
        slots.add(alloc, others, values, &mut place)?;
        Ok(slots)
    }

    /// Adds names with the values from that place on.
    fn add(
        &mut self,
        alloc: Global,
        names: &'a Sequence<Name>,
        values: &Sequence<Value>,
        place: &mut usize,
    ) -> Result<(), NoMemory>
        ensures { IfOk result (λ _. (rest : List (List ℕ)) → names_in self.new ++ locals_of rest (drop place.new values.now)
            ≡ names_in self.old ++ locals_of (names.now ++ rest) (drop place.old values.now)) }
    {
        for at in 0..names.len() {
            let value = next_value(alloc, values, place)?;
            self.slots.push(Slot {
                name: names.get(at),
                value,
            })?;
        }
        Ok(())
    }

    /// The place of a name, where the call has it.
    #[tactic(auto, using(crate::proofs::OpenCallLemmas::Naming::passed_more, crate::proofs::OpenCallLemmas::Naming::passed_found, crate::proofs::OpenCallLemmas::Naming::passed_all))]
    fn place(&self, name: &Name) -> Option<usize>
        ensures within { IfSome result (λ at. at < length self.now.slots.items) }
        ensures is { (value : Option Value)
            → with_local (names_in self.now) name.now value ≡ map local_in (valued self.now.slots.items result value) }
    {
        for at in 0..self.slots.len() {
            if self.slots[at].name.bytes() == name.bytes() {
                return Some(at);
            }
        }
        None
    }

    /// Gives a name this value, or leaves it unassigned. A name that the call doesn't have stays unknown. It takes no memory.
    #[tactic(auto, using(crate::proofs::OpenCallLemmas::Naming::valued_set))]
    pub fn set(&mut self, name: &Name, value: Option<Value>)
        ensures { names_in self.new ≡ with_local (names_in self.old) name.now value }
    {
        if let Some(at) = self.place(name) {
            self.slots[at].value = value;
        }
    }
}

impl<'a> Locals for Slots<'a> {
    ghost names = { names_in };

    fn local(&self, name: &Name) -> Option<&Value> {
        for slot in &self.slots {
            if slot.name.bytes() == name.bytes() {
                return slot.value.as_ref();
            }
        }
        None
    }
}
