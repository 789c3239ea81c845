//! The instructions of all processes of a design.
ghost use Rattle.std.specs.Prelude.{◌≡◌, ◌-◌, ◌<◌, ◌≤◌, [], ℕ, length, map, slice_index, OnOk, IfOk};
ghost use Rattle.gpi.specs.Activation.{IsSound};
ghost use Rattle.gpi.specs.Design.{widths};
ghost use Rattle.gpi.specs.Soundness.{IsSoundFlat, AreProcesses};
ghost use Rattle.v_exec.specs.Code.{StandsFor, IsSoundCode};
ghost use Rattle.v_exec.specs.Packed.{ProcessesStand, AreStarts};

use super::backwards::Backwards;
use super::needs::Needs;
use crate::code::Code;
use crate::instruction::Instruction;
use gpi::{Flat, Process, Signal};
use port_io::{NoMemory, Sequence};
use std::alloc::Global;

impl Code {
    /// The processes of a sound design, packed: each activation of the code of a process leaves what one of the process leaves. Only want of
    /// memory is an error.
    pub fn of(alloc: Global, flat: &Flat) -> Result<Code, NoMemory>
        requires { IsSoundFlat flat.now }
        ensures stands { IfOk result (λ code. StandsFor code flat.now) }
        ensures sound { IfOk result (λ code. IsSoundCode code (widths flat.now.signals)) }
    {
        let mut backwards = Backwards::new(alloc);
        let mut places = Vec::new(alloc);
        let needs = backwards.processes(alloc, &flat.processes, &mut places, &flat.signals)?;
        let starts = starts_of(alloc, &places, backwards.len())?;
        let mut instructions = Vec::new(alloc);
        backwards.move_behind(&mut instructions)?;
        Ok(Code {
            instructions,
            starts,
            depth: needs.depth,
            most_stores: needs.stores,
        })
    }
}

impl Backwards {
    /// Adds the instructions of processes over these signals, each up to its `Stop`, and tells what one of them needs at most. `places` gets
    /// how many instructions there are from the start of each one on.
    fn processes(
        &mut self,
        alloc: Global,
        processes: &Sequence<Process>,
        places: &mut Vec<usize>,
        signals: &Sequence<Signal>,
    ) -> Result<Needs, NoMemory>
        requires sound { AreProcesses processes.now (widths signals.now) }
        requires empty { places.old.items ≡ [] }
        ensures { IfOk result (λ needs. ProcessesStand self.new places.new.items processes.now needs) }
    {
        let mut needs = Needs::none();
        for at in 0..processes.len() {
            self.put(Instruction::Stop)?;
            let process = self.act(alloc, &processes.get(at).body, signals)?;
            places.push(self.len())?;
            needs = needs.or(process);
        }
        Ok(needs)
    }
}

/// Where each process begins, by how many instructions there are from its start on, of so many in all.
fn starts_of(alloc: Global, places: &[usize], all: usize) -> Result<Vec<usize>, NoMemory>
    requires { AreStarts places.now all }
    ensures { IfOk result (λ starts. starts.items ≡ map (λ place. all - place) places.now) }
{
    let mut starts = Vec::new(alloc);
    for place in places {
        starts.push(all - *place)?;
    }
    Ok(starts)
}
