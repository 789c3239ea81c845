//! A simulation in the opening state of its design.
ghost use Rattle.std.specs.Prelude.{◌≡◌, ◌<◌, ◌≤◌, ◌++◌, ◌∷◌, [], length, IfOk, if◌then◌else◌};
ghost use Rattle.gpi.specs.Limits.{most_elements};
ghost use Rattle.gpi.specs.Keys.{holds};
ghost use Rattle.gpi.specs.Design.{procs_of, starters, starts};
ghost use Rattle.gpi.specs.Soundness.{IsSoundFlat};
ghost use Rattle.gpi.specs.Content.{opening};
ghost use Rattle.event_queue.specs.Queues.{held, processes_of, none_held};
ghost use Rattle.fast_kernel.specs.Kernel.{content_of, heads, IsLoaded};

use crate::header::Header;
use crate::simulation::Simulation;
use crate::waiters::Waiters;
use callback_book::Book;
use event_queue::Queue;
use gpi::{Flat, Kind, Process, Region};
use kernel_base::{copy_wakes, start_nets, start_signals, unforced};
use port_io::{NoMemory, Sequence};
use std::alloc::Global;
use v_exec::{Code, Workspace};

/// A simulation in the opening state of the design. Its one error is the want of memory.
pub fn opened(alloc: Global, flat: &Flat) -> Result<Simulation, NoMemory>
    requires { IsSoundFlat flat.now }
    ensures { IfOk result (λ simulation. (content_of simulation ≡ opening flat.now) × IsLoaded simulation) }
{
    let signals = flat.signals.len();
    let headers = copy_headers(alloc, &flat.processes)?;
    let code = Code::of(alloc, flat)?;
    let work = Workspace::of(alloc, &code, signals)?;
    let waiters = Waiters::of(alloc, &flat.processes, signals)?;
    let nets = start_nets(alloc, &flat.signals)?;
    let shown = start_signals(alloc, &flat.signals)?;
    let hidden = unforced(alloc, signals)?;
    let queue = start_queue(alloc, &flat.processes)?;
    let reports = Vec::with_capacity(alloc, signals)?;
    let book = Book::new(alloc, signals as u32)?;
    Ok(Simulation {
        headers,
        code,
        work,
        waiters,
        nets,
        shown,
        hidden,
        queue,
        reports,
        told: 0,
        appended: Vec::new(alloc),
        time: 0,
        region: Region::Begin,
        book,
    })
}

/// What is known of the processes beside their code.
fn copy_headers(alloc: Global, processes: &Sequence<Process>) -> Result<Vec<Header>, NoMemory>
    ensures { IfOk result (λ headers. headers.items ≡ heads processes.now) }
{
    let mut headers = Vec::new(alloc);
    for at in 0..processes.len() {
        let process = processes.get(at);
        let wakes = copy_wakes(alloc, &process.wakes)?;
        headers.push(Header {
            kind: process.kind,
            wakes,
        })?;
    }
    Ok(headers)
}

/// The processes that are active from the start.
fn start_queue(alloc: Global, processes: &Sequence<Process>) -> Result<Queue, NoMemory>
    requires { length processes.now ≤ most_elements }
    ensures held { IfOk result (λ queue. held queue ≡ record none_held { active = starters 0 (procs_of processes.now) }) }
    ensures processes { IfOk result (λ queue. processes_of queue ≡ length processes.now) }
{
    let mut queue = Queue::new(alloc, processes.len() as u32)?;
    for at in 0..processes.len() {
        start(&mut queue, at as u32, processes.get(at).kind);
    }
    Ok(queue)
}

/// A process is active, if its kind is from the start.
fn start(queue: &mut Queue, process: u32, kind: Kind)
    requires { process < processes_of queue.old }
    ensures held { let h = held queue.old in held queue.new ≡ record h {
      active = if starts kind then (if holds process h.active then h.active else h.active ++ process ∷ []) else h.active;
    } }
    ensures processes { processes_of queue.new ≡ processes_of queue.old }
{
    match kind {
        Kind::Always => {}
        _ => {
            queue.wake(process);
        }
    }
}
