//! The opening state of the signals, and copies of wakes.
ghost use Rattle.std.specs.Prelude.{◌≡◌, ◌≤◌, None, IfOk, IsTrue, replicate};
ghost use Rattle.gpi.specs.Soundness.{are_wide};
ghost use Rattle.gpi.specs.Design.{start_map, is_net, nets_of};

use four_value::{Bits, Digit};
use gpi::{Signal, Wake};
use port_io::{NoMemory, Sequence};
use std::alloc::{AllocError, Global};

/// The opening map: each signal has its opening digit everywhere. Its one error is the want of memory.
#[tactic(auto, using(crate::proofs::Opening::wide))]
pub fn start_signals(alloc: Global, signals: &Sequence<Signal>) -> Result<Vec<Bits>, NoMemory>
    requires { IsTrue (are_wide signals.now) }
    ensures { IfOk result (λ map. map.items ≡ start_map signals.now) }
{
    let mut map = Vec::new(alloc);
    for at in 0..signals.len() {
        let signal = signals.get(at);
        map.push(Bits::all(signal.width, signal.start))?;
    }
    Ok(map)
}

/// Hidden values of so many signals, none of them forced. Its one error is the want of memory.
pub fn unforced(alloc: Global, signals: usize) -> Result<Vec<Option<Bits>>, AllocError>
    ensures { IfOk result (λ hidden. hidden.items ≡ replicate signals None) }
{
    let mut hidden = Vec::new(alloc);
    let mut at = 0;
    while at < signals {
        hidden.push(None)?;
        at += 1;
    }
    Ok(hidden)
}

/// Which signals are nets: those that begin with z (IEEE 1364-2005, clause 4.2.1). Its one error is the want of memory.
pub fn start_nets(alloc: Global, signals: &Sequence<Signal>) -> Result<Vec<bool>, NoMemory>
    ensures { IfOk result (λ nets. nets.items ≡ nets_of signals.now) }
{
    let mut nets = Vec::new(alloc);
    for at in 0..signals.len() {
        nets.push(is_net(signals.get(at).start))?;
    }
    Ok(nets)
}

/// Whether a signal that begins with this digit is a net.
fn is_net(start: Digit) -> bool
    ensures { result ≡ is_net start }
{
    match start {
        Digit::Z => true,
        _ => false,
    }
}

/// A copy of the wakes. Its one error is the want of memory.
#[tactic(auto, using(crate::proofs::Opening::wakes))]
pub fn copy_wakes(alloc: Global, wakes: &Sequence<Wake>) -> Result<Sequence<Wake>, NoMemory>
    ensures { IfOk result (λ copies. copies ≡ wakes.now) }
{
    let mut copies = Sequence::new(alloc);
    for at in 0..wakes.len() {
        copies.push(*wakes.get(at))?;
    }
    Ok(copies)
}
