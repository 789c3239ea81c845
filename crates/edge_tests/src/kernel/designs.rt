//! The designs that are simulated.

ghost use Rattle.std.specs.Prelude.{◌≡◌, [], ◌∷◌, IfOk};
ghost use Rattle.gpi.specs.Soundness.{IsSoundFlat};
ghost use Rattle.edge_tests.specs.Kernel.Designs.{
  IsDesign,
  IsEnabledInverse,
  IsFeedback,
  IsInverse,
  IsInverter,
  IsOscillator,
  design_named,
  clocked_copy,
  flip_flops,
  one_process,
  reg,
  value_of,
  wake,
  whole,
  wire,
};

use four_value::Digit;
use gpi::{
    Act, Arith, Flat, Kind, Node, Object, Process, SigId, Signal, Target, Term, Unary, Wake,
    WakeEdge,
};
use port_io::{Name, NoMemory, Sequence};
use std::alloc::Global;

/// A design that a row names.
#[derive(Clone, Copy, Debug)]
pub enum Design {
    /// `module top(input en, output y); assign y = en & ~y; endmodule`
    Oscillator,
    /// `module top(input clk, input [7:0] a, output reg [7:0] q); always @(posedge clk) q <= a; endmodule`
    FlipFlops,
    /// The same with `q <= #3 a;`.
    DelayedFlipFlops,
    /// `module top(input a, output y, output reg q); assign y = ~a; endmodule`
    Inverter,
}

impl Design {
    /// The design of this name, if there is one.
    pub fn named(name: &[u8]) -> Option<Design>
        ensures { result ≡ design_named name.now }
    {
        if name == b"oscillator".as_slice() {
            Some(Design::Oscillator)
        } else if name == b"flip_flops".as_slice() {
            Some(Design::FlipFlops)
        } else if name == b"delayed_flip_flops".as_slice() {
            Some(Design::DelayedFlipFlops)
        } else if name == b"inverter".as_slice() {
            Some(Design::Inverter)
        } else {
            None
        }
    }

    /// The design itself, which is sound. Only want of memory is an error, here and below.
    #[tactic(auto, using(crate::proofs::KernelLemmas::DesignLaws::design_sound))]
    pub fn flat(self, alloc: Global) -> Result<Flat, NoMemory>
        ensures is { IfOk result (IsDesign self) }
        ensures sound { IfOk result (λ flat. IsSoundFlat flat) }
    {
        match self {
            Design::Oscillator => oscillator(alloc),
            Design::FlipFlops => flip_flops(alloc, 0),
            Design::DelayedFlipFlops => flip_flops(alloc, 3),
            Design::Inverter => inverter(alloc),
        }
    }
}

/// A net without a name. It is z while nothing drives it.
fn wire(width: u8) -> Signal
    ensures { result ≡ wire width }
{
    Signal {
        path: Name::empty(),
        width,
        start: Digit::Z,
    }
}

/// A register without a name. It is x until it is written.
fn reg(width: u8) -> Signal
    ensures { result ≡ reg width }
{
    Signal {
        path: Name::empty(),
        width,
        start: Digit::X,
    }
}

/// A wait for an edge or a change of a signal.
fn wake(sig: u32, edge: WakeEdge) -> Wake
    ensures { result ≡ wake sig edge }
{
    Wake {
        sig: SigId(sig),
        edge,
    }
}

/// The value of a signal of this width.
fn value_of(sig: u32, width: u8) -> Term
    ensures { result ≡ value_of sig width }
{
    Term::Signal(SigId(sig), width)
}

/// All digits of a signal of this width, as a target.
fn whole(sig: u32, width: u8) -> Target
    ensures { result ≡ whole sig width }
{
    Target::Whole(Object::Signal(SigId(sig), width))
}

/// The design of one process over these signals, whose top has no names. A step is 1 ns.
fn one_process(alloc: Global, signals: Sequence<Signal>, process: Process) -> Result<Flat, NoMemory>
    ensures { IfOk result (λ flat. flat ≡ one_process signals process) }
{
    let mut processes = Sequence::new(alloc);
    processes.push(process)?;
    let mut nodes = Sequence::new(alloc);
    nodes.push(Node {
        path: Name::empty(),
        children: Sequence::new(alloc),
    })?;
    Ok(Flat {
        signals,
        nodes,
        processes,
        step_fs: 1_000_000,
    })
}

/// `en & ~y`
fn enabled_inverse(alloc: Global) -> Result<Term, NoMemory>
    ensures { IfOk result (λ value. IsEnabledInverse value) }
{
    let inverse = Term::unary(alloc, Unary::Invert, value_of(1, 1))?;
    Term::arith(alloc, Arith::And, value_of(0, 1), inverse)
}

/// `assign y = en & ~y;`
fn feedback(alloc: Global) -> Result<Process, NoMemory>
    ensures { IfOk result (λ process. IsFeedback process) }
{
    let mut wakes = Sequence::new(alloc);
    wakes.push(wake(0, WakeEdge::Any))?;
    wakes.push(wake(1, WakeEdge::Any))?;
    let value = enabled_inverse(alloc)?;
    Ok(Process {
        kind: Kind::Assign,
        wakes,
        body: Act::Blocking(whole(1, 1), value),
    })
}

/// `module top(input en, output y); assign y = en & ~y; endmodule`
fn oscillator(alloc: Global) -> Result<Flat, NoMemory>
    ensures { IfOk result (λ flat. IsOscillator flat) }
{
    let mut signals = Sequence::new(alloc);
    signals.push(wire(1))?;
    signals.push(wire(1))?;
    let process = feedback(alloc)?;
    one_process(alloc, signals, process)
}

/// `assign y = ~a;`
fn inverse(alloc: Global) -> Result<Process, NoMemory>
    ensures { IfOk result (λ process. IsInverse process) }
{
    let mut wakes = Sequence::new(alloc);
    wakes.push(wake(0, WakeEdge::Any))?;
    let value = Term::unary(alloc, Unary::Invert, value_of(0, 1))?;
    Ok(Process {
        kind: Kind::Assign,
        wakes,
        body: Act::Blocking(whole(1, 1), value),
    })
}

/// `module top(input a, output y, output reg q); assign y = ~a; endmodule`
fn inverter(alloc: Global) -> Result<Flat, NoMemory>
    ensures { IfOk result (λ flat. IsInverter flat) }
{
    let mut signals = Sequence::new(alloc);
    signals.push(wire(1))?;
    signals.push(wire(1))?;
    signals.push(reg(1))?;
    let process = inverse(alloc)?;
    one_process(alloc, signals, process)
}

/// `always @(posedge clk) q <= #n a;`, without the delay where n is 0.
fn clocked_copy(alloc: Global, delay: u64) -> Result<Process, NoMemory>
    ensures { IfOk result (λ process. process ≡ clocked_copy delay) }
{
    let mut wakes = Sequence::new(alloc);
    wakes.push(wake(0, WakeEdge::Pos))?;
    Ok(Process {
        kind: Kind::Always,
        wakes,
        body: Act::Nonblocking(whole(2, 8), value_of(1, 8), delay),
    })
}

/// `module top(input clk, input [7:0] a, output reg [7:0] q); always @(posedge clk) q <= #n a; endmodule`, without the delay where n is 0.
fn flip_flops(alloc: Global, delay: u64) -> Result<Flat, NoMemory>
    ensures { IfOk result (λ flat. flat ≡ flip_flops delay) }
{
    let mut signals = Sequence::new(alloc);
    signals.push(wire(1))?;
    signals.push(wire(8))?;
    signals.push(reg(8))?;
    let process = clocked_copy(alloc, delay)?;
    one_process(alloc, signals, process)
}
