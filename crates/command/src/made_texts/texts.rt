//! The design, and the tests of a number.
ghost use Rattle.std.specs.Prelude.{◌≡◌, ◌≤◌, IfOk, string_bytes};
ghost use Rattle.command.specs.MadeTexts.Texts.{design_text, front_text, numbers_to, options_text, tests_text};

use port_io::NoMemory;
use std::alloc::{AllocError, Global};

/// The design: a register that counts the rising edges of its clock.
const DESIGN: &[u8] = b"\
module made(input clk, output reg [7:0] q);
  initial q = 0;
  always @(posedge clk) q <= q + 1;
endmodule
";

/// The tests, up to the options of their factory.
const FRONT: &[u8] = b"\
import cocotb
from cocotb.clock import Clock
from cocotb.regression import TestFactory
from cocotb.triggers import ClockCycles, First, Lock, RisingEdge, Timer

async def worker(dut, lock, k):
    while True:
        async with lock:
            await RisingEdge(dut.clk)
        await First(RisingEdge(dut.clk), Timer(k, \"step\"))

async def made(dut, n, m):
    lock = Lock()
    cocotb.start_soon(Clock(dut.clk, 10, \"step\").start())
    for i in range(n):
        cocotb.start_soon(worker(dut, lock, i + 1))
    await ClockCycles(dut.clk, m)
    extra = cocotb.start_soon(worker(dut, lock, n + 1))
    await Timer(3, \"step\")
    extra.kill()

tf = TestFactory(made)
";

/// The text of the design, which is the same for all numbers. It takes no memory.
#[tactic(auto, unfolding(crate::specs::MadeTexts::Texts::design_text))]
pub fn made_design() -> &'static [u8]
    ensures { result.now ≡ design_text }
{
    DESIGN
}

/// The tests, up to the options of their factory. It takes no memory.
#[tactic(auto, unfolding(crate::specs::MadeTexts::Texts::front_text))]
fn tests_front() -> &'static [u8]
    ensures { result.now ≡ front_text }
{
    FRONT
}

/// The numbers from 1 to `last` in decimal digits, with `, ` between.
fn numbers_to(alloc: Global, last: u32) -> Result<String, AllocError>
    requires { 1 ≤ last }
    ensures { IfOk result (λ text. string_bytes text ≡ numbers_to last) }
{
    let mut text = String::from_str(alloc, "1")?;
    for number in 2..=last {
        write!(text, ", {number}")?;
    }
    Ok(text)
}

/// The text of the tests of a number, from the options of their factory on.
fn options_text(alloc: Global, number: u32) -> Result<String, AllocError>
    ensures { IfOk result (λ text. string_bytes text ≡ options_text number) }
{
    let workers = numbers_to(alloc, 1 + number % 16)?;
    let cycles = numbers_to(alloc, 1 + number / 16 % 16)?;
    format!(in alloc;
        "tf.add_option(\"n\", [{workers}])\ntf.add_option(\"m\", [{cycles}])\ntf.generate_tests()\n"
    )
}

/// The text of the tests of a number: one test for each number of workers, which is at most one more than the lowest hexadecimal digit of
/// the number, and each number of clock cycles, which is at most one more than the next digit. Only want of memory is an error.
pub fn made_tests(alloc: Global, number: u32) -> Result<Vec<u8>, NoMemory>
    ensures { IfOk result (λ text. text.items ≡ tests_text number) }
{
    let mut text = tests_front().to_vec(alloc)?;
    let options = options_text(alloc, number)?;
    text.extend_from_slice(options.as_bytes())?;
    Ok(text)
}
