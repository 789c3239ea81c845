//! What running packed processes needs.
ghost use Rattle.std.specs.Prelude.{◌≡◌, ◌≤◌, ◌∷◌, [], ℕ, length, vec_capacity, IfOk};
ghost use Rattle.gpi.specs.Limits.{most_elements};
ghost use Rattle.v_exec.specs.declared.code.Code.{Code};
ghost use Rattle.v_exec.specs.Workspace.{IsReady, IsWorkspace, AreMarks};

use crate::code::Code;
use crate::stack::Stack;
use four_value::Bits;
use gpi::{SigId, Update};
use port_io::NoMemory;
use std::alloc::Global;

/// A signal whose shown value was written, and the value that it showed before.
#[derive(Clone, Copy)]
pub struct Touched {
    pub sig: SigId,
    pub before: Bits,
}

/// Room for one activation, made beforehand, and what the last one touched.
#[derive(Drop)]
pub struct Workspace {
    pub(crate) stack: Stack,
    /// The updates that were noted.
    pub(crate) noted: Vec<Update>,
    /// The signals whose shown value was written, each once.
    pub(crate) touched: Vec<Touched>,
    /// Whether a signal is touched, by its number.
    pub(crate) flags: Vec<bool>,
}

impl Workspace {
    /// Room for the processes of this code over so many signals. Only want of memory is an error.
    pub fn of(alloc: Global, code: &Code, signals: usize) -> Result<Workspace, NoMemory>
        ensures { IfOk result (IsReady code.now signals) }
    {
        Ok(Workspace {
            stack: Stack::of(alloc, code.depth)?,
            noted: Vec::with_capacity(alloc, code.most_stores)?,
            touched: Vec::with_capacity(alloc, code.most_stores)?,
            flags: vec![in alloc; false; signals]?,
        })
    }

    /// The signals whose shown value was written since the last `clear`, each once.
    pub fn touched(&self) -> &[Touched]
        ensures { result.now ≡ self.now.touched.items }
    {
        &self.touched
    }

    /// No signal is touched from now on. It takes as long as there are signals that are.
    pub fn clear(&mut self)
        requires { AreMarks self.old.flags.items self.old.touched.items }
        ensures { (code : Code) (n : ℕ) → IsWorkspace code n self.old → IsReady code n self.new }
    {
        take_back(&self.touched, &mut self.flags);
        self.touched.clear();
    }
}

/// Takes the flags of touched signals back.
fn take_back(touched: &[Touched], flags: &mut [bool])
    requires { AreMarks flags.old touched.now }
    ensures marks { AreMarks flags.new [] }
    ensures count { length flags.new ≡ length flags.old }
{
    let mut at = 0;
    while at < touched.len() {
        let signal = touched[at];
        flags[signal.sig.0 as usize] = false;
        at += 1;
    }
}
