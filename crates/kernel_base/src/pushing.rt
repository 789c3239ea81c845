//! Lists of process numbers.
ghost use Rattle.std.specs.Prelude.{◌≡◌, ◌<◌, ◌≤◌, ◌++◌, ◌∷◌, [], false, vec_capacity};
ghost use Rattle.gpi.specs.Keys.{holds};
ghost use Rattle.kernel_base.specs.Lists.{AreBelow, AreDistinct};

/// Puts a process at the end of a list of processes, each of which stands there once; there are `count` processes. It takes no memory.
#[inline(always)]
#[tactic(auto, using(crate::proofs::Lists::pushes))]
pub fn push_once(processes: &mut Vec<u32>, process: u32, count: usize)
    requires inside { process < count }
    requires new { holds process processes.old.items ≡ false }
    requires below { AreBelow count processes.old.items }
    requires distinct { AreDistinct processes.old.items }
    requires room { count ≤ vec_capacity processes.old }
    ensures is { processes.new.items ≡ processes.old.items ++ process ∷ [] }
    ensures below { AreBelow count processes.new.items }
    ensures distinct { AreDistinct processes.new.items }
    ensures room { vec_capacity processes.old ≤ vec_capacity processes.new }
{
    processes.push(process).unwrap();
}
