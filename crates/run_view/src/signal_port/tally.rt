//! How many writes there are of each signal.
ghost use Rattle.std.specs.Prelude.{◌≡◌, ℕ, ◌+◌, ◌-◌, ◌^◌, ◌<◌, ◌==◌, if◌then◌else◌, OnOk, OnErr};
ghost use Rattle.run_view.specs.SignalPort.Queue.{tally_at};

use gpi::SigId;
use indexmap::IndexMap;
use port_io::NoMemory;

/// How many writes there are of a signal.
pub fn count_of(tally: &IndexMap<u32, usize>, sig: SigId) -> usize
    ensures { result ≡ tally_at tally.now sig.0 }
{
    tally.get(&sig.0).copied().unwrap_or(0)
}

/// Counts one write more of a signal. After `NoMemory` all counts are as before.
pub fn add_one(tally: &mut IndexMap<u32, usize>, sig: SigId) -> Result<(), NoMemory>
    requires { tally_at tally.old sig.0 + 1 < 2 ^ 64 }
    ensures ok { OnOk result ((n : ℕ) → tally_at tally.new n ≡ (if sig.0 == n then tally_at tally.old n + 1 else tally_at tally.old n)) }
    ensures err { OnErr result ((n : ℕ) → tally_at tally.new n ≡ tally_at tally.old n) }
{
    let count = count_of(tally, sig);
    tally.insert(sig.0, count + 1)?;
    Ok(())
}

/// Counts one write less of a signal, of which there is one: how many are left.
pub fn take_one(tally: &mut IndexMap<u32, usize>, sig: SigId) -> usize
    requires { 0 < tally_at tally.old sig.0 }
    ensures left { result + 1 ≡ tally_at tally.old sig.0 }
    ensures others { (n : ℕ) → tally_at tally.new n ≡ (if sig.0 == n then tally_at tally.old n - 1 else tally_at tally.old n) }
{
    match tally.get_mut(&sig.0) {
        Some(count) => {
            *count -= 1;
            *count
        }
        None => unreachable!(),
    }
}
