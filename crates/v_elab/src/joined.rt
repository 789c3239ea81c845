//! What connected ports are joined to, by their names.

ghost use Rattle.std.specs.Prelude.{◌≡◌, ℕ, List, None, Some, IfOk, OnOk, false, bytes_eq, if◌then◌else◌};
ghost use Rattle.std.specs.HashMap.{get_by};
ghost use Rattle.v_elab.specs.PortsSteps.{first_joined, joined_at};

use crate::connect::{Joined, Joint, Joints};
use port_io::NoMemory;
use std::alloc::Global;
use std::collections::HashMap;

/// What each connected port is joined to, found by its name.
#[derive(Drop)]
pub(crate) struct JoinedPorts {
    by_name: HashMap<Vec<u8>, Joined>,
}

/// From now on this name has this value. Only want of memory is an error.
fn set<V: Drop>(table: &mut HashMap<Vec<u8>, V>, name: Vec<u8>, value: V) -> Result<(), NoMemory>
    ensures { OnOk result ((n : List ℕ)
        → get_by (λ k. bytes_eq n k.items) table.new ≡ (if bytes_eq n name.items then Some value else get_by (λ k. bytes_eq n k.items) table.old)) }
{
    table.insert(name, value)?;
    Ok(())
}

impl JoinedPorts {
    /// No port is joined to anything.
    fn none(alloc: Global) -> JoinedPorts
        ensures { (n : List ℕ) → joined_at result n ≡ None }
    {
        JoinedPorts {
            by_name: HashMap::new(alloc),
        }
    }

    /// From now on the port of this joint is joined to what it says. Only want of memory is an error.
    fn put(&mut self, joint: Joint) -> Result<(), NoMemory>
        ensures { OnOk result
            ((n : List ℕ) → joined_at self.new n ≡ (if bytes_eq n joint.port.items then Some joint.joined else joined_at self.old n)) }
    {
        set(&mut self.by_name, joint.port, joint.joined)
    }

    /// What these joints say, each by the name of its port; of two with one name the first counts. Only want of memory is an error.
    pub(crate) fn of(alloc: Global, joints: Joints) -> Result<JoinedPorts, NoMemory>
        ensures { IfOk result (λ found. (n : List ℕ) → joined_at found n ≡ first_joined joints.list.items n) }
    {
        let mut list = joints.list;
        let mut found = JoinedPorts::none(alloc);
        while let Some(joint) = list.pop() {
            found.put(joint)?;
        }
        Ok(found)
    }

    /// What the port of this name is joined to, which is taken out; none where it is joined to nothing.
    pub(crate) fn take(&mut self, name: &[u8]) -> Option<Joined>
        ensures found { result ≡ joined_at self.old name.now }
        ensures others { (n : List ℕ) → bytes_eq name.now n ≡ false → joined_at self.new n ≡ joined_at self.old n }
    {
        self.by_name.remove(name)
    }
}
