//! The end of an instance.

ghost use Rattle.std.specs.Prelude.{◌<◌, IfOk, length};
ghost use Rattle.v_elab.specs.Closes.{Closes};

use crate::state::State;
use port_io::NoMemory;
use std::alloc::Global;
use v_layout::build::Parts;

/// What is built behind the last item of the instance of this number, which is at this path: its names are known. Only want of memory is an
/// error.
pub(crate) fn closed(
    alloc: Global,
    path: &[u8],
    node: usize,
    state: State,
) -> Result<Parts, NoMemory>
    requires { node < length state.parts.nodes.items }
    ensures { IfOk result (Closes path.now node state) }
{
    let State {
        scope: _,
        parts,
        driven: _,
        children,
    } = state;
    parts.with_children(alloc, node, path, children)
}
