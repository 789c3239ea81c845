//! The paths of a design.
ghost use Rattle.std.specs.Prelude.{◌≡◌};
ghost use Rattle.py_value.specs.Places.{places_of};

use gpi::{Flat, SigId};

/// What tells the paths of a design's signals and nodes. No call takes memory.
pub trait Paths {
    ghost use Rattle.std.specs.Prelude.{◌≡◌, ◌<◌, length};
    ghost use Rattle.py_value.specs.Places.{Places, path_at};

    /// The paths, by number.
    ghost places: { Self → Places };

    /// The path of a signal of the design, from the top, with dots.
    fn path(&self, sig: SigId) -> &[u8]
        requires { sig.0 < length (places self.now).signals }
        ensures { result.now ≡ path_at (places self.now).signals sig.0 };

    /// The path of a node of the design, from the top, with dots.
    fn node_path(&self, node: u32) -> &[u8]
        requires { node < length (places self.now).nodes }
        ensures { result.now ≡ path_at (places self.now).nodes node };
}

impl Paths for Flat {
    ghost places = { places_of };

    #[tactic(auto, using(crate::proofs::Found::found))]
    fn path(&self, sig: SigId) -> &[u8] {
        self.signals.get(sig.0 as usize).path.bytes()
    }

    #[tactic(auto, using(crate::proofs::Found::found))]
    fn node_path(&self, node: u32) -> &[u8] {
        self.nodes.get(node as usize).path.bytes()
    }
}
