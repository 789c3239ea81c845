//! A target that was checked.

use gpi::Target;

/// A target whose names and selects were checked.
#[derive(Drop)]
pub struct CheckedTarget {
    /// How many digits it has, where [`TOO_WIDE`](v_flat::scope::TOO_WIDE) stands for all beyond 128: that of a name has at most 128.
    pub width: u8,
    /// Where the digits go.
    pub target: Target,
}
