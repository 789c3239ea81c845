//! What is known of a process beside its code.
use gpi::{Kind, Wake};
use port_io::Sequence;

/// The kind of a process, and what wakes it.
#[derive(Drop)]
pub struct Header {
    pub kind: Kind,
    pub wakes: Sequence<Wake>,
}
