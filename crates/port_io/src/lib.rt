//! The edge of the runner: where texts come from and where lines go.
//!
//! A [`Store`] gives the bytes of a file, a [`Sink`] takes lines; begin with these two. [`MemStore`]
//! and [`MemSink`] keep them in memory and fail where they are told to; [`DirStore`] reads any
//! [`Folder`], the current one of the system among them, through its readers ([`Source`]), and
//! [`WriteSink`] writes into any writer ([`Outlet`]). [`Name`] is a small text, [`Sequence`] values
//! in order, [`boxed`] a value on the heap, [`NoMemory`] the want of memory, and [`line_of`] the line and the column of a place in
//! a text, which has at most [`MOST_BYTES`]. What a real file holds is outside of what contracts can say.
#![tactic(auto)]

mod calls;
mod dir_store;
mod heap;
mod mem_sink;
mod mem_store;
mod name;
mod outlet;
mod ports;
mod pos;
mod sequence;
mod source;
mod write_sink;

pub use dir_store::DirStore;
pub use heap::{boxed, boxed_both, unboxed};
pub use mem_sink::MemSink;
pub use mem_store::MemStore;
pub use name::Name;
pub use outlet::Outlet;
pub use ports::{NoMemory, Sink, SinkFault, Store, StoreFault};
pub use pos::{Pos, line_of};
pub use sequence::Sequence;
pub use source::{CurrentFolder, Folder, Source};
pub use write_sink::WriteSink;

/// The most bytes that the text of a design may have, and that of a tests file.
pub const MOST_BYTES: usize = 1_048_576;
