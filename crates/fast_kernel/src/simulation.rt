//! A design that is simulated.

use crate::header::Header;
use crate::waiters::Waiters;
use callback_book::Book;
use event_queue::Queue;
use four_value::Bits;
use gpi::{Region, Report, Update};
use v_exec::{Code, Workspace};

/// A design that is simulated: its packed processes, who waits for which signal, what the signals show and hide, and what is still to be done.
#[derive(Drop)]
pub struct Simulation {
    pub headers: Vec<Header>,
    pub code: Code,
    pub work: Workspace,
    pub waiters: Waiters,
    pub nets: Vec<bool>,
    pub shown: Vec<Bits>,
    /// By signal, the hidden value of one that is forced.
    pub hidden: Vec<Option<Bits>>,
    pub queue: Queue,
    /// The changes of the last activation.
    pub reports: Vec<Report>,
    /// How many of them were told.
    pub told: usize,
    /// Updates that an activation has just appended.
    pub appended: Vec<Update>,
    pub time: u64,
    pub region: Region,
    pub book: Book,
}
