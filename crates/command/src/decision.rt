//! What the words and the files come to.
use crate::regression::Status;
use gpi::Flat;
use test_meaning::body::TestFile;

/// What is to be done.
#[derive(Drop)]
pub enum Decision {
    /// A refusal, by its status and its line.
    Refused(Status, Vec<u8>),
    /// The tests of a file run on this design.
    Runs(Flat, TestFile),
}
