//! What the words of the command ask for.

/// What is to be run.
#[derive(Clone, Copy, Debug)]
pub enum Work<'a> {
    /// The tests of a file on the design of another. `top` is the name of its top module, where one was given.
    Files {
        /// The name of the design's file.
        design: &'a str,
        /// The name of the tests' file.
        tests: &'a str,
        /// The name of the top module.
        top: Option<&'a str>,
    },
    /// The generated texts of this number.
    Made(u32),
}

/// What the words of the command ask for.
#[derive(Clone, Copy, Debug)]
pub struct Reading<'a> {
    /// What is to be run.
    pub work: Work<'a>,
    /// What the run may cost, from 1 to 2^40: one for each statement that begins, each condition, each question of a loop and each event of the
    /// simulator.
    pub budget: u64,
    /// The seed of the random numbers.
    pub seed: u64,
    /// Whether each told change of a signal is to be written.
    pub trace: bool,
    /// Whether the VCD text of the run is to be written (IEEE 1364-2005, clause 18), in place of all its lines.
    pub vcd: bool,
}

/// Why no reading is given.
#[derive(Clone, Copy, Debug, PartialEq, Eq)]
pub enum WordsFault {
    /// The words have no reading.
    Usage,
    /// There was no memory to read them.
    OutOfMemory,
}
