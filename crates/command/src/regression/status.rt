//! How a run of the program ends.
ghost use Rattle.std.specs.Prelude.{◌≡◌};
ghost use Rattle.std.specs.Result.{result_err};
ghost use Rattle.command.specs.Regression.Status.{code_of, put_status};

use port_io::SinkFault;

/// How a run of the program ends.
#[derive(Clone, Copy, Debug, PartialEq, Eq)]
pub enum Status {
    /// No test failed.
    Passed,
    /// A test failed.
    Failed,
    /// The words have no reading.
    Usage,
    /// The design was refused.
    DesignRefused,
    /// The tests were refused.
    TestsRefused,
    /// A file could not be read.
    ReadFault,
    /// A line could not be written.
    WriteFault,
    /// Memory was short.
    NoMemory,
    /// The budget was reached before the run was over.
    Budget,
}

impl Status {
    /// The number that the process ends with.
    pub fn code(self) -> u8
        ensures { result ≡ code_of self }
    {
        match self {
            Status::Passed => 0,
            Status::Failed => 1,
            Status::Usage => 2,
            Status::DesignRefused => 3,
            Status::TestsRefused => 4,
            Status::ReadFault => 5,
            Status::WriteFault => 6,
            Status::NoMemory => 7,
            Status::Budget => 8,
        }
    }

    /// The status after puts that were to end in this one: `WriteFault` where one failed, and `NoMemory` where memory was short.
    pub fn after(self, put: Result<(), SinkFault>) -> Status
        ensures { result ≡ put_status self (result_err put) }
    {
        match put {
            Ok(()) => self,
            Err(SinkFault::Failed) => Status::WriteFault,
            Err(SinkFault::OutOfMemory) => Status::NoMemory,
        }
    }
}
