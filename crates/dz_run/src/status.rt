//! How the program ends.

ghost use Rattle.std.specs.Prelude.{◌≡◌};
ghost use Rattle.std.specs.Process.{exit_status};
ghost use Rattle.dz_run.specs.Exit.{number_of, exit_number};

use dz_desk::DeskError;
use std::process::ExitCode;

/// How a command ended.
#[derive(Clone, Copy, Debug, PartialEq, Eq)]
pub enum Status {
    Done,
    /// The words are none of the five forms.
    Usage,
    /// A line of the input is bad.
    BadInput,
    /// The input can't be read.
    ReadFault,
    /// The output can't be written.
    WriteFault,
    /// A device that listens can't be opened, or failed.
    PortFault,
    /// Out of memory.
    NoMemory,
}

impl Status {
    /// The number of the exit code.
    pub fn number(self) -> u8
        ensures { result ≡ number_of self }
    {
        match self {
            Status::Done => 0,
            Status::Usage => 2,
            Status::BadInput => 3,
            Status::ReadFault => 4,
            Status::WriteFault => 5,
            Status::PortFault => 6,
            Status::NoMemory => 7,
        }
    }
}

/// The exit code of the program: that of its status, or 8 where its desk had no seat for a reading.
pub fn exit_code(ended: Result<Status, DeskError>) -> ExitCode
    ensures { exit_status result ≡ exit_number ended }
{
    match ended {
        Ok(status) => ExitCode::from(status.number()),
        Err(DeskError::OutOfMemory) => ExitCode::from(Status::NoMemory.number()),
        Err(DeskError::NoSeat) => ExitCode::from(8),
    }
}
