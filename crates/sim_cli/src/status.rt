//! How a play or another job ended, as an exit status.
ghost use Rattle.std.specs.Prelude.{◌≡◌};
ghost use Rattle.sim_cli.specs.Statuses.{status_number};

/// How a play ended.
#[derive(Clone, Copy, Debug, PartialEq, Eq)]
pub enum Status {
    /// The whole script was answered, even if commands were refused.
    Well,
    /// There is no scenario; the line of its fault was written.
    BadScenario,
    /// The request cannot be carried out, or a line of a strict script is at fault.
    BadRequest,
    /// The reader failed, or had not ended after 2^40 reads. A play has answered all whole lines
    /// that were read.
    ReaderFailed,
    /// The writer failed, and nothing more was written.
    WriterFailed,
    /// Memory was wanted. A command that wants memory ends a strict play, or a script without
    /// answers, in this way; in another play its line reports that.
    MemoryWanted,
}

impl Status {
    /// Returns the exit status of the program, 0 to 4. Failures of the reader and of the writer
    /// have the same.
    pub fn number(self) -> u8
        ensures { result ≡ status_number self }
    {
        match self {
            Status::Well => 0,
            Status::BadScenario => 1,
            Status::BadRequest => 2,
            Status::ReaderFailed | Status::WriterFailed => 3,
            Status::MemoryWanted => 4,
        }
    }
}

/// How the writing of an answer ended.
#[derive(Clone, Copy)]
pub enum Answered {
    Well,
    WriterFailed,
    /// Memory was wanted for the answer.
    MemoryWanted,
}
