//! Why a script ends early.
ghost use Rattle.sim_cli.specs.Following.{StopsAt};

use crate::fault::{LineFault, ScriptFault};
use crate::status::Status;

/// Why a line ends its script.
#[derive(Clone, Copy)]
pub(crate) enum LineStop {
    Fault(LineFault),
    MemoryWanted,
}

/// Why a script ends early.
#[derive(Debug, Drop)]
pub enum ScriptStop {
    /// The reader failed, or memory was wanted.
    Ended(Status),
    /// This line is the first at fault, in a strict script.
    Fault(ScriptFault),
}

impl LineStop {
    /// Returns the end of the script at the line with this number and text.
    pub(crate) fn at(self, number: u64, text: Vec<u8>) -> ScriptStop
        ensures { StopsAt self number text.items result }
    {
        match self {
            LineStop::Fault(why) => ScriptStop::Fault(ScriptFault { number, text, why }),
            LineStop::MemoryWanted => ScriptStop::Ended(Status::MemoryWanted),
        }
    }
}
