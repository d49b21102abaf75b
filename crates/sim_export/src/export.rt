//! What is written of a run.
ghost use Rattle.std.specs.Prelude.{◌≡◌, string_bytes};
ghost use Rattle.sim_cli.specs.Answers.{Writes};
ghost use Rattle.sim_export.specs.Exports.{export_status, export_text, WritesExport};

use sim_cli::{Answered, Status, write_text};
use std::io::Write;

/// What is written of a run: an input for a play, another text, or why there is none.
#[derive(Drop)]
pub enum Export {
    Input(String),
    /// Another text that shows the run, such as a log.
    Shown(Vec<u8>),
    /// The condition fails nowhere in the run.
    Nowhere,
    /// A number of the request is out of range.
    BadRange,
    /// The words are no condition, or the scenario has no such host or probe.
    BadCondition,
    /// A line of the script is at fault. Standard error reports it, and nothing is written.
    BadScript,
    /// The run has no input: no line of a script makes one of its events, or its scenario has no
    /// text that can come before a script.
    NoInput,
}

impl Export {
    /// Returns the text to write.
    pub fn text(&self) -> &[u8]
        ensures { result.now ≡ export_text self.now }
    {
        match self {
            Export::Input(text) => text.as_bytes(),
            Export::Shown(text) => text.as_slice(),
            Export::Nowhere => b"none\n",
            Export::BadRange => b"bad range\n",
            Export::BadCondition => b"bad condition\n",
            Export::BadScript => b"",
            Export::NoInput => b"no input\n",
        }
    }

    /// Returns the status with which the program ends after the text is written.
    pub fn status(&self) -> Status
        ensures { result ≡ export_status self.now }
    {
        match self {
            Export::Input(_) | Export::Shown(_) | Export::Nowhere => Status::Well,
            Export::BadRange | Export::BadCondition | Export::BadScript | Export::NoInput => {
                Status::BadRequest
            }
        }
    }
}

/// Writes an export and flushes the writer. Returns its status, unless the writer fails.
pub fn write_export<W: Write>(writer: &mut W, export: &Export) -> Status
    ensures { WritesExport (W.contents writer.old) (W.contents writer.new) export.now result }
{
    match write_text(writer, export.text()) {
        Answered::Well => export.status(),
        Answered::WriterFailed => Status::WriterFailed,
        Answered::MemoryWanted => Status::MemoryWanted,
    }
}
