//! The lines of a script that are at fault, and why.
ghost use Rattle.std.specs.Prelude.{◌≡◌};
ghost use Rattle.sim_cli.specs.Strict.{fault_of_turn, tells_want, wants_memory};

use crate::opened::Opened;
use sim_book::{Entry, NotTaken, Refusal, Reply};
use sim_script::LineMistake;
use std::fmt;

/// The most bytes of a line that are shown.
const MAX_TOLD: usize = 256;

/// Why a line of a script is at fault.
#[derive(Clone, Copy, Debug)]
pub enum LineFault {
    /// The line is no command.
    Bad(LineMistake),
    /// Its command was refused.
    Refused(Refusal),
    /// Its command was not taken.
    NotTaken(NotTaken),
}

impl LineFault {
    /// Returns whether it reports want of memory, which is no fault of the line.
    pub fn wants_memory(&self) -> bool
        ensures { result ≡ wants_memory self.now }
    {
        matches!(
            self,
            LineFault::Refused(Refusal::NoMemory) | LineFault::NotTaken(NotTaken::NoMemory)
        )
    }
}

impl fmt::Display for LineFault {
    fn fmt<W: fmt::Write>(&self, f: &mut fmt::Formatter<W>) -> fmt::Result {
        match self {
            LineFault::Bad(mistake) => write!(f, "{mistake}"),
            LineFault::Refused(refusal) => {
                let number = *refusal as u8 + 1;
                write!(f, "refused {number} {refusal:?}")
            }
            LineFault::NotTaken(why) => write!(f, "not taken {why:?}"),
        }
    }
}

/// The first line of a script that is at fault.
#[derive(Debug, Drop)]
pub struct ScriptFault {
    /// The line's number in the script, from 1. All lines past the last number of 64 bits have that
    /// number.
    pub number: u64,
    /// The line, or a front of it that is longer than a line may be.
    pub text: Vec<u8>,
    pub why: LineFault,
}

/// A line as it is shown: with `?` for each byte that is no printable ASCII, and `..` for all after
/// the first 256 bytes.
#[derive(Drop)]
struct Told<'a> {
    line: &'a [u8],
}

impl fmt::Display for Told<'_> {
    fn fmt<W: fmt::Write>(&self, f: &mut fmt::Formatter<W>) -> fmt::Result {
        for byte in self.line.iter().take(MAX_TOLD) {
            if b' ' <= *byte && *byte <= b'~' {
                f.write_char(char::from(*byte))?;
            } else {
                f.write_char('?')?;
            }
        }
        if self.line.len() > MAX_TOLD {
            f.write_str("..")?;
        }
        Ok(())
    }
}

/// Returns the reason why a turn is no answer to a command that was carried out, if there is one.
pub fn fault_of_turn(turn: &Result<Entry, NotTaken>) -> Option<LineFault>
    ensures { result ≡ fault_of_turn turn.now }
{
    match turn {
        Ok(entry) => match &entry.reply {
            Reply::Refused(why) => Some(LineFault::Refused(*why)),
            _ => None,
        },
        Err(why) => Some(LineFault::NotTaken(*why)),
    }
}

/// Returns whether a fault, if there is one, reports want of memory.
pub fn tells_want(fault: Option<LineFault>) -> bool
    ensures { result ≡ tells_want fault }
{
    match fault {
        Some(why) => why.wants_memory(),
        None => false,
    }
}

// Returns the number of lines of an input before its script: those of the scenario, and the line
// `---`.
fn lines_before(opened: &Opened) -> u64 {
    let mut lines: u64 = 1;
    for byte in opened.text.as_slice() {
        if *byte == b'\n' {
            lines = lines.saturating_add(1);
        }
    }
    lines
}

/// Reports on standard error which line of a script is at fault, and why. A failure of standard
/// error is ignored.
pub fn tell_fault<H: Eprint>(host: &H, opened: &Opened, fault: &ScriptFault) {
    let (number, why) = (fault.number, fault.why);
    let whole = number.saturating_add(lines_before(opened));
    let line = Told {
        line: fault.text.as_slice(),
    };
    let _told = eprintln!(host;
        "line {number} of the script (line {whole} of the input), \"{line}\": {why}"
    );
}
