//! The numbers of the command line: their ranges, and the sentence for a value outside of them.
ghost use Rattle.std.specs.Prelude.{◌↔◌, IsTrue};
ghost use Rattle.clap.specs.Words.{IsUnsignedIn};

use clap::ArgMatches;
use std::alloc::{AllocError, Global};

/// A number of the command line, and its range.
struct Ranged {
    id: &'static str,
    /// What the usage calls it.
    name: &'static str,
    least: u64,
    most: u64,
}

/// The most events of a run.
const MAX_EVENTS: u64 = 65_536;

/// The numbers. Those of the workers come first: a request tests no other range. The job tests
/// the others, and where a smaller one applies, as that of the run, it tests this one.
static NUMBERS: [Ranged; 11] = [
    Ranged {
        id: "workers",
        name: "--workers",
        least: 1,
        most: 16,
    },
    Ranged {
        id: "lo",
        name: "LO",
        least: 0,
        most: MAX_EVENTS,
    },
    Ranged {
        id: "hi",
        name: "HI",
        least: 0,
        most: MAX_EVENTS,
    },
    Ranged {
        id: "first",
        name: "FIRST",
        least: 0,
        most: u64::MAX,
    },
    Ranged {
        id: "count",
        name: "COUNT",
        least: 1,
        most: 4_294_967_296,
    },
    Ranged {
        id: "seed",
        name: "I",
        least: 0,
        most: u64::MAX,
    },
    Ranged {
        id: "events",
        name: "EVENTS",
        least: 0,
        most: MAX_EVENTS,
    },
    Ranged {
        id: "faults",
        name: "--faults",
        least: 2,
        most: MAX_EVENTS,
    },
    Ranged {
        id: "quiet",
        name: "--quiet",
        least: 0,
        most: 65_534,
    },
    Ranged {
        id: "from",
        name: "--from",
        least: 1,
        most: MAX_EVENTS,
    },
    Ranged {
        id: "to",
        name: "--to",
        least: 1,
        most: MAX_EVENTS,
    },
];

impl Ranged {
    /// Returns whether a text writes a number of this range.
    fn has(&self, text: &str) -> bool
        ensures { IsTrue result ↔ IsUnsignedIn self.now.least self.now.most text.now }
    {
        match text.parse::<u64>() {
            Ok(number) => self.least <= number && number <= self.most,
            Err(_) => false,
        }
    }

    /// Returns the message for a value that is none of this range. The spaces before a value are
    /// not shown.
    fn message(&self, alloc: Global, value: &str) -> Result<String, AllocError> {
        let (name, least, most) = (self.name, self.least, self.most);
        let value = value.trim_start_matches(' ');
        format!(in alloc;
            "error: {name} is {value:?}; it has to be a whole number from {least} to {most}\n\n\
             For more information, try '--help'.\n"
        )
    }
}

/// Returns the message for the first number of a subcommand that is outside of its range, or `None`
/// if there is none.
pub(crate) fn number_message(
    alloc: Global,
    found: &ArgMatches<'_>,
) -> Result<Option<String>, AllocError> {
    for number in &NUMBERS {
        if let Some(value) = found.get_str(number.id) {
            if !number.has(value) {
                return Ok(Some(number.message(alloc, value)?));
            }
        }
    }
    Ok(None)
}
