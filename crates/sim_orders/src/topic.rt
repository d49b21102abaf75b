//! The commands of a walk, with their short names and their help.
use sim_script::CONDITION_FORM;
use std::alloc::{AllocError, Global};
use strsim::osa_distance;

/// The kind of a command, by its first word. Those without a text are each a command of its own.
#[derive(Clone, Copy)]
pub enum Kind {
    /// A line of a script.
    Line,
    /// A line of a script whose number is 1 if it is left out.
    Count,
    At,
    Cause,
    Last,
    First,
    Held,
    Pending,
    Host,
    Disk,
    Links,
    Event,
    Log,
    Script,
    Help,
    Quit,
}

/// A command.
pub struct Topic {
    /// The first word.
    pub name: &'static str,
    /// A short name, or an empty text.
    pub short: &'static str,
    /// The words that follow it.
    pub words: &'static str,
    /// What it does, in a line of the help.
    pub what: &'static str,
    /// How its words are read.
    pub kind: Kind,
}

/// The commands, in the order of the help.
static TOPICS: [Topic; 35] = [
    Topic {
        name: "step",
        short: "s",
        words: "",
        what: "the first pending occurrence happens",
        kind: Kind::Line,
    },
    Topic {
        name: "run",
        short: "r",
        words: "N",
        what: "at most N steps, until a watch fails or all clients are done",
        kind: Kind::Line,
    },
    Topic {
        name: "tick",
        short: "t",
        words: "",
        what: "all that is due within one tick happens, and the clock goes on by a tick",
        kind: Kind::Line,
    },
    Topic {
        name: "back",
        short: "b",
        words: "[N]",
        what: "N events back, or one",
        kind: Kind::Count,
    },
    Topic {
        name: "forward",
        short: "f",
        words: "[N]",
        what: "N kept events forward, or one",
        kind: Kind::Count,
    },
    Topic {
        name: "goto",
        short: "g",
        words: "P",
        what: "to place P; place 0 is the start",
        kind: Kind::Line,
    },
    Topic {
        name: "at",
        short: "",
        words: "T",
        what: "to the first place at which the clock is T ms or later",
        kind: Kind::At,
    },
    Topic {
        name: "cause",
        short: "c",
        words: "",
        what: "back to just before the event that queued what happens next",
        kind: Kind::Cause,
    },
    Topic {
        name: "last",
        short: "",
        words: "H",
        what: "back to just before the last event of host H",
        kind: Kind::Last,
    },
    Topic {
        name: "first",
        short: "",
        words: "COND",
        what: "to the first place at which the condition fails",
        kind: Kind::First,
    },
    Topic {
        name: "held",
        short: "",
        words: "COND",
        what: "back to the last place at which the condition held, if it fails here",
        kind: Kind::Held,
    },
    Topic {
        name: "rewind",
        short: "",
        words: "N",
        what: "back by at most N events, until a watch fails",
        kind: Kind::Line,
    },
    Topic {
        name: "pending",
        short: "p",
        words: "",
        what: "all that is pending, in the order in which it happens",
        kind: Kind::Pending,
    },
    Topic {
        name: "event",
        short: "e",
        words: "[P]",
        what: "event P, or the one that led here: what caused it, and what it led to",
        kind: Kind::Event,
    },
    Topic {
        name: "log",
        short: "",
        words: "[P [Q]]",
        what: "the kept events from P to Q, a line each",
        kind: Kind::Log,
    },
    Topic {
        name: "host",
        short: "h",
        words: "H",
        what: "the state of host H, its probes, and what is pending for it",
        kind: Kind::Host,
    },
    Topic {
        name: "disk",
        short: "d",
        words: "H",
        what: "the bytes on the disk of host H, and its writes that are not stable",
        kind: Kind::Disk,
    },
    Topic {
        name: "links",
        short: "l",
        words: "",
        what: "the links that are not open, and what they hold",
        kind: Kind::Links,
    },
    Topic {
        name: "look",
        short: "",
        words: "[VIEW]",
        what: "a line of numbers: VIEW is next, host H, link A B or probe H PROBE",
        kind: Kind::Line,
    },
    Topic {
        name: "trace",
        short: "",
        words: "",
        what: "all kept events, as JSON",
        kind: Kind::Line,
    },
    Topic {
        name: "script",
        short: "",
        words: "",
        what: "the input for simback play that leads here",
        kind: Kind::Script,
    },
    Topic {
        name: "crash",
        short: "",
        words: "H",
        what: "host H stops",
        kind: Kind::Line,
    },
    Topic {
        name: "bounce",
        short: "",
        words: "H",
        what: "host H stops if it runs, and starts again",
        kind: Kind::Line,
    },
    Topic {
        name: "hold",
        short: "",
        words: "A B",
        what: "the link between A and B holds its messages",
        kind: Kind::Line,
    },
    Topic {
        name: "release",
        short: "",
        words: "A B",
        what: "a held link lets its messages go and is open",
        kind: Kind::Line,
    },
    Topic {
        name: "partition",
        short: "",
        words: "A B",
        what: "the link between A and B is cut",
        kind: Kind::Line,
    },
    Topic {
        name: "repair",
        short: "",
        words: "A B",
        what: "a cut link is open again",
        kind: Kind::Line,
    },
    Topic {
        name: "cutoneway",
        short: "",
        words: "A B",
        what: "the direction from A to B is cut",
        kind: Kind::Line,
    },
    Topic {
        name: "repaironeway",
        short: "",
        words: "A B",
        what: "a cut direction from A to B is open again",
        kind: Kind::Line,
    },
    Topic {
        name: "cut",
        short: "",
        words: "",
        what: "drops the kept events past this place",
        kind: Kind::Line,
    },
    Topic {
        name: "branch",
        short: "",
        words: "P",
        what: "makes a branch of the first P kept events; @B goes to branch B",
        kind: Kind::Line,
    },
    Topic {
        name: "watch",
        short: "w",
        words: "COND",
        what: "keeps a condition at which run and rewind stop when it fails",
        kind: Kind::Line,
    },
    Topic {
        name: "unwatch",
        short: "",
        words: "W",
        what: "drops the watch with number W",
        kind: Kind::Line,
    },
    Topic {
        name: "help",
        short: "?",
        words: "[COMMAND]",
        what: "an overview of the commands, or what one does",
        kind: Kind::Help,
    },
    Topic {
        name: "quit",
        short: "q",
        words: "",
        what: "ends the walk, as the end of the input does",
        kind: Kind::Quit,
    },
];

/// The commands by topic, on less than a screen of 24 lines.
const OVERVIEW: &str = "\
go on   step (s), run N (r), tick (t)
move    back [N] (b), forward [N] (f), goto P (g), at T, rewind N
find    cause (c), last H, first COND, held COND
show    pending (p), event [P] (e), log [P [Q]], host H (h), disk H (d),
        links (l), look [VIEW], trace, script
faults  crash H, bounce H, hold A B, release A B, partition A B, repair A B,
        cutoneway A B, repaironeway A B
events  cut, branch P
watches watch COND (w), unwatch W
walk    help [COMMAND] (?), quit (q)

`help COMMAND`, as `help first`, says what a command does. H, A and B are hosts,
N is a number of events, P and Q are places, T is a time in ms, W is the number
of a watch, and COND is a condition, as in `first w.next <= 3` (without quotes).
A first word @1, as in `@1 step`, names branch 1; alone it goes there. An empty
line is the last command again.
";

// Returns the commands as a slice. A proof carries the entries of a table through a loop over it,
// and of a slice it knows none.
fn topics() -> &'static [Topic] {
    &TOPICS
}

/// Returns the command with this name or short name.
pub(crate) fn topic_of(word: &str) -> Option<&'static Topic> {
    for topic in topics() {
        if word == topic.name || word == topic.short {
            return Some(topic);
        }
    }
    None
}

// Appends a command in a line.
fn tell_topic(topic: &Topic, said: &mut String) -> Result<(), AllocError> {
    let (name, words) = (topic.name, topic.words);
    let (short, what) = (topic.short, topic.what);
    writeln!(said, "{name:>12} {words:<9} {short:<2} {what}")
}

/// Appends an overview of all commands, or the help for one. Fails only for want of memory.
pub fn tell_help(about: Option<&'static Topic>, said: &mut String) -> Result<(), AllocError> {
    let Some(topic) = about else {
        return said.push_str(OVERVIEW);
    };
    tell_topic(topic, said)?;
    if topic.words == "COND" {
        writeln!(said, "{CONDITION_FORM}")?;
    }
    Ok(())
}

// Returns the command whose name is nearest to a word: at most two letters differ, and in a short
// word at most one or none.
fn nearest(alloc: Global, word: &str) -> Result<Option<&'static str>, AllocError> {
    let mut found = None;
    let mut least = match word.len() {
        0..=2 => 1,
        3..=4 => 2,
        _ => 3,
    };
    for topic in topics() {
        let distance = osa_distance(alloc, word, topic.name)?;
        if distance < least {
            least = distance;
            found = Some(topic.name);
        }
    }
    Ok(found)
}

/// Appends the command nearest to a word, or else the names of all commands.
pub(crate) fn tell_names(alloc: Global, word: &str, said: &mut String) -> Result<(), AllocError> {
    if let Some(name) = nearest(alloc, word)? {
        return writeln!(said, "`{name}` is near; `help` lists the commands");
    }
    said.push_str("commands:")?;
    for topic in topics() {
        let name = topic.name;
        write!(said, " {name}")?;
    }
    said.push_str("\n`help` tells what they do\n")
}
