//! The definition of the command line. To clap a number is a word like any other: `line.rt` reads
//! it, so that the message for a wrong one is the program's own.
//!
//! Arguments and subcommands are rows of tables, from which one function makes a value of clap's:
//! each function that owns such a value is dear to prove. The subcommands are a table, and the
//! arguments of each are another: to the prover all the texts of a table are one, in which it
//! counts to the place of each, so one table for all is dear.
ghost use Rattle.std.specs.Prelude.{◌≡◌, map, IfOk};
ghost use Rattle.clap.specs.Words.{app_of};
ghost use Rattle.sim_job.specs.CommandLine as line;
ghost use Rattle.sim_job.specs.CommandLine.{IsArgument, IsCommand};
ghost use Rattle.sim_job.specs.Described.{rule_by, rules_of, shape_by, with_rows};

use clap::{Arg, ArgAction, Command};
use std::alloc::{AllocError, Global};

/// How an argument is given.
#[derive(Clone, Copy)]
enum Form {
    /// `--ID`.
    Flag,
    /// `--ID VALUE`: what the usage calls the value, and its defaults.
    Valued(&'static str, &'static [&'static str]),
    /// A word: what the usage calls it, and whether it has to be given.
    Word(&'static str, bool),
}

/// An argument of a subcommand.
#[derive(Clone, Copy)]
struct Described {
    id: &'static str,
    form: Form,
    help: &'static str,
}

/// The kind of a subcommand's job.
#[derive(Clone, Copy)]
enum JobKind {
    Play,
    Search,
    Sweep,
    Script,
    Shrink,
    Log,
    Page,
    Walk,
}

/// A subcommand. `arguments_of` has the arguments of its kind.
#[derive(Clone, Copy)]
struct Subcommand {
    kind: JobKind,
    name: &'static str,
    about: &'static str,
    /// What stands at the end of its help.
    example: &'static str,
}

const WORKERS: Described = Described {
    id: "workers",
    form: Form::Valued("N", &["2"]),
    help: "How many workers share the work, 1 to 16",
};

const PROGRESS: Described = Described {
    id: "progress",
    form: Form::Flag,
    help: "Tell on standard error how far the work is",
};

const FAULTS: Described = Described {
    id: "faults",
    form: Form::Valued("F", &[]),
    help: "Make one event in F a fault or a healing, 2 to 65536; without it there is none",
};

const QUIET: Described = Described {
    id: "quiet",
    form: Form::Valued("Q", &["0"]),
    help: "End each run with its healings and Q steps",
};

const STRICT: Described = Described {
    id: "strict",
    form: Form::Flag,
    help: "Stop at the first line of the script that is bad or refused, with status 2",
};

const COND: Described = Described {
    id: "cond",
    form: Form::Word("COND", true),
    help: "The condition, as one word in quotes, such as \"w.next <= 3\"",
};

/// The last word of each command but a walk.
const INPUT: Described = Described {
    id: "file",
    form: Form::Word("FILE", false),
    help: "The file with the input; without it standard input",
};

static PLAY: [Described; 2] = [STRICT, INPUT];

static SEARCH: [Described; 7] = [
    WORKERS,
    PROGRESS,
    STRICT,
    Described {
        id: "lo",
        form: Form::Word("LO", true),
        help: "The first place to look at",
    },
    Described {
        id: "hi",
        form: Form::Word("HI", true),
        help: "The last place to look at",
    },
    COND,
    INPUT,
];

static SWEEP: [Described; 13] = [
    WORKERS,
    PROGRESS,
    Described {
        id: "script",
        form: Form::Flag,
        help: "Begin each run with the events that the script leaves",
    },
    STRICT,
    FAULTS,
    QUIET,
    Described {
        id: "at-end",
        form: Form::Flag,
        help: "Look at the last place of each run alone",
    },
    Described {
        id: "json",
        form: Form::Flag,
        help: "Write the answer as a JSON object on a line",
    },
    Described {
        id: "first",
        form: Form::Word("FIRST", true),
        help: "The number of the first seed",
    },
    Described {
        id: "count",
        form: Form::Word("COUNT", true),
        help: "How many seeds to run",
    },
    Described {
        id: "events",
        form: Form::Word("EVENTS", true),
        help: "How many steps to run with each seed, at most",
    },
    COND,
    INPUT,
];

static SCRIPT: [Described; 5] = [
    FAULTS,
    QUIET,
    Described {
        id: "seed",
        form: Form::Word("I", true),
        help: "The number of the seed",
    },
    Described {
        id: "events",
        form: Form::Word("EVENTS", true),
        help: "How many steps to run, at most",
    },
    INPUT,
];

static SHRINK: [Described; 3] = [PROGRESS, COND, INPUT];

static LOG: [Described; 4] = [
    Described {
        id: "from",
        form: Form::Valued("P", &[]),
        help: "The first event to tell; without it 1",
    },
    Described {
        id: "to",
        form: Form::Valued("Q", &[]),
        help: "The last event to tell; without it the last",
    },
    Described {
        id: "json",
        form: Form::Flag,
        help: "Write each event as a JSON object on a line",
    },
    INPUT,
];

static PAGE: [Described; 3] = [
    Described {
        id: "title",
        form: Form::Valued("TEXT", &[]),
        help: "The heading of the page",
    },
    Described {
        id: "watch",
        form: Form::Valued("COND", &[]),
        help: "Conditions, as one word in quotes, with ; between: the page shows where each fails",
    },
    INPUT,
];

static WALK: [Described; 1] = [Described {
    id: "file",
    form: Form::Word("FILE", true),
    help: "The file with the input",
}];

/// The subcommands, in the order of the help.
static SUBCOMMANDS: [Subcommand; 8] = [
    Subcommand {
        kind: JobKind::Play,
        name: "play",
        about: "Play the script, and write one line for each command",
        example: "Example: simback play examples/first-run.play",
    },
    Subcommand {
        kind: JobKind::Search,
        name: "search",
        about: "Play the script, and find the first place where a condition fails",
        example: "Example: simback search --workers 4 0 6 \"w.next <= 1\" examples/first-run.play",
    },
    Subcommand {
        kind: JobKind::Sweep,
        name: "sweep",
        about: "Run the scenario with other seeds, and find the first that fails a condition",
        example: "\
Example: simback sweep --progress 0 1000 500 \"a.first != 2\" examples/torn-commit.play
Example: simback sweep --faults 8 0 1500 120 \"agree first unless 0\" examples/torn-commit.play",
    },
    Subcommand {
        kind: JobKind::Script,
        name: "script",
        about: "Write the run of a seed, as a sweep makes it, as an input for a play",
        example: "Example: simback script --faults 8 654 120 examples/torn-commit.play",
    },
    Subcommand {
        kind: JobKind::Shrink,
        name: "shrink",
        about: "Make the run that the script leaves as small as a condition still fails in it",
        example: "Example: simback shrink \"agree first unless 0\" run.play",
    },
    Subcommand {
        kind: JobKind::Log,
        name: "log",
        about: "Play the script, and tell in words what each event of its run did",
        example: "Example: simback log --from 8 examples/torn-commit.play",
    },
    Subcommand {
        kind: JobKind::Page,
        name: "page",
        about: "Play the script, and write its run as an HTML page to walk back and forth",
        example: "\
Example: simback page --watch \"agree first unless 0\" examples/torn-commit.play > run.html",
    },
    Subcommand {
        kind: JobKind::Walk,
        name: "walk",
        about: "Walk the run of a script forward and back, by commands on standard input",
        example: "Example: simback walk examples/torn-commit.play",
    },
];

/// Returns the argument with this description. The long name of a flag or an option is its id.
fn argument_by<'a>(alloc: Global, described: &Described) -> Arg<'a>
    ensures { IsArgument (rule_by described.now) result }
{
    let Described { id, form, help } = *described;
    let arg = Arg::new(alloc, id).help(help);
    match form {
        Form::Flag => arg.long(id).action(ArgAction::SetTrue),
        Form::Valued(name, defaults) => arg.long(id).value_name(name).default_values(defaults),
        Form::Word(name, required) => arg.value_name(name).required(required),
    }
}

/// Returns the arguments of a subcommand, in the order of its help.
fn arguments_of(kind: JobKind) -> &'static [Described]
    ensures { map rule_by result.now ≡ rules_of kind }
{
    match kind {
        JobKind::Play => &PLAY,
        JobKind::Search => &SEARCH,
        JobKind::Sweep => &SWEEP,
        JobKind::Script => &SCRIPT,
        JobKind::Shrink => &SHRINK,
        JobKind::Log => &LOG,
        JobKind::Page => &PAGE,
        JobKind::Walk => &WALK,
    }
}

/// Returns the subcommand with this description.
fn subcommand_by<'a>(alloc: Global, described: &Subcommand) -> Result<Command<'a>, AllocError>
    ensures { IfOk result (IsCommand (shape_by described.now)) }
{
    let Subcommand {
        kind,
        name,
        about,
        example,
    } = *described;
    let args = arguments_of(kind);
    let mut made = Command::new(alloc, name).about(about).after_help(example);
    for arg in args {
        made = made.arg(argument_by(alloc, arg))?;
    }
    Ok(made)
}

/// The program, before it has its subcommands.
fn bare<'a>(alloc: Global) -> Command<'a>
    ensures { app_of result ≡ line.bare }
{
    Command::new(alloc, "simback")
        .version("0.1.0")
        .about("A simulated cluster that can be walked backwards")
        .subcommand_required(true)
}

/// Returns the program with these subcommands.
fn with_all<'a>(alloc: Global, rows: &[Subcommand]) -> Result<Command<'a>, AllocError>
    ensures { IfOk result (λ c. app_of c ≡ with_rows line.bare rows.now) }
{
    let mut program = bare(alloc);
    for row in rows {
        program = program.subcommand(subcommand_by(alloc, row)?)?;
    }
    Ok(program)
}

/// The command line of the program.
pub(crate) fn program<'a>(alloc: Global) -> Result<Command<'a>, AllocError>
    ensures { IfOk result (λ c. app_of c ≡ line.program) }
{
    with_all(alloc, &SUBCOMMANDS)
}
