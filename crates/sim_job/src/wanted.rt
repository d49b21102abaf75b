//! The requests that a command line can make.

/// The number of workers, 1 to 16, and whether they report their progress.
#[derive(Clone, Copy)]
pub struct Team {
    pub workers: u64,
    pub progress: bool,
}

/// How faults are planned for a run.
#[derive(Clone, Copy)]
pub struct FaultPlan {
    /// One event in this many is a fault or a healing; with `None`, no fault is planned.
    pub faults: Option<u64>,
    /// The number of steps of the quiet end, 0 if the words give none.
    pub quiet: u64,
}

/// What the program must do, and with which input.
#[derive(Clone, Copy)]
pub struct Request<'a> {
    pub job: Job<'a>,
    /// The name of the file with the input, or `None` for the standard input.
    pub file: Option<&'a str>,
}

/// What the program must do.
#[derive(Clone, Copy)]
pub enum Job<'a> {
    /// Plays a script: with `strict` up to the first line at fault.
    Play {
        strict: bool,
    },
    /// Plays a script, and searches for the first place from `lo` to `hi` where the condition
    /// fails. With `strict` no line of the script may be at fault.
    Search {
        team: Team,
        strict: bool,
        lo: u64,
        hi: u64,
        cond: &'a str,
    },
    /// Searches for the first of `count` seeds, from `first` on, whose run fails the condition: at
    /// a place of its first `events` events and its quiet end, or with `at_end` at its last place.
    /// With `script` each run begins with the events that the script leaves, and with `strict` no
    /// line of the script may be at fault. With `json` the answer is a JSON object.
    Sweep {
        team: Team,
        plan: FaultPlan,
        at_end: bool,
        script: bool,
        strict: bool,
        json: bool,
        first: u64,
        count: u64,
        events: u64,
        cond: &'a str,
    },
    /// Writes the run of a numbered seed as an input for a play.
    Script {
        plan: FaultPlan,
        seed: u64,
        events: u64,
    },
    /// Writes a line for each event of the run that a script leaves, from one event to another;
    /// without numbers, from the first to the last. With `json` each is a JSON object.
    Log {
        from: Option<u64>,
        to: Option<u64>,
        json: bool,
    },
    /// Writes the run that a script leaves as a page, with a title and a condition if they are
    /// given.
    Page {
        title: Option<&'a str>,
        watch: Option<&'a str>,
    },
    /// Makes the run that a script leaves as small as possible, with the condition still failing in
    /// it.
    Shrink {
        progress: bool,
        cond: &'a str,
    },
    /// Walks the run that a script leaves, by commands on standard input. Its file is named.
    Walk,
}
