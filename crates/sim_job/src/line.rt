//! The request that the words of a command line make.
ghost use Rattle.std.specs.Prelude.{◌≡◌, ◌≢◌, ◌⊎◌, ℕ, codes, map, IfOk, MatchOption, MatchResult};
ghost use Rattle.std.specs.Prelude.{Option, Some, option_map};
ghost use Rattle.clap.specs.Words.{first_of, found_of, kind_of, rows_of, subcommand_rows_of};
ghost use Rattle.sim_job.specs.CommandLine.{Asks, HasFewWorkers, HasFlag, HasNumber, HasOption};
ghost use Rattle.sim_job.specs.CommandLine.{HasTeam, HasFaultPlan, HasWorkers};
ghost use Rattle.sim_job.specs.CommandLine.{IsFault, IsHelp, IsRequestOf, IsUsage};

use crate::definition::program;
use crate::numbers::number_message;
use crate::{FaultPlan, Job, Request, Team};
use clap::error::ErrorKind;
use clap::{ArgMatches, Error};
use std::alloc::{AllocError, Global};
use std::convert::AsStr;

/// Why a command line makes no request.
#[derive(Debug, Drop)]
pub enum LineError {
    /// The words ask for help or the version: its text.
    Help(String),
    /// The words are wrong: the mistake, and how to call the program.
    Usage(String),
    NoMemory,
}

impl LineError {
    ghost use Rattle.sim_job.specs.Status.{status_of};

    /// Returns the exit status of the program: 0 for help, 2 for a mistake, and 4 for want of
    /// memory.
    pub fn status(&self) -> u8
        ensures { result ≡ status_of self.now }
    {
        match self {
            LineError::Help(_) => 0,
            LineError::Usage(_) => 2,
            LineError::NoMemory => 4,
        }
    }
}

/// Returns the number of an argument, or `None`.
fn number_of(matches: &ArgMatches<'_>, id: &str) -> Option<u64>
    ensures { MatchOption result ((n : ℕ) → ¬ HasNumber id.now (rows_of (found_of matches.now)) n)
        (HasNumber id.now (rows_of (found_of matches.now))) }
{
    matches.get_one::<u64>(id)
}

/// Returns the number of an option, or `Some(None)` if it has none, or `None` if its value is no
/// number.
fn option_of(matches: &ArgMatches<'_>, id: &str) -> Option<Option<u64>>
    ensures { MatchOption result ((n : Option ℕ) → ¬ HasOption id.now
        (rows_of (found_of matches.now)) n)
        (HasOption id.now (rows_of (found_of matches.now))) }
{
    matches.try_get_one::<u64>(id).ok()
}

/// Returns the word of an argument, or `None`.
fn word_of<'a>(matches: &ArgMatches<'a>, id: &str) -> Option<&'a str>
    ensures { option_map (λ s. s.now) result ≡ first_of id.now (rows_of (found_of matches.now)) }
{
    matches.get_str(id)
}

/// Returns whether a flag is set.
fn flag_of(matches: &ArgMatches<'_>, id: &str) -> bool
    ensures { HasFlag id.now (rows_of (found_of matches.now)) result }
{
    matches.get_flag(id)
}

/// Returns the number of workers, 1 to 16, or `None`.
fn workers_of(matches: &ArgMatches<'_>) -> Option<u64>
    ensures { MatchOption result ((n : ℕ) → ¬ HasWorkers (rows_of (found_of matches.now)) n)
        (HasWorkers (rows_of (found_of matches.now))) }
{
    let workers = number_of(matches, "workers")?;
    if 1 <= workers && workers <= 16 {
        Some(workers)
    } else {
        None
    }
}

/// Returns the workers, or `None` if their number is missing.
fn team_of(matches: &ArgMatches<'_>) -> Option<Team>
    ensures { MatchOption result ((team : Team) → ¬ HasTeam (rows_of (found_of matches.now)) team)
        (HasTeam (rows_of (found_of matches.now))) }
{
    Some(Team {
        workers: workers_of(matches)?,
        progress: flag_of(matches, "progress"),
    })
}

/// Returns the plan of faults, or `None` if a value is missing.
fn fault_plan_of(matches: &ArgMatches<'_>) -> Option<FaultPlan>
    ensures { MatchOption result ((plan : FaultPlan) → ¬ HasFaultPlan
        (rows_of (found_of matches.now)) plan)
        (HasFaultPlan (rows_of (found_of matches.now))) }
{
    Some(FaultPlan {
        faults: option_of(matches, "faults")?,
        quiet: number_of(matches, "quiet")?,
    })
}

/// Returns the play that the words ask for.
fn play_of<'a>(matches: &ArgMatches<'a>) -> Job<'a>
    ensures { Asks (codes "play") (rows_of (found_of matches.now)) result }
{
    Job::Play {
        strict: flag_of(matches, "strict"),
    }
}

/// Returns the search that the words ask for, or `None` if a value is missing.
fn search_of<'a>(matches: &ArgMatches<'a>) -> Option<Job<'a>>
    ensures { MatchOption result ((asked : Job) → ¬ Asks (codes "search")
        (rows_of (found_of matches.now)) asked)
        (Asks (codes "search") (rows_of (found_of matches.now))) }
{
    Some(Job::Search {
        team: team_of(matches)?,
        strict: flag_of(matches, "strict"),
        lo: number_of(matches, "lo")?,
        hi: number_of(matches, "hi")?,
        cond: word_of(matches, "cond")?,
    })
}

/// Returns the sweep that the words ask for, or `None` if a value is missing.
fn sweep_of<'a>(matches: &ArgMatches<'a>) -> Option<Job<'a>>
    ensures { MatchOption result ((asked : Job) → ¬ Asks (codes "sweep")
        (rows_of (found_of matches.now)) asked)
        (Asks (codes "sweep") (rows_of (found_of matches.now))) }
{
    Some(Job::Sweep {
        team: team_of(matches)?,
        plan: fault_plan_of(matches)?,
        at_end: flag_of(matches, "at-end"),
        script: flag_of(matches, "script"),
        strict: flag_of(matches, "strict"),
        json: flag_of(matches, "json"),
        first: number_of(matches, "first")?,
        count: number_of(matches, "count")?,
        events: number_of(matches, "events")?,
        cond: word_of(matches, "cond")?,
    })
}

/// Returns the script that the words ask for, or `None` if a value is missing.
fn script_of<'a>(matches: &ArgMatches<'a>) -> Option<Job<'a>>
    ensures { MatchOption result ((asked : Job) → ¬ Asks (codes "script")
        (rows_of (found_of matches.now)) asked)
        (Asks (codes "script") (rows_of (found_of matches.now))) }
{
    Some(Job::Script {
        plan: fault_plan_of(matches)?,
        seed: number_of(matches, "seed")?,
        events: number_of(matches, "events")?,
    })
}

/// Returns the shrinking that the words ask for, or `None` if a value is missing.
fn shrink_of<'a>(matches: &ArgMatches<'a>) -> Option<Job<'a>>
    ensures { MatchOption result ((asked : Job) → ¬ Asks (codes "shrink")
        (rows_of (found_of matches.now)) asked)
        (Asks (codes "shrink") (rows_of (found_of matches.now))) }
{
    Some(Job::Shrink {
        progress: flag_of(matches, "progress"),
        cond: word_of(matches, "cond")?,
    })
}

/// Returns the log that the words ask for, or `None` if a value is missing.
fn log_of<'a>(matches: &ArgMatches<'a>) -> Option<Job<'a>>
    ensures { MatchOption result ((asked : Job) → ¬ Asks (codes "log")
        (rows_of (found_of matches.now)) asked)
        (Asks (codes "log") (rows_of (found_of matches.now))) }
{
    Some(Job::Log {
        from: option_of(matches, "from")?,
        to: option_of(matches, "to")?,
        json: flag_of(matches, "json"),
    })
}

/// Returns the page that the words ask for.
fn page_of<'a>(matches: &ArgMatches<'a>) -> Job<'a>
    ensures { Asks (codes "page") (rows_of (found_of matches.now)) result }
{
    Job::Page {
        title: word_of(matches, "title"),
        watch: word_of(matches, "watch"),
    }
}

/// Returns the job of a subcommand, or `None` if a value is missing.
fn asked_by<'a>(name: &str, matches: &ArgMatches<'a>) -> Option<Job<'a>>
    ensures { MatchOption result ((asked : Job) → ¬ Asks name.now (rows_of (found_of matches.now))
        asked)
        (Asks name.now (rows_of (found_of matches.now))) }
{
    match name {
        "play" => Some(play_of(matches)),
        "search" => search_of(matches),
        "sweep" => sweep_of(matches),
        "script" => script_of(matches),
        "shrink" => shrink_of(matches),
        "log" => log_of(matches),
        "page" => Some(page_of(matches)),
        "walk" => Some(Job::Walk),
        _ => None,
    }
}

/// Returns the request of the matches, or `None` if a value is missing.
fn asked_in<'a>(matches: &ArgMatches<'a>) -> Option<Request<'a>>
    ensures { MatchOption result
        ((name : _) (rows : _) (asked : Job) → subcommand_rows_of matches.now ≡ Some (name, rows)
        → ¬ Asks name rows asked)
        (λ asked. (name : _) × (rows : _) × (subcommand_rows_of matches.now ≡ Some (name, rows))
        × Asks name rows asked.job
        × (option_map (λ s. s.now) asked.file ≡ first_of (codes "file") rows)) }
{
    let (name, found) = matches.subcommand()?;
    Some(Request {
        job: asked_by(name, found)?,
        file: word_of(found, "file"),
    })
}

/// Returns the error for a fault that clap found.
fn line_fault(alloc: Global, error: &Error) -> LineError
    ensures help { IsHelp result → (kind_of error.now ≡ ErrorKind.DisplayHelp)
        ⊎ (kind_of error.now ≡ ErrorKind.DisplayVersion) }
    ensures usage { IsUsage result → (kind_of error.now ≢ ErrorKind.OutOfMemory)
        × (kind_of error.now ≢ ErrorKind.DisplayHelp)
        × (kind_of error.now ≢ ErrorKind.DisplayVersion) }
{
    if error.kind() == ErrorKind::OutOfMemory {
        return LineError::NoMemory;
    }
    match format!(in alloc; "{error}") {
        Ok(text) => {
            if error.use_stderr() {
                LineError::Usage(text)
            } else {
                LineError::Help(text)
            }
        }
        Err(_) => LineError::NoMemory,
    }
}

/// Returns the message for the first number of the matches that is outside of its range, or `None`.
fn message_in(alloc: Global, matches: &ArgMatches<'_>) -> Result<Option<String>, AllocError> {
    match matches.subcommand() {
        Some((_name, found)) => number_message(alloc, found),
        None => Ok(None),
    }
}

/// Returns the error if clap accepts the words but a value is missing or is no number.
fn wrong_value(alloc: Global, matches: &ArgMatches<'_>) -> LineError
    ensures { ¬ IsHelp result }
{
    let told = match message_in(alloc, matches) {
        Ok(Some(text)) => Ok(text),
        Ok(None) => String::from_str(alloc, "error: a value is missing\n"),
        Err(error) => Err(error),
    };
    match told {
        Ok(text) => LineError::Usage(text),
        Err(_) => LineError::NoMemory,
    }
}

/// Returns whether a word is a negative number.
fn is_negative(word: &str) -> bool {
    matches!(word.as_bytes(), [b'-', b'0'..=b'9', ..])
}

/// Returns a word, with a space before it if it is a negative number.
fn spaced_word(alloc: Global, word: &str) -> Result<String, AllocError> {
    let space = if is_negative(word) { " " } else { "" };
    format!(in alloc; "{space}{word}")
}

/// Returns the words with a space before each negative number.
fn spaced<S: AsStr>(alloc: Global, words: &[S]) -> Result<Vec<String>, AllocError> {
    let mut spaced = Vec::new(alloc);
    for word in words {
        spaced.push(spaced_word(alloc, word.as_str())?)?;
    }
    Ok(spaced)
}

/// Returns the text of a mistake that clap found, or `None` if the words ask for help.
fn mistake_text(alloc: Global, error: &Error) -> Result<Option<String>, AllocError> {
    if error.use_stderr() {
        Ok(Some(format!(in alloc; "{error}")?))
    } else {
        Ok(None)
    }
}

/// Returns the message for words that make no request, or `None` if they make one or ask for help.
fn message_for(alloc: Global, words: &[String]) -> Result<Option<String>, AllocError> {
    match program(alloc)?.try_get_matches_from(words) {
        Ok(matches) => message_in(alloc, &matches),
        Err(error) => mistake_text(alloc, &error),
    }
}

/// Returns the message for words in which clap finds an unknown option. A negative number is one to
/// clap. If it has a space before it, it is a value, and the message says which: so the words are
/// read a second time. Returns `None` if they then make a request or ask for help.
fn negative_message<S: AsStr>(alloc: Global, words: &[S]) -> Result<Option<String>, AllocError> {
    let words = spaced(alloc, words)?;
    message_for(alloc, words.as_slice())
}

/// Returns the error for a fault that clap found in words.
fn words_fault<S: AsStr>(alloc: Global, words: &[S], error: &Error) -> LineError
    ensures help { IsHelp result → (kind_of error.now ≡ ErrorKind.DisplayHelp)
        ⊎ (kind_of error.now ≡ ErrorKind.DisplayVersion) }
    ensures usage { IsUsage result → (kind_of error.now ≢ ErrorKind.OutOfMemory)
        × (kind_of error.now ≢ ErrorKind.DisplayHelp)
        × (kind_of error.now ≢ ErrorKind.DisplayVersion) }
{
    if error.kind() != ErrorKind::UnknownArgument {
        return line_fault(alloc, error);
    }
    match negative_message(alloc, words) {
        Ok(Some(text)) => LineError::Usage(text),
        Ok(None) => line_fault(alloc, error),
        Err(_) => LineError::NoMemory,
    }
}

/// Returns the request that the words of a command line make. The first word names the program.
pub fn request<'a, S: AsStr>(alloc: Global, words: &'a [S]) -> Result<Request<'a>, LineError>
    ensures answer { MatchResult result (IsRequestOf (map S.text words.entry.now))
        (IsFault (map S.text words.entry.now)) }
    ensures workers { IfOk result (λ asked. HasFewWorkers asked.job) }
{
    let Ok(command) = program(alloc) else {
        return Err(LineError::NoMemory);
    };
    match command.try_get_matches_from(words) {
        Ok(matches) => match asked_in(&matches) {
            Some(asked) => Ok(asked),
            None => Err(wrong_value(alloc, &matches)),
        },
        Err(error) => Err(words_fault(alloc, words, &error)),
    }
}
