//! The account of a turn: the lines of the events that it passed.
ghost use Rattle.std.specs.Prelude.{◌≡◌, ◌+◌, ◌<◌, ◌≤◌, [], false, length, min, max, IfOk};
ghost use Rattle.sim_world.specs.Events.{rules};
ghost use Rattle.sim_book.specs.Book.{branch as branch_in};
ghost use Rattle.sim_book.specs.Kept.{all_shown};
ghost use Rattle.sim_log.specs.Lines.{AreLines};
ghost use Rattle.sim_walk.specs.Accounts.{IsAccount, told_count};

use sim_book::Book;
use sim_cli::FreshMeter;
use sim_inspect::Run;
use sim_node::{NoMemory, Node};
use sim_script::Names;
use std::alloc::Global;
use std::fmt::Debug;

/// The most events whose lines follow a move, besides the last event of a longer way.
const MAX_TOLD: u32 = 20;

/// The account of a turn: the lines of events, and words before and after them.
#[derive(Drop)]
pub(crate) struct Account {
    pub(crate) lead: String,
    pub(crate) told: Vec<u8>,
    pub(crate) said: String,
}

impl Account {
    /// Returns an account of words alone.
    pub(crate) fn of_words(alloc: Global, said: String) -> Account
        ensures { result.told.items ≡ [] }
    {
        Account {
            lead: String::new(alloc),
            told: Vec::new(alloc),
            said,
        }
    }
}

// Returns the number of lines in the account of a way.
fn told_count(from: u32, to: u32) -> u32
    ensures value { result ≡ told_count from to }
    ensures within { min from to + result ≤ max from to }
{
    if to < from {
        1
    } else {
        (to - from).min(MAX_TOLD)
    }
}

// Returns the lines of the events of a way.
fn way_lines<N: Node<Meter: FreshMeter> + Debug>(
    alloc: Global,
    run: &Run<'_, N>,
    from: u32,
    to: u32,
) -> Result<Vec<u8>, NoMemory>
where
    N::Msg: Debug,
    requires from { from ≤ length run.now.frozen.events }
    requires to { to ≤ length run.now.frozen.events }
    ensures { IfOk result (λ told. AreLines (rules N.laws N.PROBES run.now.frozen.scenario)
        run.now.frozen.events false (min from to + 1) (told_count from to) told.items) }
{
    let (least, count) = (from.min(to), told_count(from, to));
    if count == 0 {
        return Ok(Vec::new(alloc));
    }
    run.lines(least + 1, least + count)
}

// Returns the words before the lines of a way: the length of a way back.
fn lead_of(alloc: Global, from: u32, to: u32) -> Result<String, NoMemory> {
    if to < from {
        let count = from - to;
        return format!(in alloc; "back by {count}; next is ");
    }
    Ok(String::new(alloc))
}

// Returns the words after the lines of a way: the number of events that they omit, and the line of
// its last event.
fn rest_of<N: Node<Meter: FreshMeter> + Debug>(
    alloc: Global,
    run: &Run<'_, N>,
    from: u32,
    to: u32,
) -> Result<String, NoMemory>
where
    N::Msg: Debug,
{
    let mut said = String::new(alloc);
    let last = from.saturating_add(MAX_TOLD);
    if last < to {
        let (left, next, end) = (to - last - 1, last.saturating_add(1), to - 1);
        if left > 0 {
            writeln!(
                &mut said,
                ".. and {left} more: `log {next} {end}` tells them"
            )?;
        }
        run.tell(to, to, &mut said)?;
    }
    Ok(said)
}

/// Returns the account of the way of a branch from one place to another. Fails only for want of
/// memory.
pub(crate) fn account_of<N: Node<Meter: FreshMeter> + Debug>(
    alloc: Global,
    names: &Names,
    book: &Book<N>,
    branch: u32,
    from: u32,
    to: u32,
) -> Result<Account, NoMemory>
where
    N::Msg: Debug,
    requires from { from ≤ length (branch_in branch (all_shown book.now.kept)).events }
    requires to { to ≤ length (branch_in branch (all_shown book.now.kept)).events }
    ensures { IfOk result (λ a. IsAccount (rules N.laws N.PROBES book.now.scenario) from
        (branch_in branch (all_shown book.now.kept)).events to a.told.items) }
{
    let Some(run) = Run::of(alloc, names, book, branch)? else {
        return Ok(Account::of_words(alloc, String::new(alloc)));
    };
    let lead = lead_of(alloc, from, to)?;
    let told = way_lines(alloc, &run, from, to)?;
    let said = rest_of(alloc, &run, from, to)?;
    Ok(Account { lead, told, said })
}
