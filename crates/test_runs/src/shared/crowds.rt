//! Eight sessions at once, a freeze, and a history that is full.
ghost use Rattle.std.specs.Prelude.{◌≡◌, [], All, IfOk};
ghost use Rattle.sim_shared.specs.Sharing.{IsAt};

use sim_book::{Book, Command, MAX_ENTRIES, NotTaken, Reply};
use sim_echo::Echo;
use sim_shared::{History, Receipt, Seat, Shared};
use sim_tally::Tally;
use sim_world::Query;
use std::alloc::Global;
use std::sync::{Mutex, Wait};
use std::test::Fail;
use std::thread;
use std::thread::Threads;
use test_support::TWO_ECHOES;

type Echoes = Echo<Tally>;

// Makes a book of one server and one client of echo, which has two operations.
fn echo_book(alloc: Global) -> Result<Book<Echoes>, Fail>
    ensures { IfOk result (λ b. b.history ≡ []) }
{
    let scenario = TWO_ECHOES.scenario()?;
    Ok(Book::new(alloc, &scenario, Tally::new())?)
}

// Returns the place of a reply.
fn place_of(reply: &Reply) -> Option<u32> {
    match reply {
        Reply::Moved { place, .. } | Reply::Seen { place, .. } => Some(*place),
        _ => None,
    }
}

const SESSIONS: u8 = 8;

/// The number of commands of each session.
const CALLS: u32 = 2_000;

/// The branches that the sessions walk on.
#[derive(Clone, Copy)]
enum Ground {
    OneForAll,
    OneForEach,
}

impl Ground {
    fn branch(self, session: u8) -> u32 {
        match self {
            Ground::OneForAll => 0,
            Ground::OneForEach => u32::from(session),
        }
    }
}

// Returns a step, a look and a step back, in turns.
fn turn_of(turn: u32, branch: u32) -> Command {
    match turn % 3 {
        0 => Command::Step(branch),
        1 => Command::Look(branch, Query::Summary),
        _ => Command::Back(branch, 1),
    }
}

// Walks on a branch from a session, and keeps its receipts with those of the others.
fn walk<R: Wait>(
    rt: &R,
    shared: &Shared<Echoes>,
    seat: &mut Seat<Echoes>,
    ground: Ground,
    kept: &Mutex<Vec<Receipt>>,
)
    requires { IsAt shared.now seat.old }
    ensures { IsAt shared.now seat.new }
{
    let branch = ground.branch(seat.session());
    for turn in 0..CALLS {
        let Ok(receipt) = shared.call(rt, seat, turn_of(turn, branch)) else {
            return;
        };
        if kept.lock(rt).push(receipt).is_err() {
            return;
        }
    }
}

// Makes a branch for each session but session 0, which walks on branch 0.
fn make_branches<R: Wait>(
    rt: &R,
    shared: &Shared<Echoes>,
    seat: &mut Seat<Echoes>,
) -> Result<(), Fail>
    requires { IsAt shared.now seat.old }
    ensures { IsAt shared.now seat.new }
{
    for _ in 1..SESSIONS {
        shared.call(rt, seat, Command::Branch(0, 0))?;
    }
    Ok(())
}

// Lets all sessions walk, each in a thread of its own.
fn walk_all<R: Threads + Wait + Sync>(
    rt: &R,
    alloc: Global,
    ground: Ground,
) -> Result<(History<Echoes>, Vec<Receipt>), Fail> {
    let (shared, mut seats) = Shared::new(alloc, echo_book(alloc)?, SESSIONS)?;
    make_branches(rt, &shared, &mut seats[7])?;
    let kept = Mutex::new(Vec::new(alloc));
    thread::for_each_mut(
        rt,
        &mut seats,
        8,
        &|_, seat| walk(rt, &shared, seat, ground, &kept),
    );
    Ok((shared.close(seats), kept.into_inner()))
}

// Returns the number and the place of a receipt.
fn told(entry: &Receipt) -> (u32, Option<u32>) {
    (entry.number, place_of(&entry.reply))
}

// Returns whether each session's receipts are its entries in the history, in order.
fn are_all_entries(history: &History<Echoes>, kept: &[Receipt]) -> bool {
    (0..SESSIONS).all(|session| {
        let entries = history
            .entries
            .iter()
            .skip(7)
            .filter(|e| e.session == session);
        let receipts = kept.iter().filter(|e| e.session == session);
        entries.map(told).eq(receipts.map(told))
    })
}

// Returns whether a receipt on a branch of its session's own has the place to which its commands
// led: one step ahead, and from its first step back on the start, where a step is refused. Session
// 7 made the branches first.
fn is_led(receipt: &Receipt) -> bool {
    let before = if receipt.session == 7 { 7 } else { 0 };
    let place = match receipt.number.wrapping_sub(before) {
        1 | 2 => Some(1),
        3 => Some(0),
        number if number % 3 == 2 => Some(0),
        _ => None,
    };
    place_of(&receipt.reply) == place
}

#[test]
fn a_branch_for_each_session(rt: HostRuntime) -> Result<(), Fail> {
    let (history, kept) = walk_all(&rt, rt.alloc(), Ground::OneForEach)?;
    let is_all = history.entries.len() == 16_007 && kept.len() == 16_000;
    assert!(rt; is_all && are_all_entries(&history, &kept));
    assert!(rt; kept.iter().all(|receipt| is_led(receipt)));
    Ok(())
}

#[test]
fn one_branch_for_all_sessions(rt: HostRuntime) -> Result<(), Fail> {
    let (history, kept) = walk_all(&rt, rt.alloc(), Ground::OneForAll)?;
    let is_all = history.entries.len() == 16_007 && kept.len() == 16_000;
    assert!(rt; is_all && are_all_entries(&history, &kept));
    Ok(())
}

#[test]
fn a_freeze_gives_a_run(rt: HostRuntime) -> Result<(), Fail> {
    let (shared, mut seats) = Shared::new(rt.alloc(), echo_book(rt.alloc())?, 1)?;
    let (receipt, frozen) = shared.freeze(&rt, &mut seats[0], 0)?;
    assert!(rt; receipt.number == 1 && frozen.is_some());
    Ok(())
}

// Looks until a command is not taken, and keeps the reason.
fn look_on<R: Wait>(
    rt: &R,
    shared: &Shared<Echoes>,
    seat: &mut Seat<Echoes>,
    kept: &Mutex<Vec<NotTaken>>,
)
    requires { IsAt shared.now seat.old }
    ensures { IsAt shared.now seat.new }
{
    for _ in 0..=MAX_ENTRIES {
        if let Err(why) = shared.call(rt, seat, Command::Look(0, Query::Summary)) {
            let _ = kept.lock(rt).push(why);
            return;
        }
    }
}

#[test]
fn a_full_history(rt: HostRuntime) -> Result<(), Fail> {
    let alloc = rt.alloc();
    let (shared, mut seats) = Shared::new(alloc, echo_book(alloc)?, 2)?;
    let kept = Mutex::new(Vec::new(alloc));
    thread::for_each_mut(
        &rt,
        &mut seats,
        2,
        &|_, seat| look_on(&rt, &shared, seat, &kept),
    );
    let again = shared.call(&rt, &mut seats[0], Command::Cut(0)).err();
    let frozen = shared.freeze(&rt, &mut seats[1], 0).err();
    let history = shared.close(seats);
    let full = Some(NotTaken::HistoryFull);
    assert!(rt; history.entries.len() == MAX_ENTRIES && (again, frozen) == (full, full));
    assert!(rt; kept.into_inner().as_slice() == [NotTaken::HistoryFull; 2].as_slice());
    Ok(())
}
