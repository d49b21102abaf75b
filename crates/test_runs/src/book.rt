//! Books of echo and the tapes of their branches: worked rows of orders and answers, the numbers of
//! entries, and a frozen run. Worked plays of whole scripts are in `test_play`.
//!
//! The contract of `Book::turn` says how each command is answered, for every book and every
//! command, and those of a tape how far its records reach and how many turns, copies and undos a
//! call takes at most. They cannot say that a call succeeds if memory is ample, nor that their
//! definitions are the ones that were meant. These tests check both.
//!
//! - The rows have each kind of command, refusals in their order, a rewind, commands on branches,
//!   and the turns, copies and undos of steps and jumps. The jumps take each way: undo by records,
//!   forward from the place, and from a checkpoint.
//! - `proofs/BookRows.antt` computes the definitions on a small book, as lemmas.
//!
//! What each test catches:
//! - `books_go_by_their_rows`: a turn that answers want of memory for no reason, whatever its
//!   command; places, clocks and views other than one works out by hand; a refusal for another
//!   reason, or a refused command that moves; a rewind that passes over a failing place; branches
//!   that are not apart; a step or a jump that takes more work; a branch whose world is not lent,
//!   or that exists before it is made.
//! - `sessions_are_numbered_apart`: an entry under another number; a freeze that returns nothing.
//! - `a_frozen_run_makes_tapes`: a frozen run that changes with its origin, or a tape of it that is
//!   made with other work.
use crate::scenes::{NEXT, tape_of};
use sim_book::{Book, Command, Reply};
use sim_echo::Echo;
use sim_tape::Frozen;
use sim_watch::{Comparison, Cond, Op, SharedCond, Term, Value};
use sim_world::{Event, Fault, Query};
use std::alloc::{AllocError, Global};
use std::process::Abort;
use std::test::Fail;
use test_support::scenes::SCENES;
use test_support::{Counts, Setting, TWO_ECHOES};

type EchoBook = Book<Echo<Counts>>;

// The client's next operation is above 1.
const IS_PAST_ONE: Term = Term::Cmp(
    1,
    NEXT,
    Comparison {
        op: Op::Greater,
        value: Value::Number(1),
    },
);

// Returns the number of a word: 0 if it is left out, and 255, which names nothing, if it is none.
fn number(word: Option<&str>) -> u8 {
    word.unwrap_or("0").parse::<u8>().unwrap_or(255)
}

// An order of a row: its name, its branch, and two numbers more.
#[derive(Clone, Copy)]
struct Order<'a> {
    name: &'a str,
    branch: u32,
    first: u8,
    second: u8,
}

// Returns the order that is written so.
fn order_of(written: &str) -> Order<'_> {
    let mut words = written.split(' ');
    Order {
        name: words.next().unwrap_or(""),
        branch: u32::from(number(words.next())),
        first: number(words.next()),
        second: number(words.next()),
    }
}

// Returns the command to watch a branch.
fn watch(alloc: Global, branch: u32, cond: Cond) -> Result<Command, Fail> {
    Ok(Command::Watch(branch, SharedCond::new(alloc, cond)?))
}

// Returns the command of an order.
fn command(alloc: Global, order: Order<'_>) -> Result<Command, Fail> {
    let (branch, second) = (order.branch, order.second);
    let (count, host, other) = (
        u32::from(order.first),
        u16::from(order.first),
        u16::from(second),
    );
    Ok(match order.name {
        "step" => Command::Step(branch),
        "tick" => Command::Tick(branch),
        "run" => Command::Run(branch, count),
        "crash" => Command::Fault(branch, Fault::Crash(host)),
        "bounce" => Command::Fault(branch, Fault::Bounce(host)),
        "hold" => Command::Fault(branch, Fault::Hold(host, other)),
        "release" => Command::Fault(branch, Fault::Release(host, other)),
        "back" => Command::Back(branch, count),
        "forward" => Command::Forward(branch, count),
        "goto" => Command::Goto(branch, count),
        "rewind" => Command::Rewind(branch, count),
        "cut" => Command::Cut(branch),
        "branch" => Command::Branch(branch, count),
        "watch" => return watch(alloc, branch, Cond::new().and(IS_PAST_ONE)?),
        "watch_nothing" => return watch(alloc, branch, Cond::new()),
        "unwatch" => Command::Unwatch(branch, count),
        "summary" => Command::Look(branch, Query::Summary),
        "next" => Command::Look(branch, Query::Next),
        "link" => Command::Look(branch, Query::Link(host, other)),
        "probe" => Command::Look(branch, Query::Probe(host, second)),
        "freeze" => Command::Freeze(branch),
        _ => return Err(Fail::from("an unknown command")),
    })
}

// Writes what a reply says; of a list of events, its length.
fn tell(told: &mut String, reply: &Reply) -> Result<(), AllocError> {
    match reply {
        Reply::Moved { place, clock, stop } => write!(told, "{place} {clock} {stop:?}"),
        Reply::Made(number) => write!(told, "made {number}"),
        Reply::Dropped(number) => write!(told, "dropped {number}"),
        Reply::Seen { place, view } => write!(told, "{place} {view:?}"),
        Reply::Frozen(list) => write!(told, "frozen {}", list.len()),
        Reply::Refused(why) => write!(told, "{why:?}"),
    }
}

// Writes the clock of a branch's world, whether a step can happen there, and whether its tape is
// warm.
fn tell_here(told: &mut String, book: &EchoBook, branch: u32) -> Result<(), AllocError> {
    let here = book
        .here(branch)
        .map(|world| (world.clock(), world.can(Event::Step)));
    write!(told, "{here:?} {:?}", book.warm(branch))
}

// Gives a book a command, and writes what the reply says; of a jump, also the work that it took.
fn tell_turn(
    alloc: Global,
    told: &mut String,
    book: &mut EchoBook,
    order: Order<'_>,
) -> Result<(), Fail> {
    let before = book.meter().counted();
    let entry = book.turn(alloc, 0, command(alloc, order)?)?;
    tell(told, &entry.reply)?;
    if order.name == "goto" {
        write!(told, " by {:?}", book.meter().since(before))?;
    }
    Ok(())
}

// Gives a book an order, and writes the answer.
fn tell_answer(
    alloc: Global,
    told: &mut String,
    book: &mut EchoBook,
    order: Order<'_>,
) -> Result<(), Fail> {
    match order.name {
        "count" => write!(told, "{:?}", book.meter().counted())?,
        "here" => tell_here(told, book, order.branch)?,
        _ => tell_turn(alloc, told, book, order)?,
    }
    Ok(())
}

// Gives a book the order of a row, and compares the answer.
fn goes_by(rt: &impl Abort, alloc: Global, book: &mut EchoBook, row: &str) -> Result<(), Fail> {
    let Some((order, want)) = row.split_once(": ") else {
        return Err(Fail::from("no answer"));
    };
    let mut told = String::new(alloc);
    tell_answer(alloc, &mut told, book, order_of(order))?;
    assert_eq!(rt; told.as_str(), want, "{order}");
    Ok(())
}

// Returns a new book with the interval and the window of a title.
fn book_of(alloc: Global, title: &str) -> Result<EchoBook, Fail> {
    let mut words = title.split(' ');
    let setting = Setting {
        interval: u32::from(number(words.next())),
        window: u32::from(number(words.next())),
        ..TWO_ECHOES
    };
    Ok(Book::new(alloc, &setting.scenario()?, Counts::new())?)
}

// Gives a new book the orders of a scene, row by row.
fn all_go_by(rt: &impl Abort, alloc: Global, scene: &str) -> Result<(), Fail> {
    let Some((title, rows)) = scene.split_once('\n') else {
        return Err(Fail::from("no rows"));
    };
    let mut book = book_of(alloc, title)?;
    for row in rows.lines() {
        goes_by(rt, alloc, &mut book, row)?;
    }
    Ok(())
}

#[test]
fn books_go_by_their_rows(rt: HostRuntime) -> Result<(), Fail> {
    for scene in SCENES.split('#').skip(1) {
        all_go_by(&rt, rt.alloc(), scene)?;
    }
    Ok(())
}

// A session, the number of its step back, and the place to which it leads.
const BACKS: [(u8, u32, u32); 4] = [(0, 2, 5), (1, 1, 4), (0, 3, 3), (1, 2, 2)];

// Returns whether a step back of a session has this number and leads to this place.
fn goes_back(
    alloc: Global,
    book: &mut EchoBook,
    session: u8,
    number: u32,
    place: u32,
) -> Result<bool, Fail> {
    let entry = book.turn(alloc, session, Command::Back(0, 1))?;
    let is_there = matches!(&entry.reply, Reply::Moved { place: now, .. } if *now == place);
    Ok(is_there && (entry.session, entry.number) == (session, number))
}

// Runs a book, and takes it back from two sessions. Returns whether each step back has its number
// and its place, and the freeze of a session the next number.
fn numbers_apart(alloc: Global, book: &mut EchoBook) -> Result<bool, Fail> {
    book.turn(alloc, 0, Command::Run(0, 100))?;
    for (session, number, place) in &BACKS {
        if !goes_back(alloc, book, *session, *number, *place)? {
            return Ok(false);
        }
    }
    let (entry, frozen) = book.freeze(alloc, 1, 0)?;
    Ok(entry.number == 3 && frozen.is_some())
}

#[test]
fn sessions_are_numbered_apart(rt: HostRuntime) -> Result<(), Fail> {
    let mut book = EchoBook::new(rt.alloc(), &TWO_ECHOES.scenario()?, Counts::new())?;
    assert!(rt; numbers_apart(rt.alloc(), &mut book)?);
    assert!(rt; book.into_entries().len() == 6);
    Ok(())
}

// Returns a frozen run of six steps. The tape that it came from loses its events then.
fn frozen(alloc: Global, meter: &mut Counts) -> Result<Frozen<Echo<Counts>>, Fail> {
    let mut origin = tape_of(alloc, &TWO_ECHOES.scenario()?, 6, meter)?;
    let run = origin.freeze(alloc)?;
    if origin.place() != origin.len() {
        return Err(Fail::from("not at the end"));
    }
    origin.truncate(0);
    Ok(run)
}

// A place, the turns, copies and undos for a tape there, and the clock.
const TAPES: [(u32, (u64, u64, u64), u64); 3] = [
    (3, (3, 2, 0), 10),
    (4, (0, 2, 0), 20),
    (6, (2, 2, 0), 40),
];

// Returns whether a tape of a run of six steps has this place and this clock, and is made with this
// work.
fn makes_tape(
    alloc: Global,
    run: &Frozen<Echo<Counts>>,
    place: u32,
    work: (u64, u64, u64),
    clock: u64,
    meter: &mut Counts,
) -> Result<bool, Fail> {
    if run.events().len() < place {
        return Ok(false);
    }
    let before = meter.counted();
    let tape = run.tape(alloc, place, meter)?;
    let is_there = tape.warm() && tape.place() == place && tape.len() == 6;
    Ok(is_there && tape.clock() == clock && meter.since(before) == work)
}

#[test]
fn a_frozen_run_makes_tapes(rt: HostRuntime) -> Result<(), Fail> {
    let alloc = rt.alloc();
    let mut meter = Counts::new();
    let run = frozen(alloc, &mut meter)?;
    run.events().share()?;
    for (place, work, clock) in &TAPES {
        assert!(rt; makes_tape(alloc, &run, *place, *work, *clock, &mut meter)?);
    }
    Ok(())
}
