//! Sessions at a plain list of notes.
ghost use Rattle.std.specs.Prelude.{◌≡◌, ◌≤◌, ◌<◌, ◌+◌, ℕ, List, [], ◌++◌, ◌∷◌, ◌==◌, length, All};
ghost use Rattle.std.specs.Prelude.{IfOk, OnOk, count_by, IsTrue};
ghost use Rattle.sim_lock.specs.Entries.{HasEntry};
ghost use Rattle.sim_lock.specs.Seats.{IsOf, IsReceipt};
ghost use Rattle.test_parts.specs.declared.threads.lock.Ask.TheVariants.{Freeze};
ghost use Rattle.test_parts.specs.declared.threads.lock.Full.{Full};

use sim_lock::{Freezes, History, Kept, Lock, Seat};
use std::alloc::{AllocError, Global};
use std::sync::Wait;
use std::test::Fail;
use std::thread::{Threads, join};

const MOST: usize = 120;

#[derive(Clone, Copy, PartialEq, Eq, Debug)]
enum Ask {
    Step,
    Look,
    Freeze(u32),
}

// A command of a session, with the place after it, or `None` if it was refused.
#[derive(Clone, Copy, PartialEq, Eq, Debug)]
struct Note {
    session: u8,
    number: u32,
    ask: Ask,
    place: Option<u32>,
}

// Why a command is not taken: the list is full, or there is no memory.
#[derive(Clone, Copy, PartialEq, Eq, Debug)]
struct Full(bool);

// A place, and the notes of all commands.
#[derive(Drop)]
struct Plain {
    scenario: u64,
    place: u32,
    notes: Vec<Note>,
    ghost fits: { length notes.items ≤ 120 },
}

impl Plain {
    fn new(alloc: Global) -> Plain
        ensures { result.notes.items ≡ [] }
    {
        Plain {
            scenario: 7,
            place: 0,
            notes: Vec::new(alloc),
        }
    }
}

// Returns how many notes the session has.
fn notes_of(notes: &[Note], session: u8) -> u32
    requires { length notes.now ≤ 120 }
    ensures { result ≡ count_by (λ e. e.session == session) notes.now }
{
    notes.iter().filter(|e| e.session == session).count() as u32
}

// Returns the place after a command, or `None` if it is refused.
fn place_after(place: u32, ask: Ask) -> Option<u32> {
    match ask {
        Ask::Step => Some(place.wrapping_add(1)),
        Ask::Look | Ask::Freeze(0) => Some(place),
        Ask::Freeze(_) => None,
    }
}

impl Kept for Plain {
    type Scenario = u64;

    type Command = Ask;

    type Entry = Note;

    type NotTaken = Full;

    ghost scenario = { λ p. p.scenario };

    ghost entries = { λ p. p.notes.items };

    ghost session_of = { λ e. e.session };

    ghost number_of = { λ e. e.number };

    ghost command_of = { λ e. e.ask };

    ghost tells = { λ why notes. IsTrue why.0 → length notes ≡ 120 };

    fn session(entry: &Note) -> u8 {
        entry.session
    }

    fn number(entry: &Note) -> u32 {
        entry.number
    }

    fn turn(&mut self, session: u8, command: Ask) -> Result<Note, Full> {
        if self.notes.len() == MOST {
            return Err(Full(true));
        }
        let place = place_after(self.place, command);
        let note = Note {
            session,
            number: notes_of(&self.notes, session) + 1,
            ask: command,
            place,
        };
        if self.notes.push(note).is_err() {
            return Err(Full(false));
        }
        self.place = place.unwrap_or(self.place);
        Ok(note)
    }
}

impl Freezes for Plain {
    type Frozen = u32;

    ghost freezing = { λ b. Freeze b };

    // the place, exactly if the note has one
    ghost gives = { λ s e f. f ≡ e.place };

    fn freeze(&mut self, session: u8, branch: u32) -> Result<(Note, Option<u32>), Full> {
        let note = self.turn(session, Ask::Freeze(branch))?;
        Ok((note, note.place))
    }
}

// Makes a call from a session, and keeps the receipt.
fn ask_once<R: Wait>(
    rt: &R,
    lock: &Lock<Plain>,
    seat: &mut Seat<Plain>,
    receipts: &mut Vec<Note>,
    ask: Ask,
) -> Result<(), AllocError>
    requires of { IsOf seat.old lock.now }
    requires receipts { All (λ r. IsReceipt seat.old r) receipts.old.items }
    ensures of { IsOf seat.new lock.now }
    ensures receipts { OnOk result (All (λ r. IsReceipt seat.new r) receipts.new.items) }
{
    let Ok(note) = lock.call(rt, seat, ask) else {
        return Ok(());
    };
    receipts.push(note)?;
    Ok(())
}

// Makes all these calls from a session, and keeps its receipts.
fn ask_all<R: Wait>(
    rt: &R,
    alloc: Global,
    lock: &Lock<Plain>,
    mut seat: Seat<Plain>,
    asks: &[Ask],
) -> Result<(Seat<Plain>, Vec<Note>), AllocError>
    requires { IsOf seat lock.now }
    ensures { IfOk result (λ r. IsOf r.0 lock.now × All (λ e. IsReceipt r.0 e) r.1.items) }
{
    let mut receipts = Vec::new(alloc);
    for ask in asks {
        ask_once(rt, lock, &mut seat, &mut receipts, *ask)?;
    }
    Ok((seat, receipts))
}

// Returns whether each receipt is an entry of the history.
fn find_all(history: &History<Plain>, receipts: &[Note]) -> bool
    requires { All (λ r. HasEntry (λ e. e.session) (λ e. e.number) history.now.entries.items r)
        receipts.now }
{
    for receipt in receipts {
        if history.entry(receipt) != receipt {
            return false;
        }
    }
    true
}

// Runs two sessions at once. Returns the history and the receipts of both.
fn ask_both<R: Threads + Wait + Sync>(
    rt: &R,
    alloc: Global,
    first: &[Ask],
    second: &[Ask],
) -> Result<(History<Plain>, Vec<Note>, Vec<Note>), AllocError>
    ensures one { IfOk result (λ r. All (λ e. HasEntry (λ e. e.session)
        (λ e. e.number) r.0.entries.items e) r.1.items) }
    ensures two { IfOk result (λ r. All (λ e. HasEntry (λ e. e.session)
        (λ e. e.number) r.0.entries.items e) r.2.items) }
{
    let (lock, mut seats) = Lock::new(alloc, Plain::new(alloc), 2)?;
    let Some(one) = seats.pop() else {
        unreachable!()
    };
    let Some(zero) = seats.pop() else {
        unreachable!()
    };
    let (zero, one) = join(
        rt,
        || -> Result<(Seat<Plain>, Vec<Note>), AllocError>
            requires { IsOf zero lock }
            ensures { IfOk result (λ r. IsOf r.0 lock × All (λ e. IsReceipt r.0 e) r.1.items) }
        { ask_all(rt, alloc, &lock, zero, first) },
        || -> Result<(Seat<Plain>, Vec<Note>), AllocError>
            requires { IsOf one lock }
            ensures { IfOk result (λ r. IsOf r.0 lock × All (λ e. IsReceipt r.0 e) r.1.items) }
        { ask_all(rt, alloc, &lock, one, second) },
    );
    let (zero, zeros) = zero?;
    let (one, ones) = one?;
    let mut seats = Vec::new(alloc);
    seats.push(zero)?;
    seats.push(one)?;
    let Plain { notes, .. } = lock.close(seats);
    let history = History { entries: notes };
    Ok((history, zeros, ones))
}

// Six steps, each followed by a look.
const STEPS: [Ask; 12] = [
    Ask::Step,
    Ask::Look,
    Ask::Step,
    Ask::Look,
    Ask::Step,
    Ask::Look,
    Ask::Step,
    Ask::Look,
    Ask::Step,
    Ask::Look,
    Ask::Step,
    Ask::Look,
];

// Returns whether the receipts of these steps and looks have the places after them.
fn are_steps(receipts: &[Note]) -> bool {
    let places = [1, 1, 2, 2, 3, 3, 4, 4, 5, 5, 6, 6];
    receipts
        .iter()
        .map(|e| e.place)
        .eq(places.iter().map(|p| Some(*p)))
}

#[test]
fn two_sessions(rt: HostRuntime) -> Result<(), Fail> {
    let (history, zeros, ones) = ask_both(&rt, rt.alloc(), &STEPS, &[Ask::Look; 100])?;
    let is_all = history.entries.len() == 112 && zeros.len() == 12 && ones.len() == 100;
    let are_found = find_all(&history, &zeros) && find_all(&history, &ones);
    assert!(rt; is_all && are_found && are_steps(&zeros));
    Ok(())
}

#[test]
fn a_frozen_place_is_that_of_its_receipt(rt: HostRuntime) -> Result<(), Fail> {
    let alloc = rt.alloc();
    let (lock, mut seats) = Lock::new(alloc, Plain::new(alloc), 1)?;
    let Some(mut seat) = seats.pop() else {
        unreachable!()
    };
    assert!(rt; lock.call(&rt, &mut seat, Ask::Step).is_ok());
    let told = match lock.freeze(&rt, &mut seat, 0) {
        Ok((note, frozen)) => (note.ask, note.number) == (Ask::Freeze(0), 2) && frozen == Some(1),
        Err(_) => false,
    };
    let is_none = match lock.freeze(&rt, &mut seat, 1) {
        Ok((_, frozen)) => frozen.is_none(),
        Err(_) => false,
    };
    assert!(rt; told && is_none);
    Ok(())
}

#[test]
fn a_full_list_takes_no_command(rt: HostRuntime) -> Result<(), Fail> {
    let alloc = rt.alloc();
    let (lock, mut seats) = Lock::new(alloc, Plain::new(alloc), 1)?;
    let Some(mut seat) = seats.pop() else {
        unreachable!()
    };
    for _ in 0..MOST {
        assert!(rt; lock.call(&rt, &mut seat, Ask::Look).is_ok());
    }
    assert!(rt; lock.call(&rt, &mut seat, Ask::Look) == Err(Full(true)));
    Ok(())
}
