//! The script, as turns of a book.
use crate::opening::{LOOKS, Nodes, SCRIPT, command, opening, tell, wants_memory};
use crate::{TRIES, Trouble};
use sim_book::{Book, Entry, NotTaken};
use sim_cli::Tally;
use sim_script::Names;
use std::alloc::Global;

// Takes the turn of a line, and again if it wants memory.
fn turn(
    alloc: Global,
    book: &mut Book<Nodes>,
    names: &Names,
    line: &str,
) -> Result<Result<Entry, NotTaken>, Trouble> {
    for _attempt in 0..TRIES {
        let turn = book.turn(alloc, 0, command(alloc, names, line)?);
        if !wants_memory(&turn) {
            return Ok(turn);
        }
    }
    Err(Trouble::StillWanting)
}

// Returns the answers of all branches to looks.
fn looks(alloc: Global, book: &mut Book<Nodes>, names: &Names) -> Result<String, Trouble> {
    let mut text = String::new(alloc);
    for line in LOOKS.lines() {
        let turn = turn(alloc, book, names, line)?;
        tell(alloc, &mut text, names, &turn)?;
    }
    Ok(text)
}

// Takes the turn of a line. If it wants memory, checks that all branches answer looks as before,
// and takes it again.
fn checked_turn(
    alloc: Global,
    book: &mut Book<Nodes>,
    names: &Names,
    line: &str,
) -> Result<Result<Entry, NotTaken>, Trouble> {
    for _attempt in 0..TRIES {
        let before = looks(alloc, book, names)?;
        let turn = book.turn(alloc, 0, command(alloc, names, line)?);
        if !wants_memory(&turn) {
            return Ok(turn);
        }
        if looks(alloc, book, names)?.as_str() != before.as_str() {
            return Err(Trouble::Changed);
        }
    }
    Err(Trouble::StillWanting)
}

/// Returns the lines of the script's answers.
pub fn lines<H: Eprint>(host: &H, alloc: Global) -> Result<String, Trouble> {
    let (scenario, names) = opening(host, alloc)?;
    let mut book = Book::<Nodes>::new(alloc, &scenario, Tally::new())?;
    let mut text = String::new(alloc);
    for line in SCRIPT.lines() {
        let turn = checked_turn(alloc, &mut book, &names, line)?;
        tell(alloc, &mut text, &names, &turn)?;
    }
    Ok(text)
}
