//! Sessions of a walk: the commands, and the whole output.
//!
//! What each test catches:
//! - `sessions`: a session on a run that fails, whose answers omit what leads to the cause, or
//!   report something else; a command with a wrong answer, a short name that is not accepted, and a
//!   mistake that is reported as another; a write that a crash tears or drops and that is taken for
//!   another, or whose event is another.
//! - `a_long_way`: a move that reports more or fewer than 20 events and the last, or omits the
//!   others silently.
//! - `a_prompt`: a prompt with another branch, place, number of events or clock, or none.
//! - `a_state_with_long_lists`: a run of equal elements that stays, or that hides another element.
//! - `a_fault_of_the_script`: a walk over a script at fault.
use sim_cli::Status;
use sim_shipped::Shipped;
use sim_sight::shortened;
use sim_walk::{Style, walk};
use std::alloc::Global;
use std::process::Abort;
use std::test::Fail;
use test_support::walks::{
    A_LONG_WAY, ANSWERS, CAUSE, COMMANDS, CRASHES, MANY_HOLDS, OTHER_ANSWERS, OTHER_COMMANDS,
    PINGS, STORES, STORES_TORN, TO_THE_CAUSE, TORN,
};

// Returns the status and the output of a walk of this input by these commands. All tests call
// `walk` here: the prover takes long for each call of it over the protocols that ship.
fn walked<R: Eprint>(
    rt: &R,
    alloc: Global,
    input: &str,
    commands: &str,
    is_prompted: bool,
) -> (Status, Vec<u8>) {
    let mut written = Vec::new(alloc);
    let style = Style { is_prompted };
    let mut reader = input.as_bytes();
    let mut typed = commands.as_bytes();
    let ended = walk::<Shipped, _, _, _, _>(
        rt,
        alloc,
        &mut reader,
        style,
        &mut typed,
        &mut written,
    );
    (ended, written)
}

// A walk of this input writes `want` for these commands, and ends well.
fn is_walked<R: Eprint + Abort>(
    rt: &R,
    alloc: Global,
    input: &str,
    commands: &str,
    is_prompted: bool,
    want: &str,
) -> Result<(), Fail> {
    let (ended, written) = walked(rt, alloc, input, commands, is_prompted);
    assert!(rt; ended == Status::Well);
    let text = str::from_utf8(written.as_slice())?;
    assert!(rt; text == want, "{text}");
    Ok(())
}

// A session that goes from the failing place to its cause; each command; crashes over writes.
#[test]
fn sessions(rt: HostRuntime) -> Result<(), Fail> {
    for (input, commands, want) in [
        (TORN, TO_THE_CAUSE, CAUSE),
        (PINGS, COMMANDS, ANSWERS),
        (PINGS, OTHER_COMMANDS, OTHER_ANSWERS),
        (STORES, CRASHES, STORES_TORN),
    ] {
        is_walked(&rt, rt.alloc(), input, commands, false, want)?;
    }
    Ok(())
}

#[test]
fn a_long_way(rt: HostRuntime) -> Result<(), Fail> {
    let input = format!(in rt.alloc(); "{PINGS}{MANY_HOLDS}")?;
    let input = input.as_str();
    is_walked(
        &rt,
        rt.alloc(),
        input,
        "goto 4\nforward 24\n",
        false,
        A_LONG_WAY,
    )
}

#[test]
fn a_prompt(rt: HostRuntime) -> Result<(), Fail> {
    let want = "\
`help` lists the commands.
0 @ 4, 20 ms> place 3 clock 10
back by 1; next is 4 clock 20: w gets Pong(1) from a (sent at 3): sends Ping(2) to a, due 30
0 @ 3 of 4, 10 ms> \n";
    is_walked(&rt, rt.alloc(), PINGS, "b\n", true, want)
}

#[test]
fn a_fault_of_the_script(rt: HostRuntime) -> Result<(), Fail> {
    let alloc = rt.alloc();
    let input = format!(in alloc; "{PINGS}back 5\n")?;
    let (ended, written) = walked(&rt, alloc, input.as_str(), "look\n", false);
    assert!(rt; ended == Status::BadRequest);
    assert!(rt; written.is_empty());
    Ok(())
}

#[test]
fn a_state_with_long_lists(rt: HostRuntime) -> Result<(), Fail> {
    let state =
        b"S { a: [0, 7, 0, 0, 0, 0], b: [(1, []), (1, []), (1, []), (1, [])], c: [2, 2, 2] }";
    let want = b"S { a: [0, 7, 0 x 4], b: [(1, []) x 4], c: [2, 2, 2] }";
    let short = shortened(rt.alloc(), state)?;
    assert!(rt; short.as_slice() == want.as_slice());
    Ok(())
}
