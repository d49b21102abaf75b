//! Written scripts and conditions, and mistakes in bad lines.
//!
//! It is proved that the texts of `sim_input` read back as the same events or the same condition,
//! and that `sim_script::mistake_of` finds a mistake in exactly the bad lines. Neither says which
//! of several texts is written, nor which word of a line is named. These tests do, by texts that
//! were written by hand after docs/SCRIPT.md.
//!
//! - A script with a line of each kind of event, conditions with each kind of term and each sign,
//!   and events and conditions that cannot be written.
//! - `mistakes`: bad lines of each kind, each with the word that makes it bad and what was expected
//!   there; and the sentences about texts that are no condition.
//!
//! What each test would catch, where the proofs say nothing:
//!
//! * `scripts`: a line that reads back as its event, but differs from docs/SCRIPT.md, and an event
//!   that is refused though it has a line.
//! * `conditions`: a condition that differs from docs/SCRIPT.md, for example by two spaces, or is
//!   refused though it can be written.
//! * `mistakes::mistakes`: a bad line whose mistake is reported at another word, or for another
//!   reason.
//! * `mistakes::bad_conditions`: a condition that is refused with no word about it, or with the
//!   wrong one; a name that does not exist and is not found.
mod mistakes;

ghost use Rattle.std.specs.Prelude.{◌≡◌, vec_len, IfOk};

use sim_input::{LineError, push_condition, script};
use sim_script::{Names, condition_of};
use sim_world::{Event, Fault};
use std::alloc::{AllocError, Global};
use std::test::Fail;

/// Conditions with each kind of term, and each sign.
const CONDITIONS: [&str; 3] = [
    "w.next <= 2 and any num < 3 or not up w or agree val by num unless 0",
    "count num >= a.num = 3 and all val != 9999999999999999999 or differ val unless 1",
    "up a and b1.val > 0 or done w and not done b1 or agree num unless 12",
];

/// The lines of the events below.
const SCRIPT: &str = "step
crash a
bounce b1
hold a w
release w a
partition b1 w
repair a b1
cutoneway w b1
repaironeway b1 a
step
";

fn events() -> [Event; 10] {
    [
        Event::Step,
        Event::Fault(Fault::Crash(0)),
        Event::Fault(Fault::Bounce(1)),
        Event::Fault(Fault::Hold(0, 2)),
        Event::Fault(Fault::Release(2, 0)),
        Event::Fault(Fault::Cut(1, 2)),
        Event::Fault(Fault::Repair(0, 1)),
        Event::Fault(Fault::CutOneway(2, 1)),
        Event::Fault(Fault::RepairOneway(1, 0)),
        Event::Step,
    ]
}

/// Returns three owned texts.
fn three(alloc: Global, texts: [&str; 3]) -> Result<Vec<String>, AllocError>
    ensures { IfOk result (λ owned. vec_len owned ≡ 3) }
{
    let mut owned = Vec::new(alloc);
    owned.push(String::from_str(alloc, texts[0])?)?;
    owned.push(String::from_str(alloc, texts[1])?)?;
    owned.push(String::from_str(alloc, texts[2])?)?;
    Ok(owned)
}

/// Returns the names of two servers and a client, and of three probes.
pub fn names(alloc: Global) -> Result<Names, AllocError> {
    let hosts = three(alloc, ["a", "b1", "w"])?;
    let probes = three(alloc, ["next", "num", "val"])?;
    Ok(Names::new(hosts, probes))
}

/// Returns whether the event alone has no line.
fn is_refused(alloc: Global, names: &Names, event: Event) -> bool {
    matches!(
        script(alloc, names, [event].as_slice()),
        Err(LineError::NoLine)
    )
}

/// Returns the script of the events.
fn written(alloc: Global, names: &Names) -> Result<String, AllocError> {
    match script(alloc, names, events().as_slice()) {
        Ok(text) => Ok(text),
        Err(_) => Err(AllocError),
    }
}

/// Reads a condition and writes it again.
fn rewritten(alloc: Global, names: &Names, text: &str) -> Result<String, Fail> {
    let cond = condition_of(names, text.as_bytes()).ok_or("no condition")?;
    let mut written = String::new(alloc);
    push_condition(&mut written, names, &cond)?;
    Ok(written)
}

/// Returns whether the condition of a text cannot be written.
fn is_lost(alloc: Global, names: &Names, text: &str) -> bool {
    let Some(cond) = condition_of(names, text.as_bytes()) else {
        return false;
    };
    let mut written = String::new(alloc);
    matches!(
        push_condition(&mut written, names, &cond),
        Err(LineError::NoLine)
    )
}

#[test]
fn conditions(rt: HostRuntime) -> Result<(), Fail> {
    let alloc = rt.alloc();
    let names = names(alloc)?;
    for text in CONDITIONS {
        assert_eq!(rt; rewritten(alloc, &names, text)?.as_str(), text);
    }
    assert!(rt; is_lost(alloc, &names, "up a or up nobody"));
    assert!(rt; is_lost(alloc, &names, "any nothing = 0"));
    Ok(())
}

#[test]
fn scripts(rt: HostRuntime) -> Result<(), Fail> {
    let alloc = rt.alloc();
    let names = names(alloc)?;
    assert_eq!(rt; written(alloc, &names)?.as_str(), SCRIPT);
    assert!(rt; is_refused(alloc, &names, Event::Advance(7)));
    assert!(rt; is_refused(alloc, &names, Event::Fault(Fault::Crash(3))));
    assert!(rt; is_refused(alloc, &names, Event::Fault(Fault::Cut(0, 3))));
    Ok(())
}
