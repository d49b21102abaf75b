//! Two workers of a search, and of a sweep, work at once.
use crate::scenes::{next_at_most, tape_of};
use crate::search::comers::{Comer, comers};
use crate::search::meeting::Meeting;
use sim_echo::Echo;
use sim_search::{search, sweep};
use sim_tape::Frozen;
use sim_watch::Cond;
use std::alloc::Global;
use std::sync::atomic::Ordering::SeqCst;
use std::test::Fail;
use test_support::TWO_ECHOES;

// A number that waits for nobody at a meeting: the run is made before the workers begin.
const PASSER: u64 = 2;

// Returns a frozen run of six steps, whose meter waits for nobody at the meeting.
fn six_steps<'a>(alloc: Global, meeting: &'a Meeting) -> Result<Frozen<Echo<Comer<'a>>>, Fail> {
    let meter = &mut Comer::new(meeting, PASSER);
    let tape = tape_of(alloc, &TWO_ECHOES.scenario()?, 6, meter)?;
    Ok(tape.freeze(alloc)?)
}

#[test]
fn two_workers_search_at_once(rt: HostRuntime) -> Result<(), Fail> {
    let alloc = rt.alloc();
    let (meeting, gate) = (Meeting::new(), Meeting::new());
    let cond = Cond::new().and(next_at_most(1, 3))?;
    let run = six_steps(alloc, &meeting)?;
    let meters = comers(alloc, &meeting)?;
    let found = search(&rt, alloc, &run, 0, 6, &cond, meters, &gate);
    assert!(rt; found == Ok(None));
    assert_eq!(rt;
        (gate.met.load(SeqCst), meeting.met.load(SeqCst)),
        (2, 2),
        "inside, and at a turn"
    );
    Ok(())
}

#[test]
fn two_workers_sweep_at_once(rt: HostRuntime) -> Result<(), Fail> {
    let (meeting, gate) = (Meeting::new(), Meeting::new());
    let scenario = TWO_ECHOES.scenario()?;
    let cond = Cond::new().and(next_at_most(1, 3))?;
    let meters = comers(rt.alloc(), &meeting)?;
    let found = sweep::<Echo<Comer>, _, _>(
        &rt,
        rt.alloc(),
        &scenario,
        5,
        3,
        6,
        &cond,
        meters,
        &gate,
    );
    assert!(rt; found == Ok(None));
    assert_eq!(rt;
        (gate.met.load(SeqCst), meeting.met.load(SeqCst)),
        (2, 2),
        "inside, and at a turn"
    );
    Ok(())
}
