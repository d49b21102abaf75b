//! A run of 20,000 events in 313 pieces.
use crate::scenes::{next_at_most, tallies, tape_of};
use sim_node::Setup;
use sim_search::{OpenGate, search};
use sim_tally::Tally;
use sim_watch::Cond;
use std::test::Fail;
use test_support::{Setting, TWO_ECHOES};

// One server, and 31 clients of 1,000 operations each. There is a checkpoint after each 64 events.
const MANY_ECHOES: Setting = Setting {
    setup: Setup {
        servers: 1,
        hosts: 32,
        ops: [1_000; 32],
    },
    interval: 64,
    ..TWO_ECHOES
};

// After 32 starts, 31 pings and their 31 answers come in turn. So client 5 takes its answer number
// n at place 62 n + 6, and its next operation is then n + 1.
#[test]
fn a_late_place_of_a_long_run(rt: HostRuntime) -> Result<(), Fail> {
    let alloc = rt.alloc();
    let scenario = MANY_ECHOES.scenario()?;
    let run = tape_of(alloc, &scenario, 20_000, &mut Tally::new())?.freeze(alloc)?;
    let cond = Cond::new().and(next_at_most(5, 290))?;
    for workers in [1, 9, 16] {
        let meters = tallies(alloc, workers)?;
        let found = search(&rt, alloc, &run, 0, 20_000, &cond, meters, &OpenGate);
        assert!(rt; found == Ok(Some(17_986)), "by {workers}");
    }
    Ok(())
}
