//! Says on standard error why a run cannot be planned.
use crate::plan::{MAX_PLANNED, MAX_SPACING};

/// Reports on standard error which number of a plan is past its limits, if one is: the spacing of
/// faults, or the sum of the events of the script, the planned events and the steps of the quiet
/// end. A failure of standard error is ignored.
pub fn report_plan<H: Eprint>(
    host: &H,
    given: usize,
    events: u64,
    quiet: u64,
    faults: Option<u64>,
) {
    let spacing = faults.unwrap_or(2);
    if spacing < 2 || u64::from(MAX_SPACING) < spacing {
        let _told = eprintln!(host; "range: F is {spacing}; it has to be from 2 to {MAX_SPACING}");
    }
    let sum = (given as u64).saturating_add(events).saturating_add(quiet);
    if MAX_PLANNED < sum {
        let _told = eprintln!(host;
            "range: the script has {given} events, EVENTS is {events} and Q is {quiet}; together \
             they have to be at most {MAX_PLANNED}"
        );
    }
}
