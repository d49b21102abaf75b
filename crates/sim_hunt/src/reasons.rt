//! Says on standard error why a search or a sweep is refused.
use crate::answer::Answer;
use crate::hunting::Hunt;
use sim_cli::{Opened, report_condition};
use sim_search::{MAX_EVENTS, MAX_SEEDS};
use std::alloc::Global;

/// Reports why the words of a hunt are no condition of the scenario, if that is the answer.
pub(crate) fn report_answer<H: Eprint>(
    host: &H,
    alloc: Global,
    opened: &Opened,
    hunt: &Hunt<'_>,
    answer: Answer,
) {
    if let Answer::BadCondition = answer {
        report_condition(host, alloc, &opened.names, hunt.cond);
    }
}

/// Reports why a run of `kept` events does not have the places from `lo` to `hi`, if it lacks one
/// or `hi` is less than `lo`.
pub(crate) fn report_places<H: Eprint>(host: &H, lo: u64, hi: u64, kept: u32) {
    if hi < lo {
        let _told = eprintln!(host; "range: LO is {lo} and HI is {hi}; LO has to be at most HI");
    } else if u64::from(kept) < hi {
        let _told = eprintln!(host;
            "range: HI is {hi}; it has to be at most {kept}, the number of events of the run"
        );
    }
}

/// Reports why a sweep cannot take these seeds, if it cannot.
pub(crate) fn report_seeds<H: Eprint>(host: &H, first: u64, count: u64) {
    let last = u64::MAX;
    if count == 0 || MAX_SEEDS < count {
        let _told = eprintln!(host; "range: COUNT is {count}; it has to be from 1 to {MAX_SEEDS}");
    } else if last - (count - 1) < first {
        let _told = eprintln!(host;
            "range: FIRST is {first} and COUNT is {count}; the last seed number is {last}"
        );
    }
}

/// Reports that no run has so many steps, if none has.
pub(crate) fn report_steps<H: Eprint>(host: &H, events: u64) {
    if MAX_EVENTS < events {
        let _told = eprintln!(host; "range: EVENTS is {events}; it has to be at most {MAX_EVENTS}");
    }
}
