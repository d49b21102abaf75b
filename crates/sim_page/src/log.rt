//! The log of a run: which of its events are told, and their lines.
ghost use Rattle.std.specs.Prelude.{◌≡◌, length, IfOk, IfSome, IsSome, unwrap_or};
ghost use Rattle.sim_world.specs.Events.{rules};
ghost use Rattle.sim_log.specs.Range.{IsRange};
ghost use Rattle.sim_page.specs.Logs.{IsLogOf};

use sim_cli::FreshMeter;
use sim_export::Export;
use sim_log::{Places, Teller};
use sim_node::{NoMemory, Node};
use sim_script::Names;
use sim_tape::Frozen;
use std::alloc::Global;
use std::fmt::Debug;

/// Which events are shown, and how.
#[derive(Clone, Copy)]
pub struct LogRange {
    /// The first event, from 1 on; 1 by default.
    pub from: Option<u64>,
    /// The last event; by default the last of the run.
    pub to: Option<u64>,
    /// Whether each event is a JSON object, and not a line of words.
    pub json: bool,
}

impl LogRange {
    // Returns the first and the last event to show in a run of `count` events, or `None` if it
    // lacks one of them or the last is before the first.
    fn within(self, count: u32) -> Option<(u32, u32)>
        ensures range { IfSome result (λ r. IsRange r.0 r.1 count
            × (r.0 ≡ unwrap_or self.from 1) × (r.1 ≡ unwrap_or self.to count)) }
        ensures some { IsRange (unwrap_or self.from 1) (unwrap_or self.to count) count
            → IsSome result }
    {
        let from = self.from.unwrap_or(1);
        let to = self.to.unwrap_or(u64::from(count));
        if from < 1 || to < from || u64::from(count) < to {
            return None;
        }
        Some((from as u32, to as u32))
    }

    /// Reports on standard error if the range is out of order or not within the `count` events of a
    /// run. A failure of standard error is ignored.
    pub(crate) fn report<H: Eprint>(self, host: &H, count: u32) {
        if self.within(count).is_some() {
            return;
        }
        let from = self.from.unwrap_or(1);
        let to = self.to.unwrap_or(u64::from(count));
        let _told = eprintln!(host;
            "range: --from is {from} and --to is {to}; they have to be in order, and within the \
             {count} events of the run"
        );
    }
}

/// Returns the log of a run, or a bad range if the run lacks a requested event or the range is out
/// of order. Fails only for want of memory.
pub(crate) fn log_of<N: Node<Meter: FreshMeter> + Debug>(
    alloc: Global,
    names: &Names,
    run: &Frozen<N>,
    range: LogRange,
) -> Result<Export, NoMemory>
where
    N::Msg: Debug,
    ensures { IfOk result (IsLogOf (rules N.laws N.PROBES run.now.scenario) run.now.events range) }
{
    let Some((first, last)) = range.within(run.events().len()) else {
        return Ok(Export::BadRange);
    };
    let mut meter = N::Meter::fresh();
    let places = Places::new(alloc, run, &mut meter)?;
    let teller = Teller {
        alloc,
        names,
        places: &places,
    };
    let lines = teller.lines(run, range.json, first, last, &mut meter)?;
    Ok(Export::Shown(lines))
}
