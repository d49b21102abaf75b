//! Meters that wait for each other in their first turn.
ghost use Rattle.std.specs.Prelude.{◌≡◌, IfOk, vec_len};

use crate::search::meeting::Meeting;
use sim_node::{Meter, NoMemory};
use sim_tally::Tally;
use std::alloc::Global;

/// A meter that comes to a meeting in its first turn, with a number.
#[derive(Drop)]
pub struct Comer<'a> {
    tally: Tally,
    meeting: &'a Meeting,
    number: u64,
    came: bool,
}

impl<'a> Comer<'a> {
    /// Makes a meter that has not come yet.
    pub fn new(meeting: &'a Meeting, number: u64) -> Comer<'a> {
        Comer {
            tally: Tally::new(),
            meeting,
            number,
            came: false,
        }
    }
}

impl<'a> Meter for Comer<'a> {
    ghost work = { λ comer. comer.tally.work };

    fn turn(&mut self) {
        if !self.came {
            self.came = true;
            self.meeting.come(self.number);
        }
        self.tally.turn();
    }

    fn copied(&mut self) {
        self.tally.copied();
    }

    fn undone(&mut self) {
        self.tally.undone();
    }
}

/// Makes two meters that wait for each other.
pub fn comers<'a>(alloc: Global, meeting: &'a Meeting) -> Result<Vec<Comer<'a>>, NoMemory>
    ensures { IfOk result (λ v. vec_len v ≡ 2) }
{
    let mut meters = Vec::new(alloc);
    meters.push(Comer::new(meeting, 0))?;
    meters.push(Comer::new(meeting, 1))?;
    Ok(meters)
}
