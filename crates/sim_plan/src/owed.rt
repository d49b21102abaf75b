//! The healings of the faults in place: at most two.
ghost use Rattle.std.specs.Prelude.{◌≡◌, ◌+◌, ◌≤◌, ◌++◌, length};
ghost use Rattle.sim_plan.specs.Planned.{heals, healing, new_fault};
ghost use Rattle.sim_plan.specs.Owing.{healings};

use sim_world::{Event, Fault};

/// The healings that are owed, oldest first.
#[derive(Clone, Copy)]
pub enum Owed {
    Nothing,
    One(Fault),
    Two(Fault, Fault),
}

impl Owed {
    /// Returns whether a number heals one of them.
    pub fn heals(self, v: u32) -> bool
        ensures value { result ≡ heals v (healings self) }
    {
        match self {
            Owed::Nothing => false,
            Owed::One(_) => v % 2 == 1,
            Owed::Two(_, _) => true,
        }
    }

    /// Returns the healing that a number picks, or a step if none is owed, and the other healings.
    pub fn taken_out(self, k: u32) -> (Event, Owed)
        ensures event { result.0 ≡ (healing k (healings self)).0 }
        ensures others { healings result.1 ≡ (healing k (healings self)).1 }
    {
        match self {
            Owed::Nothing => (Event::Step, Owed::Nothing),
            Owed::One(only) => (Event::Fault(only), Owed::Nothing),
            Owed::Two(older, newer) => {
                if k % 2 == 0 {
                    (Event::Fault(older), Owed::One(newer))
                } else {
                    (Event::Fault(newer), Owed::One(older))
                }
            }
        }
    }

    /// Returns these, followed by `later`.
    pub fn then(self, later: Owed) -> Owed
        requires { length (healings self) + length (healings later) ≤ 2 }
        ensures { healings result ≡ healings self ++ healings later }
    {
        match (self, later) {
            (Owed::Nothing, later) => later,
            (earlier, Owed::Nothing) => earlier,
            (Owed::One(older), Owed::One(newer)) => Owed::Two(older, newer),
            _ => unreachable!(),
        }
    }
}

/// Returns the fault that a number plans, and its healing.
pub fn new_fault(servers: u32, hosts: u32, u: u32) -> (Fault, Owed)
    requires servers { 1 ≤ servers }
    requires hosts { (2 ≤ hosts) × (hosts ≤ 32) }
    requires all { servers ≤ hosts }
    ensures fault { result.0 ≡ (new_fault servers hosts u).0 }
    ensures heals { healings result.1 ≡ (new_fault servers hosts u).1 }
    ensures one { length (healings result.1) ≤ 1 }
{
    let x = u / 6;
    let server = (x % servers) as u16;
    let a = (x % hosts) as u16;
    let b = ((x % hosts + 1 + x / hosts % (hosts - 1)) % hosts) as u16;
    match u % 6 {
        1 => (Fault::Crash(server), Owed::One(Fault::Bounce(server))),
        2 => (Fault::Cut(a, b), Owed::One(Fault::Repair(a, b))),
        3 => (Fault::Hold(a, b), Owed::One(Fault::Release(a, b))),
        4 => (Fault::CutOneway(a, b), Owed::One(Fault::RepairOneway(a, b))),
        _ => (Fault::Bounce(server), Owed::Nothing),
    }
}
