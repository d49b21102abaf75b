ghost use Rattle.std.specs.Prelude.{◌≡◌, IfOk};

use sim_links::{Way, Ways};
use sim_node::Setup;
use sim_world::{BadLimits, Scenario};

/// The numbers of a scenario. A tick has 100 ms, and all directions are alike.
#[derive(Clone, Copy)]
pub struct Setting {
    pub seed: [u8; 32],
    pub way: Way,
    pub disk_latency: u32,
    pub setup: Setup,
    pub interval: u32,
    pub window: u32,
}

/// Returns a way on which each message takes `latency` ms, and none is lost.
pub const fn steady(latency: u32) -> Way {
    Way {
        latency_min: latency,
        latency_max: latency,
        loss: 0,
    }
}

/// One server and one client, which has two operations. A message takes 10 ms, a sync no time. The
/// seed is all zeros, the interval four events, and the window two.
pub const TWO_ECHOES: Setting = Setting {
    seed: [0; 32],
    way: Way {
        latency_min: 10,
        latency_max: 10,
        loss: 0,
    },
    disk_latency: 0,
    setup: Setup {
        servers: 1,
        hosts: 2,
        ops: [2; 32],
    },
    interval: 4,
    window: 2,
};

impl Setting {
    /// Returns the scenario. Fails if a number is out of its range.
    pub fn scenario(&self) -> Result<Scenario, BadLimits>
        ensures { IfOk result (λ s. s.setup ≡ self.now.setup) }
    {
        Scenario::new(
            self.seed,
            100,
            Ways::all(self.way),
            self.disk_latency,
            self.setup,
            self.interval,
            self.window,
        )
    }
}
