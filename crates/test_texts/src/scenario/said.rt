//! The values of a text.

ghost use Rattle.std.specs.Prelude.{IfOk};
ghost use Rattle.sim_scenario.specs.Hosts.{IsNumbered};

use crate::same::same;
use crate::shipped::Shipped;
use indexmap::IndexMap;
use sim_links::{Way, Ways};
use sim_scenario::{ScenarioText, host_name, host_number, read};
use std::alloc::Global;
use std::test::Fail;

/// Reads the scenario of a text.
pub fn scenario(alloc: Global, text: &str) -> Result<ScenarioText, Fail>
    ensures { IfOk result (λ s. IsNumbered s.names) }
{
    match read::<Shipped>(alloc, text) {
        Ok(said) => Ok(said),
        Err(fault) => Err(Fail::new(fault.key())),
    }
}

/// Checks that the hosts have these names, in the order of their numbers, and no host has the
/// other.
pub fn names_are(hosts: &IndexMap<String, u16>, names: &[&str], other: &str) -> Result<(), Fail>
    requires { IsNumbered hosts.now }
{
    let mut number = 0u16;
    for name in names {
        same(&host_number(hosts, *name), &Some(number), *name)?;
        same(&host_name(hosts, number), &Some(*name), *name)?;
        number = number.saturating_add(1);
    }
    same(&hosts.len(), &names.len(), "hosts")?;
    same(&host_name(hosts, number), &None, "no name")?;
    same(&host_number(hosts, other), &None, other)
}

/// Returns the expected way from host a to host b, if some ways differ from the rest.
fn wanted(rest: Way, others: &[(u16, u16, Way)], a: u16, b: u16) -> Way {
    for (from, to, way) in others {
        if *from == a && *to == b {
            return *way;
        }
    }
    rest
}

/// Checks that all ways are the same but for some.
pub fn ways_are(ways: &Ways, rest: Way, others: &[(u16, u16, Way)]) -> Result<(), Fail> {
    for a in 0..32 {
        for b in 0..32 {
            same(&ways.way(a, b), &wanted(rest, others, a, b), "way")?;
        }
    }
    Ok(())
}
