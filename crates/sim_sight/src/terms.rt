//! Finds which terms of a condition fail, and shows the values that they name.
ghost use Rattle.std.specs.Prelude.{◌≡◌, ◌<◌, ◌&&◌, is_none, not};
ghost use Rattle.sim_watch.specs.Condition.{fault_of, holds};

use sim_input::push_condition;
use sim_node::{NoMemory, Node};
use sim_script::Names;
use sim_watch::{Comparison, Cond, Term, Value, holds};
use sim_world::World;

/// Returns whether a condition is usable in a world and holds there.
pub fn holds_of<N: Node>(cond: &Cond, world: &World<N>) -> bool
    ensures { result ≡ (is_none (fault_of world.now.scenario.setup.hosts N.PROBES cond.now)
        && holds N.laws cond.now world.now.world) }
{
    match cond.check(world.hosts(), N::PROBES) {
        Ok(()) => holds(cond, world),
        Err(_) => false,
    }
}

/// Returns whether a condition is usable in a world and fails there.
pub fn fails_of<N: Node>(cond: &Cond, world: &World<N>) -> bool
    ensures { result ≡ (is_none (fault_of world.now.scenario.setup.hosts N.PROBES cond.now)
        && not (holds N.laws cond.now world.now.world)) }
{
    match cond.check(world.hosts(), N::PROBES) {
        Ok(()) => !holds(cond, world),
        Err(_) => false,
    }
}

// Returns the probe of a comparison's right side, if it is a probe.
fn shown_probe(to: Comparison) -> Option<u8> {
    match to.value {
        Value::Number(_) => None,
        Value::Shown(_, probe) => Some(probe),
    }
}

// Returns the probes that a term names.
fn probes_of(term: Term) -> (Option<u8>, Option<u8>) {
    match term {
        Term::Cmp(_, probe, to)
        | Term::Count(probe, to, _, _)
        | Term::Any(probe, to)
        | Term::All(probe, to) => {
            let shown = shown_probe(to);
            if shown == Some(probe) {
                (Some(probe), None)
            } else {
                (Some(probe), shown)
            }
        }
        Term::Agree(probe, _) | Term::Differ(probe, _) => (Some(probe), None),
        Term::AgreeBy(probe, by, _) => (Some(by), Some(probe)),
        Term::Up(_) | Term::NotUp(_) | Term::Done(_) | Term::NotDone(_) => (None, None),
    }
}

// Appends the value of a probe of a host, or that the host is down.
fn tell_value<N: Node>(
    names: &Names,
    world: &World<N>,
    host: u16,
    probe: u8,
    said: &mut String,
) -> Result<(), NoMemory>
    requires host { host < world.now.scenario.setup.hosts }
    requires probe { probe < N.PROBES }
{
    let by = names.host_name(host);
    match world.probe(host, probe) {
        Some(value) => {
            let name = names.probe_name(probe);
            write!(said, " {by}.{name} {value}")
        }
        None => write!(said, " {by} down"),
    }
}

// Appends the values of a probe, if there is one, of the hosts that a condition names.
fn tell_values<N: Node>(
    names: &Names,
    world: &World<N>,
    cond: &Cond,
    probe: Option<u8>,
    said: &mut String,
) -> Result<(), NoMemory> {
    let probe = match probe {
        Some(probe) if probe < N::PROBES => probe,
        _ => return Ok(()),
    };
    let concerned = cond.concerned();
    for host in 0..world.hosts() {
        if concerned.get(host as usize).copied().unwrap_or(false) {
            tell_value(names, world, host, probe, said)?;
        }
    }
    Ok(())
}

// Appends a term that fails.
fn tell_term<N: Node>(
    names: &Names,
    world: &World<N>,
    cond: &Cond,
    term: Term,
    said: &mut String,
) -> Result<(), NoMemory> {
    said.push_str("fails: ")?;
    if push_condition(said, names, cond).is_err() {
        said.push('?')?;
    }
    let (first, second) = probes_of(term);
    said.push_str(if first.is_some() { ":" } else { "" })?;
    tell_values(names, world, cond, first, said)?;
    tell_values(names, world, cond, second, said)?;
    said.push('\n')
}

/// Appends a line for each term of a condition that fails in a world, with the values of its
/// probes. Leaves out a term that names an unknown host or probe. Fails only for want of memory.
pub fn tell_failing<N: Node>(
    names: &Names,
    world: &World<N>,
    cond: &Cond,
    said: &mut String,
) -> Result<(), NoMemory> {
    for joined in cond.terms() {
        if let Ok(one) = Cond::new().and(joined.term) {
            if fails_of(&one, world) {
                tell_term(names, world, &one, joined.term, said)?;
            }
        }
    }
    Ok(())
}
