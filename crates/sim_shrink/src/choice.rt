//! Which faults of a run stay.
ghost use Rattle.std.specs.Prelude.{◌≡◌, ◌+◌, ◌≤◌, ◌∷◌, List, IfOk, length, take, drop};
ghost use Rattle.std.specs.Prelude.{if◌then◌else◌};
ghost use Rattle.std.specs.List.{count_by, list_any};
ghost use Rattle.sim_events.specs.declared.Event.{Event as Happens};
ghost use Rattle.sim_shrink.specs.Choices.{kept_by, is_fault, without, count_left};

use sim_node::NoMemory;
use sim_world::Event;
use std::alloc::Global;

/// For each fault, in order, whether it stays; and how many trials were made.
#[derive(Drop)]
pub struct Choice {
    pub stays: Vec<bool>,
    pub trials: u64,
}

// Returns whether an event stays (by the first choice, if it is a fault), and the choices for the
// events after it.
fn is_kept(event: Event, choices: &[bool]) -> (bool, &[bool])
    ensures { (es : List Happens) → kept_by choices.now (event ∷ es)
        ≡ (if result.0 then event ∷ kept_by result.1.now es else kept_by result.1.now es) }
{
    match event {
        Event::Step | Event::Advance(_) => (true, choices),
        Event::Fault(_) => match choices.split_first() {
            Some((first, others)) => (*first, others),
            None => (false, choices),
        },
    }
}

/// Returns the events that a choice keeps.
pub fn kept(alloc: Global, stays: &[bool], events: &[Event]) -> Result<Vec<Event>, NoMemory>
    ensures { IfOk result (λ left. left.items ≡ kept_by stays.now events.now) }
{
    let mut left = Vec::new(alloc);
    let mut choices = stays;
    for event in events {
        let (is_left, others) = is_kept(*event, choices);
        choices = others;
        if is_left {
            left.push(*event)?;
        }
    }
    Ok(left)
}

// Returns whether an event is a fault.
fn is_fault(event: Event) -> bool
    ensures { result ≡ is_fault event }
{
    matches!(event, Event::Fault(_))
}

// Returns the number of faults among the events.
fn count_of_faults(events: &[Event]) -> usize
    ensures { result ≡ count_by is_fault events.now }
{
    events.iter().filter(|event| is_fault(**event)).count()
}

/// Returns the choice that keeps all faults, before any trial.
pub fn all_stay(alloc: Global, events: &[Event]) -> Result<Choice, NoMemory>
    ensures { IfOk result (λ choice. kept_by choice.stays.items events.now ≡ events.now) }
{
    let stays = vec![in alloc; true; count_of_faults(events)]?;
    Ok(Choice { stays, trials: 0 })
}

/// Returns how many faults stay.
pub fn count_of_left(stays: &[bool]) -> u64
    ensures { result ≡ count_left stays.now }
{
    stays.iter().filter(|is_left| **is_left).count() as u64
}

/// Returns whether any of `count` faults from number `from` on stays.
pub fn has_left(stays: &[bool], from: usize, count: usize) -> bool
    requires { from + count ≤ length stays.now }
    ensures { result ≡ list_any (λ is_left. is_left) (take count (drop from stays.now)) }
{
    stays[from..from + count].iter().any(|is_left| *is_left)
}

/// Returns the choice without `count` faults from number `from` on.
pub fn drop_from(
    alloc: Global,
    stays: &[bool],
    from: usize,
    count: usize,
) -> Result<Vec<bool>, NoMemory>
    requires { from + count ≤ length stays.now }
    ensures { IfOk result (λ fewer. fewer.items ≡ without from count stays.now) }
{
    let mut fewer: Vec<bool> = stays.iter().copied().collect(alloc)?;
    fewer[from..from + count].fill(false);
    Ok(fewer)
}
