//! The commands on one branch.
ghost use Rattle.std.specs.Prelude.{◌≡◌, ℕ, ◌+◌, ◌<◌, ◌≤◌, List, Option, None, Some, IsTrue};
ghost use Rattle.std.specs.Prelude.{IfSome, MatchResult, length, is_some, if◌then◌else◌};
ghost use Rattle.sim_node.specs.Work.{Work};
ghost use Rattle.sim_world.specs.Events.{rules};
ghost use Rattle.sim_world.specs.Looks.{looked, CanLook};
ghost use Rattle.sim_tape.specs.Tape.{Tape as TapeValue};
ghost use Rattle.sim_watch.specs.Condition.{Cond as Condition, fault_of};
ghost use Rattle.sim_watch.specs.declared.command.Command.{Command};
ghost use Rattle.sim_watch.specs.declared.command.Command.TheVariants as command;
ghost use Rattle.sim_book.specs.Book.{Book};
ghost use Rattle.sim_book.specs.Answer.{free_watch};
ghost use Rattle.sim_runs.specs.Branch.{branch_with};
ghost use Rattle.sim_runs.specs.OnTape.{step_refusal, world_on};
ghost use Rattle.sim_book.specs.OnBranch.{IsTurnOn, Turns, TurnsWith};
ghost use Rattle.sim_book.specs.Keeps.{Keeps};
ghost use Rattle.sim_book.specs.Works.{Works};
ghost use Rattle.sim_runs.specs.Watches.{AreChecked};

use crate::{MAX_EVENTS, MAX_WATCHES, Refusal, Reply, Stop, named};
use sim_node::Node;
use sim_tape::Tape;
use sim_watch::{BadTerm, Cond};
use sim_world::{Event, Fault, Query, View};
use std::alloc::Global;

// Fails with the reason why no step can happen at the tape's place.
fn can_step<N: Node>(tape: &Tape<N>) -> Result<(), sim_world::Refusal>
    requires { IsTrue tape.now.warm }
    ensures { MatchResult result (λ _. step_refusal N.laws N.PROBES tape.now ≡ None) (λ why.
        step_refusal N.laws N.PROBES tape.now ≡ Some why) }
{
    tape.here().can(Event::Step)
}

// Returns the view of the world at the tape's place.
fn look_at<N: Node>(tape: &Tape<N>, query: Query) -> View
    requires warm { IsTrue tape.now.warm }
    requires there { CanLook tape.now.scenario.setup.hosts N.PROBES query }
    ensures { result ≡ looked (rules N.laws N.PROBES tape.now.scenario) query
        (world_on N.laws N.PROBES tape.now) }
{
    tape.here().look(query)
}

// Returns the reply with the tape's place and clock, and the reason to stop there.
fn moved<N: Node>(tape: &Tape<N>, stop: Stop) -> Reply
    ensures { result ≡ Reply.Moved tape.now.place (world_on N.laws N.PROBES tape.now).clock stop }
{
    Reply::Moved {
        place: tape.place(),
        clock: tape.clock(),
        stop,
    }
}

/// Adds a step.
pub(crate) fn step<N: Node>(
    alloc: Global,
    tape: &mut Tape<N>,
    meter: &mut N::Meter,
    b: u32,
) -> Reply
    ensures turn { Turns N.laws N.PROBES (command.Step b) result tape.old tape.new }
    ensures same { tape.new.scenario ≡ tape.old.scenario }
    ensures keeps { Keeps N.laws N.PROBES (command.Step b) result tape.old tape.new }
    ensures work { Works N.laws N.PROBES (command.Step b) result tape.old tape.new
        (N.Meter.work meter.old) (N.Meter.work meter.new) }
{
    if tape.place() < tape.len() {
        return Reply::Refused(Refusal::NotAtEnd);
    }
    if MAX_EVENTS <= tape.len() {
        return Reply::Refused(Refusal::EventsFull);
    }
    match tape.make_warm(alloc, meter) {
        Err(_) => return Reply::Refused(Refusal::NoMemory),
        Ok(()) => {}
    }
    match can_step(tape) {
        Err(_) => return Reply::Refused(Refusal::Idle),
        Ok(()) => {}
    }
    match tape.add(alloc, Event::Step, meter) {
        Err(_) => Reply::Refused(Refusal::NoMemory),
        Ok(()) => moved(tape, Stop::Asked),
    }
}

/// Adds the events of a tick of `takes` ms.
pub(crate) fn tick<N: Node>(
    alloc: Global,
    takes: u32,
    tape: &mut Tape<N>,
    meter: &mut N::Meter,
    b: u32,
) -> Reply
    requires takes { takes ≡ tape.old.scenario.tick }
    requires near { takes ≤ 60000 }
    ensures turn { Turns N.laws N.PROBES (command.Tick b) result tape.old tape.new }
    ensures same { tape.new.scenario ≡ tape.old.scenario }
    ensures keeps { Keeps N.laws N.PROBES (command.Tick b) result tape.old tape.new }
    ensures work { Works N.laws N.PROBES (command.Tick b) result tape.old tape.new
        (N.Meter.work meter.old) (N.Meter.work meter.new) }
{
    if tape.place() < tape.len() {
        return Reply::Refused(Refusal::NotAtEnd);
    }
    if MAX_EVENTS <= tape.len() {
        return Reply::Refused(Refusal::EventsFull);
    }
    match tape.make_warm(alloc, meter) {
        Err(_) => return Reply::Refused(Refusal::NoMemory),
        Ok(()) => {}
    }
    match sim_runs::tick(alloc, tape, meter, takes) {
        Err(_) => Reply::Refused(Refusal::NoMemory),
        Ok(why) => moved(tape, why),
    }
}

/// Adds at most `count` steps, until a run has to stop.
pub(crate) fn run<N: Node>(
    alloc: Global,
    tape: &mut Tape<N>,
    watches: &[Option<Cond>; 8],
    meter: &mut N::Meter,
    b: u32,
    count: u32,
) -> Reply
    requires checked { AreChecked tape.old.scenario.setup.hosts N.PROBES watches.now }
    ensures turn { TurnsWith N.laws N.PROBES watches.now (command.Run b count)
        result tape.old tape.new }
    ensures same { tape.new.scenario ≡ tape.old.scenario }
    ensures keeps { Keeps N.laws N.PROBES (command.Run b count) result tape.old tape.new }
    ensures work { Works N.laws N.PROBES (command.Run b count) result tape.old tape.new
        (N.Meter.work meter.old) (N.Meter.work meter.new) }
{
    if tape.place() < tape.len() {
        return Reply::Refused(Refusal::NotAtEnd);
    }
    if MAX_EVENTS <= tape.len() {
        return Reply::Refused(Refusal::EventsFull);
    }
    match tape.make_warm(alloc, meter) {
        Err(_) => return Reply::Refused(Refusal::NoMemory),
        Ok(()) => {}
    }
    match can_step(tape) {
        Err(_) => return Reply::Refused(Refusal::Idle),
        Ok(()) => {}
    }
    if count == 0 {
        return moved(tape, Stop::Asked);
    }
    match sim_runs::run(alloc, tape, watches, meter, count) {
        Err(_) => Reply::Refused(Refusal::NoMemory),
        Ok(why) => moved(tape, why),
    }
}

/// Adds a fault.
pub(crate) fn fault<N: Node>(
    alloc: Global,
    hosts: u16,
    tape: &mut Tape<N>,
    meter: &mut N::Meter,
    b: u32,
    fault: Fault,
) -> Reply
    requires { hosts ≡ tape.old.scenario.setup.hosts }
    ensures turn { Turns N.laws N.PROBES (command.Fault b fault) result tape.old tape.new }
    ensures same { tape.new.scenario ≡ tape.old.scenario }
    ensures keeps { Keeps N.laws N.PROBES (command.Fault b fault) result tape.old tape.new }
    ensures work { Works N.laws N.PROBES (command.Fault b fault) result tape.old tape.new
        (N.Meter.work meter.old) (N.Meter.work meter.new) }
{
    if named::names_unknown(hosts, fault) {
        return Reply::Refused(Refusal::UnknownHost);
    }
    if named::names_twice(fault) {
        return Reply::Refused(Refusal::SameHost);
    }
    if tape.place() < tape.len() {
        return Reply::Refused(Refusal::NotAtEnd);
    }
    if MAX_EVENTS <= tape.len() {
        return Reply::Refused(Refusal::EventsFull);
    }
    match tape.make_warm(alloc, meter) {
        Err(_) => return Reply::Refused(Refusal::NoMemory),
        Ok(()) => {}
    }
    match tape.add(alloc, Event::Fault(fault), meter) {
        Err(_) => Reply::Refused(Refusal::NoMemory),
        Ok(()) => moved(tape, Stop::Asked),
    }
}

/// Goes back by `count` events.
pub(crate) fn back<N: Node>(
    alloc: Global,
    tape: &mut Tape<N>,
    meter: &mut N::Meter,
    b: u32,
    count: u32,
) -> Reply
    ensures turn { Turns N.laws N.PROBES (command.Back b count) result tape.old tape.new }
    ensures same { tape.new.scenario ≡ tape.old.scenario }
    ensures keeps { Keeps N.laws N.PROBES (command.Back b count) result tape.old tape.new }
    ensures work { Works N.laws N.PROBES (command.Back b count) result tape.old tape.new
        (N.Meter.work meter.old) (N.Meter.work meter.new) }
{
    if tape.place() < count {
        return Reply::Refused(Refusal::TooFar);
    }
    match tape.back(alloc, count, meter) {
        Err(_) => Reply::Refused(Refusal::NoMemory),
        Ok(()) => moved(tape, Stop::Asked),
    }
}

/// Goes forward by `count` events.
pub(crate) fn forward<N: Node>(
    alloc: Global,
    tape: &mut Tape<N>,
    meter: &mut N::Meter,
    b: u32,
    count: u32,
) -> Reply
    ensures turn { Turns N.laws N.PROBES (command.Forward b count) result tape.old tape.new }
    ensures same { tape.new.scenario ≡ tape.old.scenario }
    ensures keeps { Keeps N.laws N.PROBES (command.Forward b count) result tape.old tape.new }
    ensures work { Works N.laws N.PROBES (command.Forward b count) result tape.old tape.new
        (N.Meter.work meter.old) (N.Meter.work meter.new) }
{
    if tape.len() - tape.place() < count {
        return Reply::Refused(Refusal::TooFar);
    }
    match tape.forward(alloc, count, meter) {
        Err(_) => Reply::Refused(Refusal::NoMemory),
        Ok(()) => moved(tape, Stop::Asked),
    }
}

/// Goes to a place.
pub(crate) fn goto<N: Node>(
    alloc: Global,
    tape: &mut Tape<N>,
    meter: &mut N::Meter,
    b: u32,
    place: u32,
) -> Reply
    ensures turn { Turns N.laws N.PROBES (command.Goto b place) result tape.old tape.new }
    ensures same { tape.new.scenario ≡ tape.old.scenario }
    ensures keeps { Keeps N.laws N.PROBES (command.Goto b place) result tape.old tape.new }
    ensures work { Works N.laws N.PROBES (command.Goto b place) result tape.old tape.new
        (N.Meter.work meter.old) (N.Meter.work meter.new) }
{
    if tape.len() < place {
        return Reply::Refused(Refusal::TooFar);
    }
    match tape.goto(alloc, place, meter) {
        Err(_) => Reply::Refused(Refusal::NoMemory),
        Ok(()) => moved(tape, Stop::Asked),
    }
}

/// Goes back by at most `count` events, until a watch fails.
pub(crate) fn rewind<N: Node>(
    alloc: Global,
    tape: &mut Tape<N>,
    watches: &[Option<Cond>; 8],
    meter: &mut N::Meter,
    b: u32,
    count: u32,
) -> Reply
    requires checked { AreChecked tape.old.scenario.setup.hosts N.PROBES watches.now }
    ensures turn { TurnsWith N.laws N.PROBES watches.now (command.Rewind b count)
        result tape.old tape.new }
    ensures same { tape.new.scenario ≡ tape.old.scenario }
    ensures keeps { Keeps N.laws N.PROBES (command.Rewind b count) result tape.old tape.new }
    ensures work { Works N.laws N.PROBES (command.Rewind b count) result tape.old tape.new
        (N.Meter.work meter.old) (N.Meter.work meter.new) }
{
    if tape.place() < count {
        return Reply::Refused(Refusal::TooFar);
    }
    match tape.make_warm(alloc, meter) {
        Err(_) => return Reply::Refused(Refusal::NoMemory),
        Ok(()) => {}
    }
    if count == 0 {
        return moved(tape, Stop::Asked);
    }
    match sim_runs::rewind(alloc, tape, watches, meter, count) {
        Err(_) => Reply::Refused(Refusal::NoMemory),
        Ok(why) => moved(tape, why),
    }
}

/// Drops the events past the place.
pub(crate) fn cut<N: Node>(tape: &mut Tape<N>, b: u32) -> Reply
    ensures turn { Turns N.laws N.PROBES (command.Cut b) result tape.old tape.new }
    ensures same { tape.new.scenario ≡ tape.old.scenario }
    ensures keeps { Keeps N.laws N.PROBES (command.Cut b) result tape.old tape.new }
    ensures work { (w : Work) → Works N.laws N.PROBES (command.Cut b) result tape.old tape.new w w }
{
    tape.cut();
    moved(tape, Stop::Asked)
}

/// Replies with the view that a query asks for.
pub(crate) fn look<N: Node>(
    alloc: Global,
    hosts: u16,
    tape: &mut Tape<N>,
    meter: &mut N::Meter,
    b: u32,
    query: Query,
) -> Reply
    requires { hosts ≡ tape.old.scenario.setup.hosts }
    ensures turn { Turns N.laws N.PROBES (command.Look b query) result tape.old tape.new }
    ensures same { tape.new.scenario ≡ tape.old.scenario }
    ensures keeps { Keeps N.laws N.PROBES (command.Look b query) result tape.old tape.new }
    ensures work { Works N.laws N.PROBES (command.Look b query) result tape.old tape.new
        (N.Meter.work meter.old) (N.Meter.work meter.new) }
{
    if named::asks_unknown(hosts, query) {
        return Reply::Refused(Refusal::UnknownHost);
    }
    if named::asks_twice(query) {
        return Reply::Refused(Refusal::SameHost);
    }
    if named::asks_badly(N::PROBES, query) {
        return Reply::Refused(Refusal::BadCondition);
    }
    match tape.make_warm(alloc, meter) {
        Err(_) => return Reply::Refused(Refusal::NoMemory),
        Ok(()) => {}
    }
    Reply::Seen {
        place: tape.place(),
        view: look_at(tape, query),
    }
}

/// Replies with all kept events.
pub(crate) fn freeze<N: Node>(alloc: Global, tape: &Tape<N>, b: u32) -> Reply
    ensures turn { Turns N.laws N.PROBES (command.Freeze b) result tape.now tape.now }
    ensures keeps { Keeps N.laws N.PROBES (command.Freeze b) result tape.now tape.now }
    ensures work { (w : Work) → Works N.laws N.PROBES (command.Freeze b)
        result tape.now tape.now w w }
{
    match tape.events(alloc) {
        Err(_) => Reply::Refused(Refusal::NoMemory),
        Ok(events) => Reply::Frozen(events),
    }
}

// Returns the reason why a condition cannot be used, or `None` if it can.
fn fault_of<N: Node>(hosts: u16, cond: &Cond) -> Option<BadTerm>
    ensures { result ≡ fault_of hosts N.PROBES cond.now }
{
    match cond.check(hosts, N::PROBES) {
        Ok(()) => None,
        Err(why) => Some(why),
    }
}

// Returns the lowest free number of a watch.
fn free(watches: &[Option<Cond>; 8]) -> Option<u32>
    ensures value { result ≡ free_watch watches.now }
    ensures few { IfSome result (λ n. n < 8) }
{
    for number in 0..MAX_WATCHES {
        if watches[number].is_none() {
            return Some(number as u32);
        }
    }
    None
}

// Returns the refusal of a condition that names only known hosts but cannot be used.
fn refuse_bad<N: Node>(watches: &[Option<Cond>; 8]) -> Reply
    ensures value { result ≡ Reply.Refused
        (if is_some (free_watch watches.now) then Refusal.BadCondition else Refusal.WatchesFull) }
    ensures keeps { (c : Command) (t : TapeValue) → Keeps N.laws N.PROBES c result t t }
    ensures work { (c : Command) (t : TapeValue) (w : Work) →
        Works N.laws N.PROBES c result t t w w }
{
    match free(watches) {
        None => Reply::Refused(Refusal::WatchesFull),
        Some(_) => Reply::Refused(Refusal::BadCondition),
    }
}

/// Keeps a condition under the lowest free number.
pub(crate) fn watch<N: Node>(
    hosts: u16,
    watches: &mut [Option<Cond>; 8],
    b: u32,
    cond: &Cond,
) -> Reply
    requires checked { AreChecked hosts N.PROBES watches.old }
    ensures turn { (book : Book) (t : TapeValue) → hosts ≡ t.scenario.setup.hosts
        → IsTurnOn (rules N.laws N.PROBES t.scenario) book (branch_with watches.old t)
        (command.Watch b cond.now) result (branch_with watches.new t) }
    ensures checked { AreChecked hosts N.PROBES watches.new }
    ensures keeps { (t : TapeValue) → Keeps N.laws N.PROBES (command.Watch b cond.now) result t t }
    ensures work { (t : TapeValue) (w : Work) →
        Works N.laws N.PROBES (command.Watch b cond.now) result t t w w }
{
    match fault_of::<N>(hosts, cond) {
        Some(BadTerm::UnknownHost) => Reply::Refused(Refusal::UnknownHost),
        Some(BadTerm::BadProbe) => refuse_bad::<N>(watches),
        Some(BadTerm::Empty) => refuse_bad::<N>(watches),
        None => match free(watches) {
            None => Reply::Refused(Refusal::WatchesFull),
            Some(number) => {
                watches[number as usize] = Some(cond.copy());
                Reply::Made(number)
            }
        },
    }
}

/// Drops a condition.
pub(crate) fn unwatch<N: Node>(
    hosts: u16,
    watches: &mut [Option<Cond>; 8],
    b: u32,
    number: u32,
) -> Reply
    requires checked { AreChecked hosts N.PROBES watches.old }
    ensures turn { (book : Book) (t : TapeValue)
        → IsTurnOn (rules N.laws N.PROBES t.scenario) book (branch_with watches.old t)
        (command.Unwatch b number) result (branch_with watches.new t) }
    ensures checked { AreChecked hosts N.PROBES watches.new }
    ensures keeps { (t : TapeValue) → Keeps N.laws N.PROBES (command.Unwatch b number) result t t }
    ensures work { (t : TapeValue) (w : Work) →
        Works N.laws N.PROBES (command.Unwatch b number) result t t w w }
{
    if MAX_WATCHES <= number as usize || watches[number as usize].is_none() {
        return Reply::Refused(Refusal::UnknownWatch);
    }
    watches[number as usize] = None;
    Reply::Dropped(number)
}
