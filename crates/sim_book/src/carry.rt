ghost use Rattle.std.specs.Prelude.{◌≡◌, ℕ, ◌+◌, ◌<◌, ◌≤◌, false, true, List, length, take, IsTrue};
ghost use Rattle.std.specs.Prelude.{IfOk};
ghost use Rattle.std.specs.List.{All};
ghost use Rattle.sim_node.specs.Work.{Work};
ghost use Rattle.sim_events.specs.Scenario.{Scenario as ScenarioValue};
ghost use Rattle.sim_world.specs.Events.{rules};
ghost use Rattle.sim_book.specs.Book.{Book, empty_branch, IsBranch};
ghost use Rattle.sim_watch.specs.Commands.{branch_of, makes_branch};
ghost use Rattle.sim_book.specs.Kept.{shown, all_shown};
ghost use Rattle.sim_book.specs.OnBranch.{IsTurnOn};
ghost use Rattle.sim_book.specs.Headline.{AreBranches};
ghost use Rattle.sim_book.specs.History.{IsTurn};
ghost use Rattle.sim_book.specs.BookOf.{IsKept, AllKept};
ghost use Rattle.sim_book.specs.Keeps.{Keeps, KeepsTapes};
ghost use Rattle.sim_book.specs.Works.{Works, TakesWork};

use crate::kept::Kept;
use crate::{Command, Refusal, Reply, branch};
use sim_node::{NoMemory, Node};
use sim_world::Scenario;
use std::alloc::Global;

// Carries out a command on its branch.
fn on_branch<N: Node>(
    alloc: Global,
    scenario: &Scenario,
    kept: &mut Kept<N>,
    meter: &mut N::Meter,
    command: &Command,
) -> Reply
    requires kept { IsKept N.PROBES scenario.now kept.old }
    requires plain { makes_branch command.now ≡ false }
    ensures turn { (book : Book) →
        IsTurnOn (rules N.laws N.PROBES kept.old.tape.scenario) book (shown kept.old)
        command.now result (shown kept.new) }
    ensures kept { IsKept N.PROBES scenario.now kept.new }
    ensures keeps { Keeps N.laws N.PROBES command.now result kept.old.tape kept.new.tape }
    ensures work { Works N.laws N.PROBES command.now result kept.old.tape kept.new.tape
        (N.Meter.work meter.old) (N.Meter.work meter.new) }
{
    let hosts = scenario.hosts();
    let takes = scenario.tick();
    match command {
        Command::Step(b) => branch::step(alloc, &mut kept.tape, meter, *b),
        Command::Tick(b) => branch::tick(alloc, takes, &mut kept.tape, meter, *b),
        Command::Run(b, n) => branch::run(alloc, &mut kept.tape, &kept.watches, meter, *b, *n),
        Command::Fault(b, f) => branch::fault(alloc, hosts, &mut kept.tape, meter, *b, *f),
        Command::Back(b, n) => branch::back(alloc, &mut kept.tape, meter, *b, *n),
        Command::Forward(b, n) => branch::forward(alloc, &mut kept.tape, meter, *b, *n),
        Command::Goto(b, p) => branch::goto(alloc, &mut kept.tape, meter, *b, *p),
        Command::Rewind(b, n) => branch::rewind(
            alloc,
            &mut kept.tape,
            &kept.watches,
            meter,
            *b,
            *n,
        ),
        Command::Cut(b) => branch::cut(&mut kept.tape, *b),
        Command::Watch(b, c) => branch::watch::<N>(hosts, &mut kept.watches, *b, c.get()),
        Command::Unwatch(b, w) => branch::unwatch::<N>(hosts, &mut kept.watches, *b, *w),
        Command::Look(b, q) => branch::look(alloc, hosts, &mut kept.tape, meter, *b, *q),
        Command::Freeze(b) => branch::freeze(alloc, &kept.tape, *b),
        Command::Branch(_, _) => unreachable!(),
    }
}

// Returns a branch of the first `p` events of another.
fn split<N: Node>(alloc: Global, kept: &Kept<N>, p: u32) -> Result<Kept<N>, NoMemory>
    requires { p ≤ length kept.now.tape.events }
    ensures shown { IfOk result (λ k.
        shown k ≡ record empty_branch { events = take p kept.now.tape.events; place = p }) }
    ensures kept { (s : ScenarioValue) → IsKept N.PROBES s kept.now →
        IfOk result (IsKept N.PROBES s) }
    ensures branch { IfOk result (λ k. IsBranch (rules N.laws N.PROBES k.tape.scenario) (shown k)) }
{
    let tape = kept.tape.split(alloc, p)?;
    let made = Kept {
        tape,
        watches: [None, None, None, None, None, None, None, None],
    };
    made.laws();
    Ok(made)
}

// Carries out a command that makes a branch.
fn make_branch<N: Node>(alloc: Global, branches: &mut Vec<Kept<N>>, b: u32, p: u32) -> Reply
    requires { b < length branches.old.items }
    ensures turn { (s : ScenarioValue)
        → IsTurn (rules N.laws N.PROBES s) (all_shown branches.old.items) (Command.Branch b p)
        result (all_shown branches.new.items) }
    ensures same { (s : ScenarioValue) → AllKept N.PROBES s branches.old.items →
        AllKept N.PROBES s branches.new.items }
    ensures branches { (s : ScenarioValue) → AllKept N.PROBES s branches.old.items
        → AreBranches (rules N.laws N.PROBES s) (all_shown branches.old.items)
        → AreBranches (rules N.laws N.PROBES s) (all_shown branches.new.items) }
    ensures keeps { KeepsTapes N.laws N.PROBES (Command.Branch b p)
        result branches.old.items branches.new.items }
    ensures work { (w : Work) → TakesWork N.laws N.PROBES (Command.Branch b p)
        result branches.old.items branches.new.items w w }
{
    let kept = &branches[b as usize];
    if kept.tape.len() < p {
        return Reply::Refused(Refusal::TooFar);
    }
    let number = branches.len();
    if number >= 64 {
        return Reply::Refused(Refusal::BranchesFull);
    }
    match split(alloc, kept, p) {
        Err(_) => Reply::Refused(Refusal::NoMemory),
        Ok(made) => {
            match branches.push(made) {
                Err(_) => return Reply::Refused(Refusal::NoMemory),
                Ok(()) => {}
            }
            Reply::Made(number as u32)
        }
    }
}

// Carries out a command on a branch that exists.
fn on_one<N: Node>(
    alloc: Global,
    scenario: &Scenario,
    branches: &mut Vec<Kept<N>>,
    meter: &mut N::Meter,
    b: u32,
    command: &Command,
) -> Reply
    requires there { b < length branches.old.items }
    requires named { b ≡ branch_of command.now }
    requires same { AllKept N.PROBES scenario.now branches.old.items }
    requires branches { AreBranches (rules N.laws N.PROBES scenario.now)
        (all_shown branches.old.items) }
    requires plain { makes_branch command.now ≡ false }
    ensures turn { IsTurn (rules N.laws N.PROBES scenario.now) (all_shown branches.old.items)
        command.now result (all_shown branches.new.items) }
    ensures same { AllKept N.PROBES scenario.now branches.new.items }
    ensures branches { AreBranches (rules N.laws N.PROBES scenario.now)
        (all_shown branches.new.items) }
    ensures keeps { KeepsTapes N.laws N.PROBES command.now result branches.old.items
        branches.new.items }
    ensures work { TakesWork N.laws N.PROBES command.now result branches.old.items
        branches.new.items (N.Meter.work meter.old) (N.Meter.work meter.new) }
{
    let kept = &mut branches[b as usize];
    let reply = on_branch(alloc, scenario, kept, meter, command);
    kept.laws();
    reply
}

// Carries out a command.
pub(crate) fn carry_out<N: Node>(
    alloc: Global,
    scenario: &Scenario,
    branches: &mut Vec<Kept<N>>,
    meter: &mut N::Meter,
    command: &Command,
) -> Reply
    requires same { AllKept N.PROBES scenario.now branches.old.items }
    requires branches { AreBranches (rules N.laws N.PROBES scenario.now)
        (all_shown branches.old.items) }
    ensures turn { IsTurn (rules N.laws N.PROBES scenario.now) (all_shown branches.old.items)
        command.now result (all_shown branches.new.items) }
    ensures same { AllKept N.PROBES scenario.now branches.new.items }
    ensures branches { AreBranches (rules N.laws N.PROBES scenario.now)
        (all_shown branches.new.items) }
    ensures keeps { KeepsTapes N.laws N.PROBES command.now result branches.old.items
        branches.new.items }
    ensures work { TakesWork N.laws N.PROBES command.now result branches.old.items
        branches.new.items (N.Meter.work meter.old) (N.Meter.work meter.new) }
{
    let b = command.branch();
    if branches.len() <= b as usize {
        return Reply::Refused(Refusal::UnknownBranch);
    }
    match command.made_at() {
        Some(p) => make_branch(alloc, branches, b, p),
        None => on_one(alloc, scenario, branches, meter, b, command),
    }
}
