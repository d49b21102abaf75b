//! Answers an order, and carries it out on the book.
ghost use Rattle.std.specs.Prelude.{◌≡◌, ◌≤◌, [], length, IfOk};
ghost use Rattle.sim_world.specs.Events.{rules};
ghost use Rattle.sim_book.specs.Book.{branch as branch_in};
ghost use Rattle.sim_watch.specs.Commands.{branch_of};
ghost use Rattle.sim_book.specs.Kept.{all_shown};
ghost use Rattle.sim_cli.specs.Turns.{course_of, Takes};
ghost use Rattle.sim_answers.specs.Lines.{turn_line};
ghost use Rattle.sim_walk.specs.Accounts.{Accounts, IsWithin};
ghost use Rattle.sim_walk.specs.Walks.{TakesTurn, Stays, Walks, IsPlaceFor};

use crate::account::{Account, account_of};
use sim_book::{Book, Command, Entry, MAX_WATCHES, NotTaken, Refusal, Reply};
use sim_cli::{FreshMeter, Opened};
use sim_export::{InputError, input_of};
use sim_inspect::{Run, SeekError, kept_of, place_of, seek, whereabouts};
use sim_node::{NoMemory, Node};
use sim_orders::{Known, Order, Request, Shown, tell_help, tell_not_taken};
use sim_replies::tell_turn;
use sim_sight::{Sight, tell_failing};
use sim_tape::EventList;
use sim_watch::{BadTerm, Sought};
use sim_world::Event;
use std::alloc::Global;
use std::fmt::Debug;

/// The session of a walk.
const SESSION: u8 = 0;

/// The answer to an order: the line that replies to a turn of the book, if there was one, and an
/// account.
#[derive(Drop)]
pub(crate) struct Answer {
    pub(crate) reply: Vec<u8>,
    pub(crate) account: Account,
}

impl Answer {
    // Returns an answer of words alone.
    fn of_words(alloc: Global, said: String) -> Answer
        ensures reply { result.reply.items ≡ [] }
    {
        let reply = Vec::new(alloc);
        let account = Account::of_words(alloc, said);
        Answer { reply, account }
    }
}

/// The parts of a walk that answers need.
#[derive(Drop)]
pub(crate) struct Desk<'a> {
    pub(crate) alloc: Global,
    pub(crate) opened: &'a Opened,
}

// Returns the first `place` events of a list.
fn events_before(alloc: Global, list: &EventList, place: u32) -> Result<Vec<Event>, NoMemory> {
    let mut events = Vec::new(alloc);
    for i in 0..place {
        if let Some(event) = list.get(i) {
            events.push(event)?;
        }
    }
    Ok(events)
}

// Appends the numbers of the watches of a branch, or that it has none.
fn tell_watches<N: Node>(book: &Book<N>, branch: u32, said: &mut String) -> Result<(), NoMemory> {
    let mut is_first = true;
    for number in 0..MAX_WATCHES as u32 {
        if book.has_watch(branch, number) {
            said.push_str(if is_first { "watches:" } else { "" })?;
            write!(said, " {number}")?;
            is_first = false;
        }
    }
    said.push_str(if is_first {
        "the branch has none; `watch COND` keeps one\n"
    } else {
        "\n"
    })
}

// Carries out a command. If it moved the branch, the place is one of the branch, and so is the
// place before the turn.
fn turn_on<N: Node>(alloc: Global, book: &mut Book<N>, command: Command) -> Result<Entry, NotTaken>
    ensures takes { Takes (rules N.laws N.PROBES book.old.scenario) (course_of book.old)
        command result (course_of book.new) }
    ensures scenario { book.new.scenario ≡ book.old.scenario }
    ensures within { IsWithin result
        (branch_in (branch_of command) (all_shown book.new.kept)).events }
    ensures from { (branch_in (branch_of command) (all_shown book.old.kept)).place
        ≤ length (branch_in (branch_of command) (all_shown book.new.kept)).events }
{
    book.laws();
    book.turn(alloc, SESSION, command)
}

impl Desk<'_> {
    /// Returns the names of the scenario, with this number of probes.
    pub(crate) fn known(&self, probes: u8) -> Known<'_> {
        Known {
            alloc: self.alloc,
            names: &self.opened.names,
            hosts: self.opened.scenario.hosts(),
            probes,
        }
    }

    // Returns the account of a turn on a branch, which was at the place `from`.
    fn account<N: Node<Meter: FreshMeter> + Debug>(
        &self,
        book: &Book<N>,
        branch: u32,
        from: u32,
        turn: &Result<Entry, NotTaken>,
    ) -> Result<Account, NoMemory>
    where
        N::Msg: Debug,
        requires to { IsWithin turn.now (branch_in branch (all_shown book.now.kept)).events }
        requires from { from ≤ length (branch_in branch (all_shown book.now.kept)).events }
        ensures { IfOk result (λ a. Accounts (rules N.laws N.PROBES book.now.scenario) from
            (branch_in branch (all_shown book.now.kept)).events turn.now a.told.items) }
    {
        let mut said = String::new(self.alloc);
        match turn {
            Ok(entry) => match &entry.reply {
                Reply::Moved { place, .. } => {
                    let names = &self.opened.names;
                    return account_of(self.alloc, names, book, branch, from, *place);
                }
                Reply::Refused(why) => self.tell_refusal(book, branch, *why, &mut said)?,
                Reply::Made(_) | Reply::Dropped(_) | Reply::Seen { .. } | Reply::Frozen(_) => {}
            },
            Err(why) => tell_not_taken(*why, &mut said)?,
        }
        Ok(Account::of_words(self.alloc, said))
    }

    // Appends why a command was refused on a branch, which did not change it, and if there is no
    // such watch, which there are.
    fn tell_refusal<N: Node>(
        &self,
        book: &Book<N>,
        branch: u32,
        why: Refusal,
        said: &mut String,
    ) -> Result<(), NoMemory> {
        let (place, kept) = (place_of(book, branch), kept_of(self.alloc, book, branch)?);
        self.known(N::PROBES)
            .tell_refusal_at(why, place, kept, said)?;
        match why {
            Refusal::UnknownWatch => tell_watches(book, branch, said),
            _ => Ok(()),
        }
    }

    // Returns the answer if no place was found.
    fn answer_nowhere(&self, probes: u8, error: SeekError) -> Result<Answer, NoMemory>
        ensures { IfOk result (λ a. a.reply.items ≡ []) }
    {
        let mut said = String::new(self.alloc);
        match error {
            SeekError::Nowhere(why) => writeln!(&mut said, "{why}")?,
            SeekError::Refused(why) => self.known(probes).tell_refusal(why, &mut said)?,
            SeekError::NoMemory => said.push_str("there was not enough memory\n")?,
        }
        Ok(Answer::of_words(self.alloc, said))
    }

    // Returns the line that replies to a turn.
    fn reply_to(&self, turn: &Result<Entry, NotTaken>) -> Result<Vec<u8>, NoMemory>
        ensures { IfOk result (λ reply. reply.items
            ≡ turn_line self.now.opened.now.names turn.now) }
    {
        let mut reply = Vec::new(self.alloc);
        tell_turn(self.alloc, &mut reply, &self.opened.names, turn)?;
        Ok(reply)
    }

    // Carries out a command.
    fn take<N: Node<Meter: FreshMeter> + Debug>(
        &self,
        book: &mut Book<N>,
        command: Command,
    ) -> Result<Answer, NoMemory>
    where
        N::Msg: Debug,
        ensures turn { TakesTurn (rules N.laws N.PROBES book.old.scenario)
            self.now.opened.now.names (course_of book.old) command result (course_of book.new) }
        ensures scenario { book.new.scenario ≡ book.old.scenario }
    {
        let number = command.branch();
        let from = place_of(book, number);
        let turn = turn_on(self.alloc, book, command);
        let reply = self.reply_to(&turn)?;
        let account = self.account(book, number, from, &turn)?;
        Ok(Answer { reply, account })
    }

    // Returns why a place cannot be sought, or `None` if it can.
    fn refusal(&self, probes: u8, sought: &Sought) -> Option<Refusal> {
        let hosts = self.opened.scenario.hosts();
        match sought {
            Sought::First(cond) | Sought::Held(cond) => match cond.get().check(hosts, probes) {
                Ok(()) => None,
                Err(BadTerm::UnknownHost) => Some(Refusal::UnknownHost),
                Err(_) => Some(Refusal::BadCondition),
            },
            Sought::Last(host) if hosts <= *host => Some(Refusal::UnknownHost),
            Sought::At(_) | Sought::Cause | Sought::Last(_) => None,
        }
    }

    // Returns the place that `sought` describes, from that of the branch.
    fn find<N: Node<Meter: FreshMeter> + Debug>(
        &self,
        book: &Book<N>,
        branch: u32,
        sought: &Sought,
    ) -> Result<u32, SeekError>
    where
        N::Msg: Debug,
        ensures { IfOk result (IsPlaceFor (rules N.laws N.PROBES book.now.scenario)
            (branch_in branch (all_shown book.now.kept)) sought.now) }
    {
        if let Some(why) = self.refusal(N::PROBES, sought) {
            return Err(SeekError::Refused(why));
        }
        let Some(run) = Run::of(self.alloc, &self.opened.names, book, branch)? else {
            return Err(SeekError::Refused(Refusal::UnknownBranch));
        };
        let here = place_of(book, branch);
        seek(self.alloc, &run, here, sought)
    }

    // Appends which terms of the condition that was sought fail at the place.
    fn tell_found<N: Node>(
        &self,
        book: &Book<N>,
        branch: u32,
        sought: &Sought,
        said: &mut String,
    ) -> Result<(), NoMemory> {
        if let (Sought::First(cond), Some(world)) = (sought, book.here(branch)) {
            tell_failing(&self.opened.names, world, cond.get(), said)?;
        }
        Ok(())
    }

    // Goes to a place of a branch that was sought and found.
    fn go_to<N: Node<Meter: FreshMeter> + Debug>(
        &self,
        book: &mut Book<N>,
        branch: u32,
        place: u32,
        sought: &Sought,
    ) -> Result<Answer, NoMemory>
    where
        N::Msg: Debug,
        ensures turn { TakesTurn (rules N.laws N.PROBES book.old.scenario)
            self.now.opened.now.names (course_of book.old) (Command.Goto branch place) result
            (course_of book.new) }
        ensures scenario { book.new.scenario ≡ book.old.scenario }
    {
        let mut answer = self.take(book, Command::Goto(branch, place))?;
        self.tell_found(book, branch, sought, &mut answer.account.said)?;
        Ok(answer)
    }

    // Finds a place, and goes there.
    fn look_for<N: Node<Meter: FreshMeter> + Debug>(
        &self,
        book: &mut Book<N>,
        branch: u32,
        sought: &Sought,
    ) -> Result<Answer, NoMemory>
    where
        N::Msg: Debug,
        ensures looks { Walks (rules N.laws N.PROBES book.old.scenario)
            self.now.opened.now.names (course_of book.old) branch (Order.Sought sought.now) result
            (course_of book.new) }
        ensures scenario { book.new.scenario ≡ book.old.scenario }
    {
        match self.find(book, branch, sought) {
            Ok(place) => self.go_to(book, branch, place, sought),
            Err(error) => self.answer_nowhere(N::PROBES, error),
        }
    }

    // Appends the input that leads to a place of a run.
    fn tell_script<N: Node<Meter: FreshMeter> + Debug>(
        &self,
        run: &Run<'_, N>,
        place: u32,
        said: &mut String,
    ) -> Result<(), NoMemory>
    where
        N::Msg: Debug,
    {
        let events = events_before(self.alloc, run.frozen.events(), place)?;
        let text = str::from_utf8(self.opened.text.as_slice()).unwrap_or("");
        match input_of(self.alloc, text, &self.opened.names, events.as_slice()) {
            Ok(input) => said.push_str(input.as_str()),
            Err(InputError::NoInput) => {
                said.push_str("there is none: no line makes the clock move alone, as `tick` does\n")
            }
            Err(InputError::NoMemory) => said.push_str("there was not enough memory\n"),
        }
    }

    // Appends what is present at the place of a branch.
    fn tell_sight<N: Node<Meter: FreshMeter> + Debug>(
        &self,
        sight: &Sight<'_, N>,
        shown: &Shown,
        said: &mut String,
    ) -> Result<(), NoMemory>
    where
        N::Msg: Debug,
    {
        let known = self.known(N::PROBES);
        match shown {
            Shown::Host(host) | Shown::Disk(host) if *host >= known.hosts => {
                known.tell_refusal(Refusal::UnknownHost, said)
            }
            Shown::Host(host) => sight.tell_host(*host, said),
            Shown::Disk(host) => sight.tell_disk(*host, said),
            Shown::Links => sight.tell_links(said),
            _ => sight.tell_pending(None, said),
        }
    }

    // Appends what `shown` asks for about a branch.
    fn tell_branch<N: Node<Meter: FreshMeter> + Debug>(
        &self,
        book: &Book<N>,
        branch: u32,
        shown: &Shown,
        said: &mut String,
    ) -> Result<(), NoMemory>
    where
        N::Msg: Debug,
    {
        let names = &self.opened.names;
        let Some(run) = Run::of(self.alloc, names, book, branch)? else {
            return self
                .known(N::PROBES)
                .tell_refusal(Refusal::UnknownBranch, said);
        };
        let place = place_of(book, branch);
        let tape = run.frozen.tape(self.alloc, place, &mut N::Meter::fresh())?;
        let sight = Sight {
            alloc: self.alloc,
            names,
            places: &run.places,
            world: tape.here(),
        };
        match shown {
            Shown::Event(asked) => run.tell_event(asked.unwrap_or(place), said),
            Shown::Log(from, to) => run.tell_log(*from, *to, said),
            Shown::Script => self.tell_script(&run, place, said),
            _ => self.tell_sight(&sight, shown, said),
        }
    }

    // Returns the answer to a request to show something of a branch.
    fn show<N: Node<Meter: FreshMeter> + Debug>(
        &self,
        book: &Book<N>,
        branch: u32,
        shown: &Shown,
    ) -> Result<Answer, NoMemory>
    where
        N::Msg: Debug,
        ensures { IfOk result (λ a. a.reply.items ≡ []) }
    {
        let mut said = String::new(self.alloc);
        match shown {
            Shown::Help(about) => tell_help(*about, &mut said)?,
            _ => self.tell_branch(book, branch, shown, &mut said)?,
        }
        Ok(Answer::of_words(self.alloc, said))
    }

    // Returns the answer that names the place of a branch.
    fn say_branch<N: Node<Meter: FreshMeter>>(
        &self,
        book: &Book<N>,
        branch: u32,
    ) -> Result<Answer, NoMemory>
        ensures { IfOk result (λ a. a.reply.items ≡ []) }
    {
        let mut said = String::new(self.alloc);
        match whereabouts(self.alloc, book, branch)? {
            Some((place, clock)) => {
                writeln!(&mut said, "branch {branch}, place {place}, clock {clock}")?
            }
            None => self
                .known(N::PROBES)
                .tell_refusal(Refusal::UnknownBranch, &mut said)?,
        }
        Ok(Answer::of_words(self.alloc, said))
    }

    /// Carries out an order on a book. Fails only for want of memory.
    pub(crate) fn answer<N: Node<Meter: FreshMeter> + Debug>(
        &self,
        book: &mut Book<N>,
        request: Request,
    ) -> Result<Answer, NoMemory>
    where
        N::Msg: Debug,
        ensures walks { Walks (rules N.laws N.PROBES book.old.scenario)
            self.now.opened.now.names (course_of book.old) request.branch
            request.order result (course_of book.new) }
        ensures scenario { book.new.scenario ≡ book.old.scenario }
    {
        let Request { branch, order } = request;
        match order {
            Order::Asked(command) => self.take(book, command),
            Order::Sought(sought) => self.look_for(book, branch, &sought),
            Order::Shown(shown) => self.show(book, branch, &shown),
            Order::Branch => self.say_branch(book, branch),
            Order::Nothing | Order::Quit => {
                Ok(Answer::of_words(self.alloc, String::new(self.alloc)))
            }
        }
    }
}
