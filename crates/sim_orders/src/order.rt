//! The requests that a line of a walk can make.
use crate::topic::{Kind, Topic, topic_of};
use sim_book::Command;
use sim_script::{Expected, LineMistake, Names, ScriptLine, line_of, mistake_of};
use sim_watch::{SharedCond, Sought};
use sim_world::Fault;
use std::alloc::{AllocError, Global};

/// What to show of a branch at its place.
#[derive(Drop)]
pub enum Shown {
    /// All pending occurrences.
    Pending,
    /// The state of this host.
    Host(u16),
    /// The disk of this host.
    Disk(u16),
    /// The links that are not open.
    Links,
    /// The event with this number, from 1, or the one that led to the place.
    Event(Option<u32>),
    /// The events from one number to another; without the first from event 1, without the second
    /// to the last one.
    Log(Option<u32>, Option<u32>),
    /// The input that leads to the place.
    Script,
    /// All commands, or one.
    Help(Option<&'static Topic>),
}

/// The request of a line.
#[derive(Drop)]
pub enum Order {
    /// A comment, or a line of spaces.
    Nothing,
    /// A line of a script.
    Asked(Command),
    /// Goes to a place that is found.
    Sought(Sought),
    /// Shows something.
    Shown(Shown),
    /// Makes this the branch of the lines that name none.
    Branch,
    /// Ends the walk.
    Quit,
}

/// The request of a line, and its branch.
#[derive(Drop)]
pub struct Request {
    /// The number of the branch.
    pub branch: u32,
    pub order: Order,
}

/// Why a line makes no request.
#[derive(Clone, Copy)]
pub enum OrderError {
    /// This word is not what is expected there.
    Mistake(LineMistake),
    /// The line is not UTF-8.
    NotText,
    /// Memory was wanted.
    NoMemory,
}

impl From<AllocError> for OrderError {
    ghost use Rattle.std.specs.Prelude.{◌≡◌};
    ghost use Rattle.sim_orders.specs.declared.order.OrderError.TheVariants as order;

    ghost from_gives = { λ _ e. e ≡ order.NoMemory };

    fn from(_error: AllocError) -> OrderError {
        OrderError::NoMemory
    }
}

// Returns the first word of a text, or an empty one, and the rest of the text.
fn first_word(text: &str) -> (&str, &str) {
    let text = text.trim_matches(' ');
    match text.split_once(' ') {
        Some((word, rest)) => (word, rest.trim_start_matches(' ')),
        None => (text, ""),
    }
}

// Reads the words that follow the name of a command.
#[derive(Drop)]
struct Reading<'a> {
    alloc: Global,
    names: &'a Names,
    // The branch of the line.
    branch: u32,
    // The number of words before the command.
    taken: u32,
}

impl Reading<'_> {
    // Returns the mistake at a word, counted from the command's own.
    fn mistake(&self, word: u32, expected: Expected) -> OrderError {
        let word = word.saturating_add(self.taken);
        OrderError::Mistake(LineMistake { word, expected })
    }

    // Returns the command of a line of a script that begins with these words.
    fn command(&self, begin: &str, rest: &str) -> Result<Command, OrderError> {
        let line = format!(in self.alloc; "{begin} {rest}")?;
        match line_of(self.names, line.as_bytes()) {
            ScriptLine::Asked(ask) => Ok(ask.into_command(self.alloc)?),
            ScriptLine::Nothing | ScriptLine::Bad => {
                match mistake_of(self.names, line.as_bytes()) {
                    Some(mistake) => Err(self.mistake(mistake.word, mistake.expected)),
                    None => Err(self.mistake(1, Expected::Command)),
                }
            }
        }
    }

    // Reads a line of a script, on the branch of the line.
    fn on_branch(&self, name: &str, rest: &str) -> Result<Order, OrderError> {
        let command = self.command(name, rest)?;
        if self.branch == 0 {
            return Ok(Order::Asked(command));
        }
        let branch = self.branch;
        let begin = format!(in self.alloc; "@{branch} {name}")?;
        Ok(Order::Asked(self.command(begin.as_str(), rest)?))
    }

    // Fails if any words are left.
    fn alone(&self, rest: &str) -> Result<(), OrderError> {
        let _step = self.command("step", rest)?;
        Ok(())
    }

    // Reads a number, and no more words.
    fn number(&self, rest: &str) -> Result<u32, OrderError> {
        match self.command("goto", rest)? {
            Command::Goto(_, number) => Ok(number),
            _ => Err(self.mistake(2, Expected::Number)),
        }
    }

    // Reads a host, and no more words.
    fn host(&self, rest: &str) -> Result<u16, OrderError> {
        match self.command("crash", rest)? {
            Command::Fault(_, Fault::Crash(host)) => Ok(host),
            _ => Err(self.mistake(2, Expected::Host)),
        }
    }

    // Reads a condition, and no more words.
    fn condition(&self, rest: &str) -> Result<SharedCond, OrderError> {
        match self.command("watch", rest)? {
            Command::Watch(_, cond) => Ok(cond),
            _ => Err(self.mistake(2, Expected::Term)),
        }
    }

    // Reads a number, if there is one.
    fn maybe_number(&self, rest: &str) -> Result<Option<u32>, OrderError> {
        if rest.is_empty() {
            return Ok(None);
        }
        Ok(Some(self.number(rest)?))
    }

    // Reads the range of a log.
    fn log(&self, rest: &str) -> Result<Order, OrderError> {
        let (first, rest) = first_word(rest);
        let from = self.maybe_number(first)?;
        let after = Reading {
            alloc: self.alloc,
            names: self.names,
            branch: self.branch,
            taken: self.taken.saturating_add(1),
        };
        let to = after.maybe_number(rest)?;
        Ok(Order::Shown(Shown::Log(from, to)))
    }

    // Reads the command to explain, if there is one.
    fn help(&self, rest: &str) -> Result<Order, OrderError> {
        if rest.is_empty() {
            return Ok(Order::Shown(Shown::Help(None)));
        }
        let (word, _rest) = first_word(rest);
        match topic_of(word) {
            Some(topic) => Ok(Order::Shown(Shown::Help(Some(topic)))),
            None => Err(self.mistake(2, Expected::Command)),
        }
    }

    // Reads the place to find.
    fn sought(&self, kind: Kind, rest: &str) -> Result<Order, OrderError> {
        let sought = match kind {
            Kind::At => Sought::At(self.number(rest)?),
            Kind::Last => Sought::Last(self.host(rest)?),
            Kind::First => Sought::First(self.condition(rest)?),
            Kind::Held => Sought::Held(self.condition(rest)?),
            _ => {
                self.alone(rest)?;
                Sought::Cause
            }
        };
        Ok(Order::Sought(sought))
    }

    // Reads a command without words: one that shows something, or the end of the walk.
    fn told_alone(&self, kind: Kind, rest: &str) -> Result<Order, OrderError> {
        self.alone(rest)?;
        Ok(match kind {
            Kind::Pending => Order::Shown(Shown::Pending),
            Kind::Links => Order::Shown(Shown::Links),
            Kind::Script => Order::Shown(Shown::Script),
            _ => Order::Quit,
        })
    }

    // Returns the order of a command, by its words.
    fn order(&self, topic: &Topic, rest: &str) -> Result<Order, OrderError> {
        match topic.kind {
            Kind::Line => self.on_branch(topic.name, rest),
            Kind::Count if rest.is_empty() => self.on_branch(topic.name, "1"),
            Kind::Count => self.on_branch(topic.name, rest),
            Kind::Host => Ok(Order::Shown(Shown::Host(self.host(rest)?))),
            Kind::Disk => Ok(Order::Shown(Shown::Disk(self.host(rest)?))),
            Kind::Event => Ok(Order::Shown(Shown::Event(self.maybe_number(rest)?))),
            Kind::Log => self.log(rest),
            Kind::Help => self.help(rest),
            Kind::At | Kind::Cause | Kind::Last | Kind::First | Kind::Held => {
                self.sought(topic.kind, rest)
            }
            Kind::Pending | Kind::Links | Kind::Script | Kind::Quit => {
                self.told_alone(topic.kind, rest)
            }
        }
    }

    // Returns the request of what follows a line's branch, on the branch of this reading. If no
    // word is left, it is `Branch` if the line named one, else `Nothing`.
    fn request(&self, text: &str) -> Result<Request, OrderError> {
        let (word, rest) = first_word(text);
        let branch = self.branch;
        if word.is_empty() {
            let order = match self.taken {
                0 => Order::Nothing,
                _ => Order::Branch,
            };
            return Ok(Request { branch, order });
        }
        let Some(topic) = topic_of(word) else {
            return Err(self.mistake(1, Expected::Command));
        };
        let order = self.order(topic, rest)?;
        Ok(Request { branch, order })
    }
}

/// Returns the request of a line, without its end. If the line names no branch, it is for `branch`.
/// Fails with the first word that is wrong, if the line is not UTF-8, or for want of memory. Hosts
/// and probes of conditions are not looked up here.
pub fn order_of(
    alloc: Global,
    names: &Names,
    branch: u32,
    line: &[u8],
) -> Result<Request, OrderError> {
    if let [b'#', ..] = line {
        let order = Order::Nothing;
        return Ok(Request { branch, order });
    }
    let Ok(text) = str::from_utf8(line) else {
        return Err(OrderError::NotText);
    };
    let reading = Reading {
        alloc,
        names,
        branch,
        taken: 0,
    };
    let (word, rest) = first_word(text);
    let Some(digits) = word.strip_prefix('@') else {
        return reading.request(text);
    };
    let branch = match reading.number(digits) {
        Ok(branch) => branch,
        Err(OrderError::NoMemory) => return Err(OrderError::NoMemory),
        Err(_) => return Err(reading.mistake(1, Expected::Branch)),
    };
    let after = Reading {
        alloc,
        names,
        branch,
        taken: 1,
    };
    after.request(rest)
}
