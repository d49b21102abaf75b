//! What an event does, in words.
use crate::places::Places;
use crate::told::{LinkFault, Told, host_fault};
use sim_account::Fate;
use sim_disk::Disk;
use sim_links::{Change, LinkState};
use sim_node::{Effect, Input, Node};
use sim_script::Names;
use sim_world::{Event, Fault, Occurrence};
use std::fmt;

/// Shows an event in words: what happened, and which effects it had. docs/LOG.md has every form.
#[derive(Drop)]
pub struct Line<'a, N: Node> {
    pub names: &'a Names,
    pub places: &'a Places,
    pub told: &'a Told<'a, N>,
}

// Separates the parts of a line: a colon before the first, semicolons before the others.
#[derive(Clone, Copy)]
struct Parts {
    are_begun: bool,
}

impl Parts {
    // Returns the mark before the next part.
    fn mark(&mut self) -> &'static str {
        let mark = if self.are_begun { "; " } else { ": " };
        self.are_begun = true;
        mark
    }
}

// The end of a part: words, the event of a place in brackets after a word, when it is due.
#[derive(Clone, Copy)]
enum End {
    Words(&'static str),
    At(&'static str, u32),
    Due(u64),
    DueAt(u64, u32),
}

impl End {
    // Returns the end that names the event of a place, if there is one.
    fn at(word: &'static str, place: Option<u32>) -> End {
        match place {
            Some(place) => End::At(word, place),
            None => End::Words(""),
        }
    }
}

impl fmt::Display for End {
    fn fmt<W: fmt::Write>(&self, f: &mut fmt::Formatter<W>) -> fmt::Result {
        match *self {
            End::Words(words) => f.write_str(words),
            End::At(word, place) => write!(f, " ({word} {place})"),
            End::Due(due) => write!(f, ", due {due}"),
            End::DueAt(due, place) => write!(f, ", due {due} (arrives at {place})"),
        }
    }
}

// The words around a message, and the host that they end with.
#[derive(Clone, Copy)]
struct Around<'a> {
    verb: &'static str,
    way: &'static str,
    host: &'a str,
}

// Writes what happens to a message, after a host or a mark.
fn write_message<M: fmt::Debug, W: fmt::Write>(
    f: &mut fmt::Formatter<W>,
    before: &str,
    around: Around<'_>,
    msg: &M,
    end: End,
) -> fmt::Result {
    let Around { verb, way, host } = around;
    write!(f, "{before}{verb}{msg:?}{way}{host}{end}")
}

// Writes how much a crash keeps of an unstable write.
fn write_tear<W: fmt::Write>(
    f: &mut fmt::Formatter<W>,
    mark: &str,
    kept: u32,
    (offset, bytes): (u32, &[u8]),
) -> fmt::Result {
    let len = bytes.len();
    let verb = match kept {
        0 => "drops",
        kept if kept as usize == len => "keeps",
        kept => return write!(f, "{mark}keeps {kept} of {len} bytes at {offset}"),
    };
    write!(f, "{mark}{verb} {len} bytes at {offset}")
}

impl<N: Node> Line<'_, N>
where
    N::Msg: fmt::Debug,
{
    // Writes the first pending occurrence, which a step makes happen.
    fn write_step<W: fmt::Write>(&self, f: &mut fmt::Formatter<W>) -> fmt::Result {
        let Some((_due, serial, occurrence)) = self.told.world.first() else {
            return Ok(());
        };
        self.write_occurrence(f, occurrence, self.places.queued_by(serial))?;
        let Some(reaction) = &self.told.reaction else {
            return f.write_str(": it is stopped, and the message is dropped");
        };
        let mut parts = Parts { are_begun: false };
        for told in reaction.effects() {
            self.write_effect(f, parts.mark(), told.effect(), told.fate())?;
        }
        Ok(())
    }

    // Writes an occurrence, and the event that queued it.
    fn write_occurrence<W: fmt::Write>(
        &self,
        f: &mut fmt::Formatter<W>,
        occurrence: &Occurrence<N::Msg>,
        from: Option<u32>,
    ) -> fmt::Result {
        let host = self.names.host_name(occurrence.host());
        let (words, end) = match occurrence.input() {
            Input::Start => (" starts", End::Words("")),
            Input::Timer => ("'s timer ends", End::at("set at", from)),
            Input::Synced => {
                let count = occurrence.sync_count().unwrap_or(0);
                let end = End::at("asked at", from);
                return write!(f, "{host}'s sync of {count} is done{end}");
            }
            Input::Message { sender, msg } => {
                let around = Around {
                    verb: " gets ",
                    way: " from ",
                    host: self.names.host_name(*sender),
                };
                let end = End::at(sent_word(self.places, from), from);
                return write_message(f, host, around, msg, end);
            }
        };
        write!(f, "{host}{words}{end}")
    }

    fn write_effect<W: fmt::Write>(
        &self,
        f: &mut fmt::Formatter<W>,
        mark: &str,
        effect: &Effect<N::Msg>,
        fate: Fate,
    ) -> fmt::Result {
        let words = match effect {
            Effect::Send { to, msg } => {
                let around = Around {
                    verb: "sends ",
                    way: " to ",
                    host: self.names.host_name(*to),
                };
                return write_message(f, mark, around, msg, end_of(self.places, fate));
            }
            Effect::Write { offset, len, .. } => {
                let words = write_words(fate);
                return write!(f, "{mark}{words} {len} bytes at {offset}");
            }
            Effect::Done => return write!(f, "{mark}is done"),
            Effect::Timer(_) => "timer",
            Effect::Sync => "asks for a sync, due",
        };
        write!(f, "{mark}{words} {}", due_of(fate))
    }

    fn write_fault<W: fmt::Write>(&self, f: &mut fmt::Formatter<W>, fault: Fault) -> fmt::Result {
        if let Some((word, host)) = host_fault(fault) {
            return self.write_crash(f, word, host);
        }
        match LinkFault::of(fault) {
            Some(fault) => self.write_links(f, fault),
            None => Ok(()),
        }
    }

    // Writes the crash or the bounce of a host.
    fn write_crash<W: fmt::Write>(
        &self,
        f: &mut fmt::Formatter<W>,
        word: &str,
        host: u16,
    ) -> fmt::Result {
        write!(f, "{word} {}", self.names.host_name(host))?;
        if host >= self.told.world.hosts() {
            return Ok(());
        }
        let mut parts = Parts { are_begun: false };
        self.write_tears(f, &mut parts, self.told.world.disk(host))?;
        self.write_lost(f, &mut parts)
    }

    // Writes how much a crash keeps of each unstable write.
    fn write_tears<W: fmt::Write>(
        &self,
        f: &mut fmt::Formatter<W>,
        parts: &mut Parts,
        disk: &Disk,
    ) -> fmt::Result {
        let tears = self.told.tears.as_slice();
        for place in 0..disk.unsynced() {
            let Some(kept) = tears.get(place as usize) else {
                return Ok(());
            };
            write_tear(f, parts.mark(), *kept, disk.write_at(place))?;
        }
        Ok(())
    }

    // Writes which occurrences a crash takes out.
    fn write_lost<W: fmt::Write>(
        &self,
        f: &mut fmt::Formatter<W>,
        parts: &mut Parts,
    ) -> fmt::Result {
        for serial in self.told.lost.as_slice() {
            if let Some((due, occurrence)) = self.told.world.pending(*serial) {
                let (mark, kind) = (parts.mark(), kind_of(occurrence));
                write!(f, "{mark}loses its {kind}, due {due}")?;
            }
        }
        Ok(())
    }

    fn write_links<W: fmt::Write>(
        &self,
        f: &mut fmt::Formatter<W>,
        fault: LinkFault,
    ) -> fmt::Result {
        let LinkFault { word, from, to, .. } = fault;
        let names = (self.names.host_name(from), self.names.host_name(to));
        write!(f, "{word} {} {}", names.0, names.1)?;
        let mut parts = Parts { are_begun: false };
        let mut serial = self.told.world.next_serial();
        self.write_direction(f, &mut parts, (from, to), fault.change, &mut serial)?;
        if fault.is_both {
            self.write_direction(f, &mut parts, (to, from), fault.change, &mut serial)?;
        }
        Ok(())
    }

    // Writes the messages that a change of a direction delivers or drops. `serial` is that of the
    // next one that is delivered.
    fn write_direction<W: fmt::Write>(
        &self,
        f: &mut fmt::Formatter<W>,
        parts: &mut Parts,
        (from, to): (u16, u16),
        change: Change,
        serial: &mut u64,
    ) -> fmt::Result {
        if from >= 32 || to >= 32 {
            return Ok(());
        }
        let host = self.names.host_name(to);
        let (around, is_let_go) = match self.told.world.link(from, to).after(change) {
            LinkState::Held => return Ok(()),
            LinkState::Through => (
                Around {
                    verb: "lets ",
                    way: " go to ",
                    host,
                },
                true,
            ),
            LinkState::Cut => (
                Around {
                    verb: "drops ",
                    way: " to ",
                    host,
                },
                false,
            ),
        };
        for msg in self.told.world.held(from, to) {
            let mut end = End::Words("");
            if is_let_go {
                end = End::at("arrives at", self.places.step_of(*serial));
                *serial = serial.saturating_add(1);
            }
            write_message(f, parts.mark(), around, msg, end)?;
        }
        Ok(())
    }
}

// Returns the word before the event that queued a message.
fn sent_word(places: &Places, from: Option<u32>) -> &'static str {
    match from {
        Some(place) if !places.is_step(place) => "let go at",
        _ => "sent at",
    }
}

// Returns what becomes of a message that is sent.
fn end_of(places: &Places, fate: Fate) -> End {
    match fate {
        Fate::Pending { due, serial } => match places.step_of(serial) {
            Some(place) => End::DueAt(due, place),
            None => End::Due(due),
        },
        Fate::Lost => End::Words(", lost"),
        Fate::Held => End::Words(", held"),
        Fate::Cut => End::Words(", cut"),
        Fate::Full => End::Words(", dropped"),
        Fate::Added | Fate::Skipped | Fate::Asked { .. } | Fate::Done => End::Words(""),
    }
}

// Returns the words for a write, by what becomes of it.
fn write_words(fate: Fate) -> &'static str {
    match fate {
        Fate::Skipped => "skips a write of",
        _ => "writes",
    }
}

// Returns when an effect is due (ms), or 0 for a fate that waits for nothing.
fn due_of(fate: Fate) -> u64 {
    match fate {
        Fate::Pending { due, .. } | Fate::Asked { due, .. } => due,
        _ => 0,
    }
}

// Returns the kind of an occurrence in a word.
fn kind_of<M>(occurrence: &Occurrence<M>) -> &'static str {
    match occurrence.input() {
        Input::Start => "start",
        Input::Timer => "timer",
        Input::Synced => "sync",
        Input::Message { .. } => "message",
    }
}

impl<N: Node> fmt::Display for Line<'_, N>
where
    N::Msg: fmt::Debug,
{
    fn fmt<W: fmt::Write>(&self, f: &mut fmt::Formatter<W>) -> fmt::Result {
        match self.told.event {
            Event::Step => self.write_step(f),
            Event::Advance(_) => f.write_str("the clock goes on"),
            Event::Fault(fault) => self.write_fault(f, fault),
        }
    }
}
