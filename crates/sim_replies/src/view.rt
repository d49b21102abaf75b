//! A view of a place, in words.
ghost use Rattle.std.specs.Prelude.{◌≡◌, ℕ, ◌+◌, ◌≤◌, List, [], ◌∷◌, ◌++◌, codes, OnOk};
ghost use Rattle.sim_answers.specs.Lines.{field, next_words, spaced, up_word, value_word};
ghost use Rattle.sim_answers.specs.Lines.{view_words, yes_word};

use crate::ending::Ending;
use crate::named::{kind_name, state_name, up_name, yes_name};
use sim_script::Names;
use sim_world::{Coming, View};
use std::alloc::AllocError;

/// Writes the first pending occurrence, or that there is none: adds names to `text`, and puts the
/// words after them before `end`.
fn tell_next(
    text: &mut Vec<u8>,
    end: &mut Ending,
    names: &Names,
    next: Option<Coming>,
) -> Result<(), AllocError>
    requires { 191 ≤ end.old.room }
    ensures { OnOk result (text.new.items ++ end.new.text ≡ text.old.items
        ++ (next_words names.now next ++ end.old.text)) }
{
    match next {
        None => {
            end.put("none");
            Ok(())
        }
        Some(coming) => {
            let mut front = Ending::of(" host ");
            front.put_field(" serial ", coming.serial);
            front.put_field("due ", coming.due);
            text.extend_from_slice(front.as_bytes())?;
            end.put(kind_name(coming.kind));
            end.put(" ");
            text.extend_from_slice(names.host_name(coming.host).as_bytes())
        }
    }
}

/// Puts the value of a probe before the end, or that its host is down.
fn put_value(end: &mut Ending, value: Option<u64>)
    requires { 20 ≤ end.old.room }
    ensures text { end.new.text ≡ value_word value ++ end.old.text }
    ensures room { end.old.room ≤ end.new.room + 20 }
{
    match value {
        None => end.put("down"),
        Some(value) => end.put_number(value),
    }
}

/// The numbers of words drawn for the network and for torn writes, of pending occurrences and of
/// held messages.
#[derive(Clone, Copy)]
struct Counts {
    net: u64,
    torn: u64,
    pending: u32,
    held: u32,
}

/// Puts, before the end, the place, the clock, the next serial and the counts there.
fn put_summary(end: &mut Ending, place: u32, clock: u64, serial: u64, counts: Counts)
    requires { 191 ≤ end.old.room }
    ensures { end.new.text ≡ spaced (field (codes "place") place ∷ field (codes "clock") clock
        ∷ field (codes "serial") serial ∷ field (codes "net") counts.net
        ∷ field (codes "torn") counts.torn ∷ field (codes "pending") counts.pending
        ∷ field (codes "held") counts.held ∷ []) ++ end.old.text }
{
    end.put_field(" held ", u64::from(counts.held));
    end.put_field(" pending ", u64::from(counts.pending));
    end.put_field(" torn ", counts.torn);
    end.put_field(" net ", counts.net);
    end.put_field(" serial ", serial);
    end.put_field(" clock ", clock);
    end.put_field("place ", u64::from(place));
}

/// Puts the view of a host before the end, without its name.
fn put_host(end: &mut Ending, up: bool, done: bool, draws: u64, stable: u32, unsynced: u32)
    requires { 191 ≤ end.old.room }
    ensures { (name : List ℕ) → name ++ end.new.text ≡ spaced
        (name ∷ up_word up ∷ codes "done" ∷ yes_word done ∷ field (codes "draws") draws
        ∷ field (codes "stable") stable ∷ field (codes "unsynced") unsynced ∷ []) ++ end.old.text }
{
    end.put_field(" unsynced ", u64::from(unsynced));
    end.put_field(" stable ", u64::from(stable));
    end.put_field(" draws ", draws);
    end.put(yes_name(done));
    end.put(" done ");
    end.put(up_name(up));
    end.put(" ");
}

/// Adds two names to a text, with a space after the first.
fn add_names(text: &mut Vec<u8>, first: &str, second: &str) -> Result<(), AllocError>
    ensures { OnOk result (text.new.items ≡ text.old.items
        ++ spaced (first.now ∷ second.now ∷ [])) }
{
    text.extend_from_slice(first.as_bytes())?;
    text.push(b' ')?;
    text.extend_from_slice(second.as_bytes())
}

/// Writes the view of a place: adds names to `text`, and puts the words after them before `end`.
pub fn tell_view(
    text: &mut Vec<u8>,
    end: &mut Ending,
    names: &Names,
    place: u32,
    view: View,
) -> Result<(), AllocError>
    requires { 191 ≤ end.old.room }
    ensures { OnOk result (text.new.items ++ end.new.text ≡ text.old.items
        ++ (view_words names.now place view ++ end.old.text)) }
{
    match view {
        View::Summary {
            clock,
            serial,
            net,
            torn,
            pending,
            held,
        } => {
            let counts = Counts {
                net,
                torn,
                pending,
                held,
            };
            put_summary(end, place, clock, serial, counts);
            Ok(())
        }
        View::Next(next) => tell_next(text, end, names, next),
        View::HostView {
            host,
            up,
            done,
            draws,
            stable,
            unsynced,
        } => {
            put_host(end, up, done, draws, stable, unsynced);
            text.extend_from_slice(names.host_name(host).as_bytes())
        }
        View::Link {
            a,
            b,
            state,
            messages,
        } => {
            end.put_field(" messages ", u64::from(messages));
            end.put(state_name(state));
            end.put(" ");
            add_names(text, names.host_name(a), names.host_name(b))
        }
        View::Probe { host, probe, value } => {
            put_value(end, value);
            end.put(" ");
            add_names(text, names.host_name(host), names.probe_name(probe))
        }
    }
}
