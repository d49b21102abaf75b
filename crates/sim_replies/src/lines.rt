//! The lines that answer turns.
ghost use Rattle.std.specs.Prelude.{◌≡◌, ℕ, ◌+◌, ◌≤◌, List, ◌∷◌, ◌++◌, OnOk};
ghost use Rattle.sim_answers.specs.Lines.{line, move_words, reply_words, spaced, stop_words};
ghost use Rattle.sim_answers.specs.Lines.{turn_line};

use crate::ending::Ending;
use crate::named::{not_taken_name, refusal_name};
use crate::trace::tell_trace;
use crate::view::tell_view;
use sim_book::{Entry, NotTaken, Reply, Stop};
use sim_script::Names;
use std::alloc::{AllocError, Global};

/// Puts the reason why a branch stopped before the end of a line.
fn put_stop(end: &mut Ending, stop: Stop)
    requires { 40 ≤ end.old.room }
    ensures text { (word : List ℕ) → word ++ end.new.text ≡ spaced (word ∷ stop_words stop)
        ++ end.old.text }
    ensures room { end.old.room ≤ end.new.room + 40 }
{
    match stop {
        Stop::Asked => {}
        Stop::AllDone => end.put(" all done"),
        Stop::Idle => end.put(" idle"),
        Stop::Watch(watch) => end.put_field(" watch ", u64::from(watch)),
        Stop::Full => end.put(" full"),
        Stop::Long => end.put(" long"),
    }
}

/// Puts the place and the clock after a command, and why it stopped there, before the end of a
/// line.
fn put_move(end: &mut Ending, place: u32, clock: u64, stop: Stop)
    requires { 100 ≤ end.old.room }
    ensures { end.new.text ≡ move_words place clock stop ++ end.old.text }
{
    put_stop(end, stop);
    end.put_field(" clock ", clock);
    end.put_field("place ", u64::from(place));
}

/// Adds the line that answers a command on a branch.
fn tell_reply(
    alloc: Global,
    text: &mut Vec<u8>,
    names: &Names,
    branch: u32,
    reply: &Reply,
) -> Result<(), AllocError>
    ensures { OnOk result (text.new.items ≡ text.old.items
        ++ line (reply_words names.now branch reply.now)) }
{
    let mut end = Ending::of("\n");
    match reply {
        Reply::Moved { place, clock, stop } => put_move(&mut end, *place, *clock, *stop),
        Reply::Made(number) => end.put_field("made ", u64::from(*number)),
        Reply::Dropped(watch) => end.put_field("dropped ", u64::from(*watch)),
        Reply::Seen { place, view } => tell_view(text, &mut end, names, *place, *view)?,
        Reply::Frozen(events) => tell_trace(alloc, text, names, branch, events)?,
        Reply::Refused(refusal) => {
            end.put(refusal_name(*refusal));
            end.put("refused ");
        }
    }
    text.extend_from_slice(end.as_bytes())
}

/// Writes the line that answers a turn, in place of `text`. Takes memory only if `text` has too
/// little room for the line, and for the line of a branch's kept events. If memory is refused, the
/// content of `text` is unspecified.
pub fn tell_turn(
    alloc: Global,
    text: &mut Vec<u8>,
    names: &Names,
    turn: &Result<Entry, NotTaken>,
) -> Result<(), AllocError>
    ensures { OnOk result (text.new.items ≡ turn_line names.now turn.now) }
{
    text.clear();
    match turn {
        Ok(entry) => tell_reply(alloc, text, names, entry.command.branch(), &entry.reply),
        Err(why) => {
            text.extend_from_slice(not_taken_name(*why).as_bytes())?;
            text.extend_from_slice(b"\n")
        }
    }
}
