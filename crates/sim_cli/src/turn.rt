//! Takes the turn that a line of a script asks for.
ghost use Rattle.std.specs.Prelude.{◌≡◌};
ghost use Rattle.sim_world.specs.Events.{rules};
ghost use Rattle.sim_cli.specs.Turns.{Takes, course_of};

use sim_book::{Book, Entry, NotTaken};
use sim_node::Node;
use sim_script::Ask;
use std::alloc::Global;

/// The session of a play.
const SESSION: u8 = 0;

/// Takes the turn that a line asks for. If there is no memory for its condition, the turn is not
/// taken.
pub fn turn_of<N: Node>(alloc: Global, book: &mut Book<N>, ask: Ask<'_>) -> Result<Entry, NotTaken>
    ensures takes { Takes (rules N.laws N.PROBES book.old.scenario) (course_of book.old) ask.entry
        result (course_of book.new) }
    ensures scenario { book.new.scenario ≡ book.old.scenario }
{
    match ask.into_command(alloc) {
        Ok(command) => book.turn(alloc, SESSION, command),
        Err(_) => {
            if book.is_full() {
                Err(NotTaken::HistoryFull)
            } else {
                Err(NotTaken::NoMemory)
            }
        }
    }
}
