//! The words of a reply's parts.
ghost use Rattle.std.specs.Prelude.{◌≡◌};
ghost use Rattle.sim_answers.specs.Lines.{refusal_words, not_taken_words, state_word, kind_word};
ghost use Rattle.sim_answers.specs.Lines.{up_word, yes_word};

use sim_book::{NotTaken, Refusal};
use sim_links::LinkState;
use sim_world::Kind;

/// Returns the number and name of a refusal.
pub fn refusal_name(refusal: Refusal) -> &'static str
    ensures { result.now ≡ refusal_words refusal }
{
    match refusal {
        Refusal::UnknownBranch => "1 UnknownBranch",
        Refusal::UnknownHost => "2 UnknownHost",
        Refusal::SameHost => "3 SameHost",
        Refusal::NotAtEnd => "4 NotAtEnd",
        Refusal::TooFar => "5 TooFar",
        Refusal::EventsFull => "6 EventsFull",
        Refusal::Idle => "7 Idle",
        Refusal::BranchesFull => "8 BranchesFull",
        Refusal::WatchesFull => "9 WatchesFull",
        Refusal::UnknownWatch => "10 UnknownWatch",
        Refusal::BadCondition => "11 BadCondition",
        Refusal::NoMemory => "12 NoMemory",
    }
}

/// Returns why a command was not taken, in words.
pub fn not_taken_name(why: NotTaken) -> &'static str
    ensures { result.now ≡ not_taken_words why }
{
    match why {
        NotTaken::HistoryFull => "not taken HistoryFull",
        NotTaken::NoMemory => "not taken NoMemory",
    }
}

/// Returns the word of a link's state.
pub fn state_name(state: LinkState) -> &'static str
    ensures { result.now ≡ state_word state }
{
    match state {
        LinkState::Through => "open",
        LinkState::Held => "held",
        LinkState::Cut => "cut",
    }
}

/// Returns the word of an occurrence's kind.
pub fn kind_name(kind: Kind) -> &'static str
    ensures { result.now ≡ kind_word kind }
{
    match kind {
        Kind::Start => "start",
        Kind::Timer => "timer",
        Kind::Message => "message",
        Kind::Sync => "sync",
    }
}

pub fn up_name(up: bool) -> &'static str
    ensures { result.now ≡ up_word up }
{
    if up { "up" } else { "down" }
}

pub fn yes_name(yes: bool) -> &'static str
    ensures { result.now ≡ yes_word yes }
{
    if yes { "yes" } else { "no" }
}
