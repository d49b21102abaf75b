//! Why a line of a script is bad.
ghost use Rattle.std.specs.Prelude.{◌≡◌, ◌+◌, ◌≤◌, ◌<◌, ◌↔◌, length, IfOk, IfErr, IfSome, IsSome};
ghost use Rattle.std.specs.Prelude.{None};
ghost use Rattle.sim_script.specs.Words.{words};
ghost use Rattle.sim_script.specs.Conditions.{condition};
ghost use Rattle.sim_script.specs.Script.{script_line};
ghost use Rattle.sim_script.specs.Mistakes.{IsBetween, total};

use crate::condition::{
    MAX_DIGITS as MAX_TERM_DIGITS, MAX_TERMS, begins_after, condition_of, parse_op, parse_probe,
    parse_value,
};
use crate::names::Names;
use crate::script::{MAX_DIGITS, MAX_LINE, Numbered, ScriptLine, line_of, link_fault};
use crate::words::{is_keyword, next_word, parse_number};
use std::fmt;

/// What was expected at a word of a line.
#[derive(Clone, Copy, Debug, PartialEq, Eq)]
pub enum Expected {
    /// `@` and the number of a branch.
    Branch,
    /// The first word of a command.
    Command,
    /// A number of 1 to 9 digits.
    Number,
    /// The name of a host.
    Host,
    /// The name of a probe.
    Probe,
    /// A query: `next`, `host`, `link` or `probe`.
    View,
    /// The first word of a term of a condition.
    Term,
    /// `up` or `done`.
    State,
    /// The word `unless`.
    Unless,
    /// The word `unless` or `by`.
    UnlessOrBy,
    /// An operator, such as `<=`.
    Operator,
    /// A number of 1 to 19 digits, or the probe of a host.
    Value,
    /// A number of 1 to 19 digits.
    Bound,
    /// `and`, `or`, or the end of the line.
    Joint,
    /// The end of the line.
    End,
    /// A line of at most 256 bytes.
    ShorterLine,
}

impl fmt::Display for Expected {
    fn fmt<W: fmt::Write>(&self, f: &mut fmt::Formatter<W>) -> fmt::Result {
        let what = match self {
            Expected::Branch => "`@` and the number of a branch",
            Expected::Command => "a command",
            Expected::Number => "a number of 1 to 9 digits",
            Expected::Host => "the name of a host",
            Expected::Probe => "the name of a probe",
            Expected::View => "`next`, `host`, `link` or `probe`",
            Expected::Term => "a term of a condition",
            Expected::State => "`up` or `done`",
            Expected::Unless => "`unless`",
            Expected::UnlessOrBy => "`unless` or `by`",
            Expected::Operator => "`<`, `<=`, `=`, `!=`, `>=` or `>`",
            Expected::Value => "a number of 1 to 19 digits or HOST.PROBE",
            Expected::Bound => "a number of 1 to 19 digits",
            Expected::Joint => "`and`, `or` or the end of the line",
            Expected::End => "the end of the line",
            Expected::ShorterLine => "at most 256 bytes in the line",
        };
        f.write_str(what)
    }
}

/// Why a line is bad: the number of a word, from 1, and what was expected there. If a word is
/// missing, the number is one past the last word. A line that is too long counts as a mistake at
/// its first word.
#[derive(Clone, Copy, Debug)]
pub struct LineMistake {
    pub word: u32,
    pub expected: Expected,
}

impl fmt::Display for LineMistake {
    fn fmt<W: fmt::Write>(&self, f: &mut fmt::Formatter<W>) -> fmt::Result {
        let (word, expected) = (self.word, self.expected);
        write!(f, "word {word}: expected {expected}")
    }
}

static NOTHING: [Expected; 0] = [];

static A_NUMBER: [Expected; 1] = [Expected::Number];

static A_HOST: [Expected; 1] = [Expected::Host];

static TWO_HOSTS: [Expected; 2] = [Expected::Host, Expected::Host];

static A_VIEW: [Expected; 1] = [Expected::View];

static VIEW_OF_HOST: [Expected; 2] = [Expected::View, Expected::Host];

static VIEW_OF_LINK: [Expected; 3] = [Expected::View, Expected::Host, Expected::Host];

static VIEW_OF_PROBE: [Expected; 3] = [Expected::View, Expected::Host, Expected::Probe];

static A_STATE: [Expected; 2] = [Expected::State, Expected::Host];

static COMPARISON: [Expected; 2] = [Expected::Operator, Expected::Value];

static VALUES: [Expected; 3] = [Expected::Probe, Expected::Operator, Expected::Value];

static COUNT: [Expected; 5] = [
    Expected::Probe,
    Expected::Operator,
    Expected::Value,
    Expected::Operator,
    Expected::Bound,
];

static DIFFER: [Expected; 3] = [Expected::Probe, Expected::Unless, Expected::Bound];

static AGREE: [Expected; 3] = [Expected::Probe, Expected::UnlessOrBy, Expected::Bound];

static AGREE_BY: [Expected; 5] = [
    Expected::Probe,
    Expected::UnlessOrBy,
    Expected::Probe,
    Expected::Unless,
    Expected::Bound,
];

/// A position in a line: how many words lie before it, and the text after it.
#[derive(Clone, Copy)]
struct At<'a> {
    taken: u32,
    rest: &'a [u8],
}

/// Returns whether a word is what is expected.
fn fits(names: &Names, expected: Expected, word: &[u8]) -> bool {
    match expected {
        Expected::Branch => match word {
            [b'@', digits @ ..] => parse_number(digits, MAX_DIGITS).is_some(),
            _ => false,
        },
        Expected::Number => parse_number(word, MAX_DIGITS).is_some(),
        Expected::Host => names.host(word).is_some(),
        Expected::Probe => names.probe(word).is_some(),
        Expected::View => is_view(word),
        Expected::State => is_keyword(word, b"up") || is_keyword(word, b"done"),
        Expected::Unless => is_keyword(word, b"unless"),
        Expected::UnlessOrBy => is_keyword(word, b"unless") || is_keyword(word, b"by"),
        Expected::Operator => parse_op(word).is_some(),
        Expected::Value => parse_value(names, word).is_some(),
        Expected::Bound => parse_number(word, MAX_TERM_DIGITS).is_some(),
        Expected::Joint => begins_after(word).is_some(),
        Expected::Command | Expected::Term | Expected::End | Expected::ShorterLine => false,
    }
}

/// Returns the mistake that `expected` does not follow at this position.
fn mistake_at(at: At<'_>, expected: Expected) -> LineMistake
    requires { at.taken < 1000 }
    ensures { result.word ≡ at.entry.taken + 1 }
{
    let word = at.taken + 1;
    LineMistake { word, expected }
}

/// Returns the position after the next word. Fails if that word is not what is expected.
fn take<'a>(names: &Names, expected: Expected, at: At<'a>) -> Result<At<'a>, LineMistake>
    requires { at.taken < 1000 }
    ensures next { IfOk result (λ next. (next.taken ≡ at.entry.taken + 1)
        × (length (words at.entry.rest.now) ≡ length (words next.rest.now) + 1)) }
    ensures mistake { IfErr result (λ m. m.word ≡ at.entry.taken + 1) }
{
    match next_word(at.rest) {
        Some((word, rest)) if fits(names, expected, word) => Ok(At {
            taken: at.taken + 1,
            rest,
        }),
        _ => Err(mistake_at(at, expected)),
    }
}

/// Returns the position after the next words. Fails at the first one that is not what is expected.
fn walk<'a>(names: &Names, shape: &[Expected], start: At<'a>) -> Result<At<'a>, LineMistake>
    requires { start.taken + length shape.now < 1000 }
    ensures next { IfOk result (λ next. (next.taken ≡ start.entry.taken + length shape.now)
        × (total next.taken next.rest.now ≡ total start.entry.taken start.entry.rest.now)) }
    ensures mistake { IfErr result (λ m.
        IsBetween start.entry.taken m.word (total start.entry.taken start.entry.rest.now)) }
{
    let mut at = start;
    for expected in shape {
        at = take(names, *expected, at)?;
    }
    Ok(at)
}

/// Returns what must follow `agree`.
fn agreement_shape(rest: &[u8]) -> &'static [Expected]
    ensures { length result.now ≤ 5 }
{
    let Some((_probe, rest)) = next_word(rest) else {
        return &AGREE;
    };
    match next_word(rest) {
        Some((word, _rest)) if is_keyword(word, b"by") => &AGREE_BY,
        _ => &AGREE,
    }
}

/// Returns what must follow the first word of a term, or `None` if no term starts with it.
pub(crate) fn term_shape(names: &Names, word: &[u8], rest: &[u8]) -> Option<&'static [Expected]>
    ensures { IfSome result (λ shape. length shape.now ≤ 5) }
{
    if is_keyword(word, b"up") || is_keyword(word, b"done") {
        Some(&A_HOST)
    } else if is_keyword(word, b"not") {
        Some(&A_STATE)
    } else if is_keyword(word, b"agree") {
        Some(agreement_shape(rest))
    } else if is_keyword(word, b"differ") {
        Some(&DIFFER)
    } else if is_keyword(word, b"any") || is_keyword(word, b"all") {
        Some(&VALUES)
    } else if is_keyword(word, b"count") {
        Some(&COUNT)
    } else if parse_probe(names, word).is_some() {
        Some(&COMPARISON)
    } else {
        None
    }
}

/// Returns the position after a term.
fn walk_term<'a>(names: &Names, at: At<'a>) -> Result<At<'a>, LineMistake>
    requires { at.taken < 900 }
    ensures next { IfOk result (λ next. (at.entry.taken ≤ next.taken)
        × (next.taken ≤ at.entry.taken + 6)
        × (total next.taken next.rest.now ≡ total at.entry.taken at.entry.rest.now)) }
    ensures mistake { IfErr result (λ m.
        IsBetween at.entry.taken m.word (total at.entry.taken at.entry.rest.now)) }
{
    let Some((word, rest)) = next_word(at.rest) else {
        return Err(mistake_at(at, Expected::Term));
    };
    let Some(shape) = term_shape(names, word, rest) else {
        return Err(mistake_at(at, Expected::Term));
    };
    let taken = at.taken + 1;
    walk(names, shape, At { taken, rest })
}

/// Returns the position after a condition of at most 8 terms.
fn walk_condition<'a>(names: &Names, start: At<'a>) -> Result<At<'a>, LineMistake>
    requires { start.taken < 100 }
    ensures next { IfOk result (λ next. (next.taken < 900)
        × (total next.taken next.rest.now ≡ total start.entry.taken start.entry.rest.now)) }
    ensures mistake { IfErr result (λ m.
        IsBetween start.entry.taken m.word (total start.entry.taken start.entry.rest.now)) }
{
    let mut at = start;
    for _joint in 1..MAX_TERMS {
        at = walk_term(names, at)?;
        if next_word(at.rest).is_none() {
            return Ok(at);
        }
        at = take(names, Expected::Joint, at)?;
    }
    walk_term(names, at)
}

/// Returns whether a query begins with a word.
fn is_view(word: &[u8]) -> bool {
    is_keyword(word, b"next")
        || is_keyword(word, b"host")
        || is_keyword(word, b"link")
        || is_keyword(word, b"probe")
}

/// Returns what must follow `look`.
fn view_shape(rest: &[u8]) -> &'static [Expected]
    ensures { length result.now ≤ 3 }
{
    let Some((word, _rest)) = next_word(rest) else {
        return &NOTHING;
    };
    if is_keyword(word, b"host") {
        &VIEW_OF_HOST
    } else if is_keyword(word, b"link") {
        &VIEW_OF_LINK
    } else if is_keyword(word, b"probe") {
        &VIEW_OF_PROBE
    } else {
        &A_VIEW
    }
}

/// Returns whether a word is a command on its own.
fn is_lone(word: &[u8]) -> bool {
    is_keyword(word, b"step")
        || is_keyword(word, b"tick")
        || is_keyword(word, b"cut")
        || is_keyword(word, b"trace")
}

/// Returns what must follow the first word of a command other than `watch`, or `None` if no such
/// command starts with it.
fn command_shape(word: &[u8], rest: &[u8]) -> Option<&'static [Expected]>
    ensures { IfSome result (λ shape. length shape.now ≤ 3) }
{
    if is_lone(word) {
        Some(&NOTHING)
    } else if is_keyword(word, b"look") {
        Some(view_shape(rest))
    } else if Numbered::of_word(word).is_some() {
        Some(&A_NUMBER)
    } else if is_keyword(word, b"crash") || is_keyword(word, b"bounce") {
        Some(&A_HOST)
    } else if link_fault(word, 0, 0).is_some() {
        Some(&TWO_HOSTS)
    } else {
        None
    }
}

/// Returns the position after a command without its branch.
fn walk_command<'a>(names: &Names, at: At<'a>) -> Result<At<'a>, LineMistake>
    requires { at.taken ≤ 1 }
    ensures next { IfOk result (λ next. (next.taken < 900)
        × (total next.taken next.rest.now ≡ total at.entry.taken at.entry.rest.now)) }
    ensures mistake { IfErr result (λ m.
        IsBetween at.entry.taken m.word (total at.entry.taken at.entry.rest.now)) }
{
    let Some((word, rest)) = next_word(at.rest) else {
        return Err(mistake_at(at, Expected::Command));
    };
    let taken = at.taken + 1;
    let after = At { taken, rest };
    if is_keyword(word, b"watch") {
        return walk_condition(names, after);
    }
    match command_shape(word, rest) {
        Some(shape) => walk(names, shape, after),
        None => Err(mistake_at(at, Expected::Command)),
    }
}

/// Returns the position after the branch of a line, if it names one.
fn walk_branch<'a>(names: &Names, line: &'a [u8]) -> Result<At<'a>, LineMistake>
    ensures next { IfOk result (λ next. (next.taken ≤ 1)
        × (total next.taken next.rest.now ≡ length (words line.entry.now))) }
    ensures mistake { IfErr result (λ m. m.word ≡ 1) }
{
    let start = At {
        taken: 0,
        rest: line,
    };
    match next_word(line) {
        Some(([b'@', ..], _rest)) => take(names, Expected::Branch, start),
        _ => Ok(start),
    }
}

/// Returns the first mistake of a line that is no command: at a word, or at the end of the line.
fn first_mistake(names: &Names, line: &[u8]) -> LineMistake
    ensures { IsBetween 0 result.word (length (words line.now)) }
{
    if line.len() > MAX_LINE {
        return LineMistake {
            word: 1,
            expected: Expected::ShorterLine,
        };
    }
    let walked = match walk_branch(names, line) {
        Ok(at) => walk_command(names, at),
        Err(mistake) => Err(mistake),
    };
    match walked {
        Ok(at) => mistake_at(at, Expected::End),
        Err(mistake) => mistake,
    }
}

/// Returns why a line of a script is bad: which word is wrong or missing, and what was expected
/// there. Returns `None` if the line is not bad. Takes no memory.
pub fn mistake_of(names: &Names, line: &[u8]) -> Option<LineMistake>
    ensures bad { IsSome result ↔ (script_line names.now line.now ≡ ScriptLine.Bad) }
    ensures place { IfSome result (λ m. IsBetween 0 m.word (length (words line.now))) }
{
    match line_of(names, line) {
        ScriptLine::Bad => Some(first_mistake(names, line)),
        ScriptLine::Nothing | ScriptLine::Asked(_) => None,
    }
}

/// Returns the first mistake of a text that is no condition: at a word, or at the end of the text.
fn first_condition_mistake(names: &Names, text: &[u8]) -> LineMistake
    ensures { IsBetween 0 result.word (length (words text.now)) }
{
    let start = At {
        taken: 0,
        rest: text,
    };
    match walk_condition(names, start) {
        Ok(at) => mistake_at(at, Expected::End),
        Err(mistake) => mistake,
    }
}

/// Returns why a text is no condition: which word is wrong or missing, and what was expected there.
/// Returns `None` if it is one. Takes no memory.
pub fn condition_mistake_of(names: &Names, text: &[u8]) -> Option<LineMistake>
    ensures bad { IsSome result ↔ (condition names.now (words text.now) ≡ None) }
    ensures place { IfSome result (λ m. IsBetween 0 m.word (length (words text.now))) }
{
    match condition_of(names, text) {
        None => Some(first_condition_mistake(names, text)),
        Some(_) => None,
    }
}
