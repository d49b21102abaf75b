//! Sentences about mistakes: which word is wrong, and the names that there are.
use crate::mistake::{Expected, LineMistake, condition_mistake_of};
use crate::names::Names;
use crate::unknown::{Unknown, unknown_of};
use crate::words::{is_keyword, next_word};
use sim_node::NoMemory;

/// How a condition is written: the forms of a term, on lines of their own. There is no end of line
/// after the last.
pub const CONDITION_FORM: &str = "\
COND is 1 to 8 terms, joined by `and` and `or`. A term is one of:
  HOST.PROBE OP VALUE          up HOST      not up HOST
  any PROBE OP VALUE           done HOST    not done HOST
  all PROBE OP VALUE           agree PROBE unless N
  count PROBE OP VALUE OP K    agree PROBE by PROBE unless N
                               differ PROBE unless N
OP is <, <=, =, !=, >= or >, between spaces; VALUE is a number or HOST.PROBE.";

// Appends some words and the names that follow them, between two texts.
fn tell_part(
    words: &str,
    names: &[String],
    (before, after): (&str, &str),
    said: &mut String,
) -> Result<(), NoMemory> {
    said.push_str(before)?;
    said.push_str(words)?;
    for name in names {
        // A probe may have no name.
        if name.is_empty() {
            continue;
        }
        said.push(' ')?;
        said.push_str(name.as_str())?;
    }
    said.push_str(after)
}

impl Names {
    /// Appends the names of the hosts, as `hosts: a b w`. Fails only for want of memory.
    pub fn tell_hosts(&self, said: &mut String) -> Result<(), NoMemory> {
        tell_part("hosts:", self.hosts(), ("", ""), said)
    }

    /// Appends the names of the probes, as `probes: next first`. Fails only for want of memory.
    pub fn tell_probes(&self, said: &mut String) -> Result<(), NoMemory> {
        tell_part("probes:", self.probes(), ("", ""), said)
    }
}

/// Returns the word of a text with this number, from 1, or an empty one past the last.
pub fn word_at(text: &[u8], number: u32) -> &[u8] {
    let mut rest = text;
    for _before in 1..number {
        match next_word(rest) {
            Some((_word, after)) => rest = after,
            None => return b"",
        }
    }
    match next_word(rest) {
        Some((word, _after)) => word,
        None => b"",
    }
}

// Returns a word as text; one that is no UTF-8 is not shown.
fn shown(word: &[u8]) -> &str {
    str::from_utf8(word).unwrap_or("..")
}

fn is_sign(byte: u8) -> bool {
    matches!(byte, b'<' | b'=' | b'>' | b'!')
}

// Returns whether a word has the signs of an operator and other bytes too.
fn joins_operator(word: &[u8]) -> bool {
    word.iter().any(|byte| is_sign(*byte)) && word.iter().any(|byte| !is_sign(*byte))
}

// Returns advice for a mistake at a word, if there is any.
fn hint_of(word: &[u8], expected: Expected) -> Option<&'static str> {
    match expected {
        Expected::Term if matches!(word, [b'"' | b'\'', ..]) => {
            Some("a condition is written without quotes here")
        }
        Expected::Term | Expected::Operator | Expected::Value if joins_operator(word) => {
            Some("an operator stands between spaces, as in `w.next <= 3`")
        }
        Expected::End if is_keyword(word, b"and") || is_keyword(word, b"or") => {
            Some("a condition has at most 8 terms")
        }
        _ => None,
    }
}

/// Appends which word of a text is wrong or missing, and what was expected there. Fails only for
/// want of memory.
pub fn tell_mistake(text: &[u8], mistake: LineMistake, said: &mut String) -> Result<(), NoMemory> {
    let (number, expected) = (mistake.word, mistake.expected);
    let word = shown(word_at(text, number));
    if word.is_empty() {
        write!(said, "a word is missing at the end: expected {expected}")
    } else {
        write!(said, "word {number}, \"{word}\": expected {expected}")
    }
}

// Appends how a condition is written, from the beginning of a line on.
fn tell_form(after: &str, said: &mut String) -> Result<(), NoMemory> {
    if !said.as_str().ends_with('\n') {
        said.push('\n')?;
    }
    said.push_str(CONDITION_FORM)?;
    said.push_str(after)
}

/// Appends advice for a mistake in a text, if there is any, or else the names that are possible in
/// place of the word, and for a term the forms of all terms. Puts the two texts of `around` before
/// and after each part; the forms begin on a new line. Fails only for want of memory.
pub fn tell_advice(
    names: &Names,
    text: &[u8],
    mistake: LineMistake,
    around: (&str, &str),
    said: &mut String,
) -> Result<(), NoMemory> {
    let expected = mistake.expected;
    if let Some(hint) = hint_of(word_at(text, mistake.word), expected) {
        return tell_part(hint, &[], around, said);
    }
    let of_both = matches!(expected, Expected::Term | Expected::Value);
    if of_both || expected == Expected::Host {
        tell_part("hosts:", names.hosts(), around, said)?;
    }
    if of_both || expected == Expected::Probe {
        tell_part("probes:", names.probes(), around, said)?;
    }
    if expected == Expected::Term {
        let (_before, after) = around;
        tell_form(after, said)?;
    }
    Ok(())
}

// Appends that there is no host or probe of a name, and which there are.
fn tell_unknown(names: &Names, unknown: Unknown<'_>, said: &mut String) -> Result<(), NoMemory> {
    let (kind, word) = match unknown {
        Unknown::Host(word) => ("host", word),
        Unknown::Probe(word) => ("probe", word),
    };
    let name = shown(word);
    write!(said, "there is no {kind} {name}; ")?;
    match unknown {
        Unknown::Host(_) => names.tell_hosts(said),
        Unknown::Probe(_) => names.tell_probes(said),
    }
}

/// Appends in a sentence why a text is no condition of a scenario with these names: which word is
/// wrong or missing, or which host or probe there is not. If it is the first word of a term, the
/// forms of all terms follow. Appends nothing if the text is a condition. Fails only for want of
/// memory.
pub fn tell_bad_condition(names: &Names, text: &[u8], said: &mut String) -> Result<(), NoMemory> {
    if let Some(mistake) = condition_mistake_of(names, text) {
        tell_mistake(text, mistake, said)?;
        return tell_advice(names, text, mistake, ("; ", ""), said);
    }
    match unknown_of(names, text) {
        Some(unknown) => tell_unknown(names, unknown, said),
        None => Ok(()),
    }
}
