//! Which name in a condition is that of no host or no probe.
use crate::condition::first_dot;
use crate::mistake::{Expected, term_shape};
use crate::names::Names;
use crate::words::next_word;

/// A name in a condition that no host or no probe has.
#[derive(Clone, Copy)]
pub(crate) enum Unknown<'a> {
    Host(&'a [u8]),
    Probe(&'a [u8]),
}

// Returns a word if it is the name of no host.
fn unknown_host<'a>(names: &Names, word: &'a [u8]) -> Option<Unknown<'a>> {
    let host = names.host(word)?;
    if names.host_name(host).is_empty() {
        Some(Unknown::Host(word))
    } else {
        None
    }
}

// Returns a word if it is the name of no probe.
fn unknown_probe<'a>(names: &Names, word: &'a [u8]) -> Option<Unknown<'a>> {
    let probe = names.probe(word)?;
    if names.probe_name(probe).is_empty() {
        Some(Unknown::Probe(word))
    } else {
        None
    }
}

// Returns the part of a word before its dot if it is the name of no host, or the part after it if
// it is the name of no probe.
fn unknown_part<'a>(names: &Names, word: &'a [u8]) -> Option<Unknown<'a>> {
    let dot = first_dot(word)?;
    match unknown_host(names, &word[..dot]) {
        Some(unknown) => Some(unknown),
        None => unknown_probe(names, &word[dot + 1..]),
    }
}

// Returns the unknown name in a word, if it has one where a name is expected.
fn unknown_in<'a>(names: &Names, expected: Expected, word: &'a [u8]) -> Option<Unknown<'a>> {
    match expected {
        Expected::Host => unknown_host(names, word),
        Expected::Probe => unknown_probe(names, word),
        Expected::Term | Expected::Value => unknown_part(names, word),
        _ => None,
    }
}

/// Returns the first name in a condition that no host or no probe has.
pub(crate) fn unknown_of<'a>(names: &Names, text: &'a [u8]) -> Option<Unknown<'a>> {
    let mut rest = text;
    // What must follow in the term; before a term nothing is known.
    let mut shape: Option<&[Expected]> = None;
    // Each round passes a word.
    for _word in 0..text.len() {
        let (word, after) = next_word(rest)?;
        let (expected, next) = match shape {
            None => (Expected::Term, term_shape(names, word, after)),
            Some([]) => (Expected::Joint, None),
            Some([first, more @ ..]) => (*first, Some(more)),
        };
        if let Some(unknown) = unknown_in(names, expected, word) {
            return Some(unknown);
        }
        (rest, shape) = (after, next);
    }
    None
}
