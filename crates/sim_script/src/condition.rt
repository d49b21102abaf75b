//! The words of a condition.
ghost use Rattle.std.specs.Prelude.{◌≡◌, ◌<◌, ◌↔◌, length, None, Some, IfSome, MatchOption};
ghost use Rattle.std.specs.List.{position};
ghost use Rattle.sim_watch.specs.Condition.{Cond as Terms, terms as all_terms, join_term};
ghost use Rattle.sim_script.specs.Words.{words, host};
ghost use Rattle.sim_script.specs.Conditions.{op_of, bound, is_dot, host_and_probe, value, on_host};
ghost use Rattle.sim_script.specs.Conditions.{negation, comparison, with_comparison};
ghost use Rattle.sim_script.specs.Conditions.{on_values, counted, counting, unless_number};
ghost use Rattle.sim_script.specs.Conditions.{on_probe_unless, agreement, compared};
ghost use Rattle.sim_script.specs.Conditions.{term, begins_after, condition, IsWritten};
ghost use Rattle.sim_script.specs.Sorts.{state_term, quantified};

use crate::names::Names;
use crate::words::{is_keyword, next_word, parse_number};
use sim_watch::{Comparison, Cond, Op, Term, Value};

/// The greatest number of digits of the number in a term.
pub(crate) const MAX_DIGITS: usize = 19;

/// The greatest number of terms of a condition.
pub(crate) const MAX_TERMS: usize = 8;

/// Reads a comparison's sign.
#[tactic(auto, unfolding(crate::specs::Conditions::op_of))]
pub(crate) fn parse_op(word: &[u8]) -> Option<Op>
    ensures { result ≡ op_of word.now }
{
    if is_keyword(word, b"<") {
        Some(Op::Less)
    } else if is_keyword(word, b"<=") {
        Some(Op::LessOrEqual)
    } else if is_keyword(word, b"=") {
        Some(Op::Equal)
    } else if is_keyword(word, b"!=") {
        Some(Op::NotEqual)
    } else if is_keyword(word, b">=") {
        Some(Op::GreaterOrEqual)
    } else if is_keyword(word, b">") {
        Some(Op::Greater)
    } else {
        None
    }
}

/// Reads the number of a term.
fn parse_bound(word: &[u8]) -> Option<u64>
    ensures { result ≡ bound word.now }
{
    parse_number(word, MAX_DIGITS)
}

/// Returns the position of the first dot.
pub(crate) fn first_dot(word: &[u8]) -> Option<usize>
    ensures is { result ≡ position is_dot word.now }
    ensures within { IfSome result (λ dot. dot < length word.now) }
{
    word.iter().position(|byte| *byte == b'.')
}

/// Reads a host and a probe, joined by a dot.
pub(crate) fn parse_probe(names: &Names, word: &[u8]) -> Option<(u16, u8)>
    ensures { result ≡ host_and_probe names.now word.now }
{
    let dot = first_dot(word)?;
    let host = names.host(&word[..dot])?;
    let probe = names.probe(&word[dot + 1..])?;
    Some((host, probe))
}

/// Reads a value: a number, or the probe of a host.
pub(crate) fn parse_value(names: &Names, word: &[u8]) -> Option<Value>
    ensures { result ≡ value names.now word.now }
{
    if let Some(number) = parse_bound(word) {
        return Some(Value::Number(number));
    }
    let (host, probe) = parse_probe(names, word)?;
    Some(Value::Shown(host, probe))
}

/// What a term says of the state of a host.
#[derive(Clone, Copy)]
enum State {
    Up,
    NotUp,
    Done,
    NotDone,
}

impl State {
    /// Returns the term that says it of a host.
    fn term(self, host: u16) -> Term
        ensures { result ≡ state_term self host }
    {
        match self {
            State::Up => Term::Up(host),
            State::NotUp => Term::NotUp(host),
            State::Done => Term::Done(host),
            State::NotDone => Term::NotDone(host),
        }
    }
}

/// Reads the host of a term about its state, and returns the text after it too.
fn next_state<'a>(names: &Names, state: State, text: &'a [u8]) -> Option<(Term, &'a [u8])>
    ensures { MatchOption result (on_host names.now (state_term state) (words text.now) ≡ None)
        (λ r. on_host names.now (state_term state) (words text.now)
        ≡ Some (r.0, words r.1.now)) }
{
    let (word, rest) = next_word(text)?;
    let host = names.host(word)?;
    Some((state.term(host), rest))
}

/// Reads the term after `not`, and returns the text after it too.
fn next_negation<'a>(names: &Names, text: &'a [u8]) -> Option<(Term, &'a [u8])>
    ensures { MatchOption result (negation names.now (words text.now) ≡ None)
        (λ r. negation names.now (words text.now) ≡ Some (r.0, words r.1.now)) }
{
    let (word, rest) = next_word(text)?;
    if is_keyword(word, b"up") {
        next_state(names, State::NotUp, rest)
    } else if is_keyword(word, b"done") {
        next_state(names, State::NotDone, rest)
    } else {
        None
    }
}

/// Reads `unless` and a number, and returns the text after them too.
fn next_unless(text: &[u8]) -> Option<(u64, &[u8])>
    ensures { MatchOption result ((make : _) → unless_number make (words text.now) ≡ None)
        (λ r. (make : _) → unless_number make (words text.now) ≡ Some (make r.0, words r.1.now)) }
{
    let (unless, rest) = next_word(text)?;
    let (number, rest) = next_word(rest)?;
    if !is_keyword(unless, b"unless") {
        return None;
    }
    let number = parse_bound(number)?;
    Some((number, rest))
}

/// Reads a probe, `unless` and a number, and returns the text after them too.
fn next_probe_unless<'a>(names: &Names, text: &'a [u8]) -> Option<(u8, u64, &'a [u8])>
    ensures { MatchOption result ((make : _) → on_probe_unless names.now make (words text.now)
        ≡ None)
        (λ r. (make : _) → on_probe_unless names.now make (words text.now)
        ≡ Some (make r.0 r.1, words r.2.now)) }
{
    let (probe, rest) = next_word(text)?;
    let probe = names.probe(probe)?;
    let (number, rest) = next_unless(rest)?;
    Some((probe, number, rest))
}

/// Reads the term after `differ`, and returns the text after it too.
fn next_difference<'a>(names: &Names, text: &'a [u8]) -> Option<(Term, &'a [u8])>
    ensures { MatchOption result (on_probe_unless names.now Term.Differ (words text.now) ≡ None)
        (λ r. on_probe_unless names.now Term.Differ (words text.now)
        ≡ Some (r.0, words r.1.now)) }
{
    let (probe, number, rest) = next_probe_unless(names, text)?;
    Some((Term::Differ(probe, number), rest))
}

/// Reads the term after `agree`, and returns the text after it too.
fn next_agreement<'a>(names: &Names, text: &'a [u8]) -> Option<(Term, &'a [u8])>
    ensures { MatchOption result (agreement names.now (words text.now) ≡ None)
        (λ r. agreement names.now (words text.now) ≡ Some (r.0, words r.1.now)) }
{
    let (probe, text) = next_word(text)?;
    let (word, rest) = next_word(text)?;
    let probe = names.probe(probe)?;
    if is_keyword(word, b"by") {
        let (by, number, rest) = next_probe_unless(names, rest)?;
        Some((Term::AgreeBy(probe, by, number), rest))
    } else {
        let (number, rest) = next_unless(text)?;
        Some((Term::Agree(probe, number), rest))
    }
}

/// Reads an operator and a value, and returns the text after them too.
fn next_comparison<'a>(names: &Names, text: &'a [u8]) -> Option<(Comparison, &'a [u8])>
    ensures { MatchOption result (comparison names.now (words text.now) ≡ None)
        (λ r. comparison names.now (words text.now) ≡ Some (r.0, words r.1.now)) }
{
    let (op, rest) = next_word(text)?;
    let (value, rest) = next_word(rest)?;
    let op = parse_op(op)?;
    let value = parse_value(names, value)?;
    Some((Comparison { op, value }, rest))
}

/// Reads the term after `any`, or with `all` after that word, and returns the text after it too.
fn next_quantified<'a>(names: &Names, all: bool, text: &'a [u8]) -> Option<(Term, &'a [u8])>
    ensures { MatchOption result (on_values names.now (quantified all) (words text.now) ≡ None)
        (λ r. on_values names.now (quantified all) (words text.now)
        ≡ Some (r.0, words r.1.now)) }
{
    let (probe, rest) = next_word(text)?;
    let probe = names.probe(probe)?;
    let (to, rest) = next_comparison(names, rest)?;
    let term = if all {
        Term::All(probe, to)
    } else {
        Term::Any(probe, to)
    };
    Some((term, rest))
}

/// Reads the end of a `count` term, after its comparison, and returns the text after it too.
fn next_counted(probe: u8, to: Comparison, text: &[u8]) -> Option<(Term, &[u8])>
    ensures { MatchOption result (counted probe to (words text.now) ≡ None)
        (λ r. counted probe to (words text.now) ≡ Some (r.0, words r.1.now)) }
{
    let (op, rest) = next_word(text)?;
    let (number, rest) = next_word(rest)?;
    let op = parse_op(op)?;
    let number = parse_bound(number)?;
    Some((Term::Count(probe, to, op, number), rest))
}

/// Reads the term after `count`, and returns the text after it too.
fn next_count<'a>(names: &Names, text: &'a [u8]) -> Option<(Term, &'a [u8])>
    ensures { MatchOption result (counting names.now (words text.now) ≡ None)
        (λ r. counting names.now (words text.now) ≡ Some (r.0, words r.1.now)) }
{
    let (probe, rest) = next_word(text)?;
    let probe = names.probe(probe)?;
    let (to, rest) = next_comparison(names, rest)?;
    next_counted(probe, to, rest)
}

/// Reads a comparison of one probe after its first word, and returns the text after it too.
fn next_compared<'a>(names: &Names, word: &[u8], text: &'a [u8]) -> Option<(Term, &'a [u8])>
    ensures { MatchOption result (compared names.now word.now (words text.now) ≡ None)
        (λ r. compared names.now word.now (words text.now) ≡ Some (r.0, words r.1.now)) }
{
    let (host, probe) = parse_probe(names, word)?;
    let (to, rest) = next_comparison(names, text)?;
    Some((Term::Cmp(host, probe, to), rest))
}

/// Reads a term, and returns the text after it too.
#[tactic(auto, unfolding(crate::specs::Conditions::term))]
fn next_term<'a>(names: &Names, text: &'a [u8]) -> Option<(Term, &'a [u8])>
    ensures { MatchOption result (term names.now (words text.now) ≡ None)
        (λ r. term names.now (words text.now) ≡ Some (r.0, words r.1.now)) }
{
    let (word, rest) = next_word(text)?;
    if is_keyword(word, b"up") {
        next_state(names, State::Up, rest)
    } else if is_keyword(word, b"done") {
        next_state(names, State::Done, rest)
    } else if is_keyword(word, b"not") {
        next_negation(names, rest)
    } else if is_keyword(word, b"agree") {
        next_agreement(names, rest)
    } else if is_keyword(word, b"differ") {
        next_difference(names, rest)
    } else if is_keyword(word, b"any") {
        next_quantified(names, false, rest)
    } else if is_keyword(word, b"all") {
        next_quantified(names, true, rest)
    } else if is_keyword(word, b"count") {
        next_count(names, rest)
    } else {
        next_compared(names, word, rest)
    }
}

/// Returns whether the term after a word starts a new alternative, or `None` if the word joins no
/// terms.
#[tactic(auto, unfolding(crate::specs::Conditions::begins_after))]
pub(crate) fn begins_after(word: &[u8]) -> Option<bool>
    ensures { result ≡ begins_after word.now }
{
    if is_keyword(word, b"and") {
        Some(false)
    } else if is_keyword(word, b"or") {
        Some(true)
    } else {
        None
    }
}

/// Adds a term to a condition that has room for it, in a new alternative if `begins`, else in the
/// last one.
fn with_term(cond: Cond, begins: bool, term: Term) -> Cond
    requires { length (all_terms cond) < 8 }
    ensures { result ≡ join_term cond (record { begins = begins; term = term }) }
{
    let joined = if begins {
        cond.or(term)
    } else {
        cond.and(term)
    };
    joined.unwrap()
}

/// Reads a condition, as [`condition_of`].
fn read_condition(names: &Names, text: &[u8]) -> Option<Cond>
    ensures { result ≡ condition names.now (words text.now) }
{
    let mut cond = Cond::new();
    let mut begins = true;
    let mut rest = text;
    for turn in 0..MAX_TERMS {
        let (term, after) = next_term(names, rest)?;
        cond = with_term(cond, begins, term);
        let Some((word, more)) = next_word(after) else {
            return Some(cond);
        };
        begins = begins_after(word)?;
        rest = more;
    }
    None
}

/// Reads a condition: 1 to 8 terms, joined by `and` and `or`. Returns `None` if `text` writes none.
/// Takes no memory.
pub fn condition_of(names: &Names, text: &[u8]) -> Option<Cond>
    ensures is { result ≡ condition names.now (words text.now) }
    ensures written { IsWritten names.now (words text.now) result }
{
    read_condition(names, text)
}
