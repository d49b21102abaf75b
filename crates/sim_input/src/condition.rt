//! The words of a condition.
ghost use Rattle.std.specs.Prelude.{◌≡◌, None, Some, IfErr, OnOk, string_bytes, codes};
ghost use Rattle.std.specs.Prelude.{if◌then◌else◌};
ghost use Rattle.sim_watch.specs.Condition.{alternatives};
ghost use Rattle.sim_script.specs.Words.{Text, words};
ghost use Rattle.sim_script.specs.Conditions.{condition, op_word};
ghost use Rattle.sim_input.specs.Events.{AreRead};
ghost use Rattle.sim_input.specs.Condition.{Adds, ProbesAreRead, after, spaced, number_text};
ghost use Rattle.sim_input.specs.Condition.{host_text, probe_text, place_text, value_text};
ghost use Rattle.sim_input.specs.Condition.{comparison_text, values_text, unless_text, term_text};
ghost use Rattle.sim_input.specs.Condition.{joint_text, condition_text};

use crate::events::LineError;
use sim_script::Names;
use sim_watch::{Comparison, Cond, JoinedTerm, Op, Term, Value};

/// The least number of 20 digits. Such a number cannot be read.
const TOO_LONG: u64 = 10_000_000_000_000_000_000;

// Adds the name of a host.
fn push_host(text: &mut String, names: &Names, host: u16) -> Result<(), LineError>
    ensures written { OnOk result (Adds (host_text names.now host)
        (string_bytes text.old) (string_bytes text.new)) }
    ensures refused { IfErr result (λ e. e ≡ LineError.NoLine → host_text names.now host ≡ None) }
{
    let name = names.host_name(host);
    if name.is_empty() {
        return Err(LineError::NoLine);
    }
    text.push_str(name)?;
    Ok(())
}

// Adds the name of a probe.
fn push_probe(text: &mut String, names: &Names, probe: u8) -> Result<(), LineError>
    ensures written { OnOk result (Adds (probe_text names.now probe)
        (string_bytes text.old) (string_bytes text.new)) }
    ensures refused { IfErr result (λ e. e ≡ LineError.NoLine → probe_text names.now probe ≡ None) }
{
    let name = names.probe_name(probe);
    if name.is_empty() {
        return Err(LineError::NoLine);
    }
    text.push_str(name)?;
    Ok(())
}

// Adds a host and a probe, with a dot between them.
fn push_place(text: &mut String, names: &Names, host: u16, probe: u8) -> Result<(), LineError>
    ensures written { OnOk result (Adds (place_text names.now host probe)
        (string_bytes text.old) (string_bytes text.new)) }
    ensures refused { IfErr result (λ e. e ≡ LineError.NoLine →
        place_text names.now host probe ≡ None) }
{
    push_host(text, names, host)?;
    text.push('.')?;
    push_probe(text, names, probe)
}

// Adds the digits of a number.
fn push_number(text: &mut String, number: u64) -> Result<(), LineError>
    ensures written { OnOk result (Adds (number_text number)
        (string_bytes text.old) (string_bytes text.new)) }
    ensures refused { IfErr result (λ e. e ≡ LineError.NoLine → number_text number ≡ None) }
{
    if number >= TOO_LONG {
        return Err(LineError::NoLine);
    }
    write!(text, "{number}")?;
    Ok(())
}

// Adds the value that a number is compared with.
fn push_value(text: &mut String, names: &Names, value: Value) -> Result<(), LineError>
    ensures written { OnOk result (Adds (value_text names.now value)
        (string_bytes text.old) (string_bytes text.new)) }
    ensures refused { IfErr result (λ e. e ≡ LineError.NoLine →
        value_text names.now value ≡ None) }
{
    match value {
        Value::Number(number) => push_number(text, number),
        Value::Shown(host, probe) => push_place(text, names, host, probe),
    }
}

// Returns the sign of a comparison.
fn sign_of(op: Op) -> &'static str
    ensures { result.now ≡ op_word op }
{
    match op {
        Op::Less => "<",
        Op::LessOrEqual => "<=",
        Op::Equal => "=",
        Op::NotEqual => "!=",
        Op::GreaterOrEqual => ">=",
        Op::Greater => ">",
    }
}

// Adds a sign, and the value that a number is compared with.
fn push_comparison(text: &mut String, names: &Names, to: Comparison) -> Result<(), LineError>
    ensures written { OnOk result (Adds (comparison_text names.now to)
        (string_bytes text.old) (string_bytes text.new)) }
    ensures refused { IfErr result (λ e. e ≡ LineError.NoLine →
        comparison_text names.now to ≡ None) }
{
    text.push_str(sign_of(to.op))?;
    text.push(' ')?;
    push_value(text, names, to.value)
}

// Adds a term that compares the value of a probe of a host.
fn push_compared(
    text: &mut String,
    names: &Names,
    host: u16,
    probe: u8,
    to: Comparison,
) -> Result<(), LineError>
    ensures written { OnOk result (Adds (term_text names.now (Term.Cmp host probe to))
        (string_bytes text.old) (string_bytes text.new)) }
    ensures refused { IfErr result (λ e. e ≡ LineError.NoLine →
        term_text names.now (Term.Cmp host probe to) ≡ None) }
{
    push_place(text, names, host, probe)?;
    text.push(' ')?;
    push_comparison(text, names, to)
}

// Adds a word, a probe, and the comparison of its values.
fn push_values(
    text: &mut String,
    names: &Names,
    word: &str,
    probe: u8,
    to: Comparison,
) -> Result<(), LineError>
    ensures written { OnOk result (Adds (values_text names.now word.now probe to)
        (string_bytes text.old) (string_bytes text.new)) }
    ensures refused { IfErr result (λ e. e ≡ LineError.NoLine →
        values_text names.now word.now probe to ≡ None) }
{
    text.push_str(word)?;
    text.push(' ')?;
    push_probe(text, names, probe)?;
    text.push(' ')?;
    push_comparison(text, names, to)
}

// Adds a count: a probe, the comparison of its values, and the comparison of how many values meet
// it.
fn push_count(
    text: &mut String,
    names: &Names,
    probe: u8,
    to: Comparison,
    op: Op,
    number: u64,
) -> Result<(), LineError>
    ensures written { OnOk result (Adds (term_text names.now (Term.Count probe to op number))
        (string_bytes text.old) (string_bytes text.new)) }
    ensures refused { IfErr result (λ e. e ≡ LineError.NoLine →
        term_text names.now (Term.Count probe to op number) ≡ None) }
{
    let many = Comparison {
        op,
        value: Value::Number(number),
    };
    push_values(text, names, "count", probe, to)?;
    text.push(' ')?;
    push_comparison(text, names, many)
}

// Adds a word, a probe, and the number after `unless`.
fn push_unless(
    text: &mut String,
    names: &Names,
    word: &str,
    probe: u8,
    number: u64,
) -> Result<(), LineError>
    ensures written { OnOk result (Adds (unless_text names.now word.now probe number)
        (string_bytes text.old) (string_bytes text.new)) }
    ensures refused { IfErr result (λ e. e ≡ LineError.NoLine →
        unless_text names.now word.now probe number ≡ None) }
{
    text.push_str(word)?;
    text.push(' ')?;
    push_probe(text, names, probe)?;
    text.push_str(" unless ")?;
    push_number(text, number)
}

// Adds an agreement of hosts that show the same value of a second probe.
fn push_agree_by(
    text: &mut String,
    names: &Names,
    probe: u8,
    by: u8,
    number: u64,
) -> Result<(), LineError>
    ensures written { OnOk result (Adds (term_text names.now (Term.AgreeBy probe by number))
        (string_bytes text.old) (string_bytes text.new)) }
    ensures refused { IfErr result (λ e. e ≡ LineError.NoLine →
        term_text names.now (Term.AgreeBy probe by number) ≡ None) }
{
    text.push_str("agree ")?;
    push_probe(text, names, probe)?;
    text.push(' ')?;
    push_unless(text, names, "by", by, number)
}

// Adds the state of a host, and its name.
fn push_on_host(text: &mut String, names: &Names, word: &str, host: u16) -> Result<(), LineError>
    ensures written { OnOk result (Adds (after word.now (host_text names.now host))
        (string_bytes text.old) (string_bytes text.new)) }
    ensures refused { IfErr result (λ e. e ≡ LineError.NoLine →
        after word.now (host_text names.now host) ≡ None) }
{
    text.push_str(word)?;
    text.push(' ')?;
    push_host(text, names, host)
}

// Adds a term.
fn push_term(text: &mut String, names: &Names, term: Term) -> Result<(), LineError>
    ensures written { OnOk result (Adds (term_text names.now term)
        (string_bytes text.old) (string_bytes text.new)) }
    ensures refused { IfErr result (λ e. e ≡ LineError.NoLine → term_text names.now term ≡ None) }
{
    match term {
        Term::Cmp(host, probe, to) => push_compared(text, names, host, probe, to),
        Term::Count(probe, to, op, number) => push_count(text, names, probe, to, op, number),
        Term::Any(probe, to) => push_values(text, names, "any", probe, to),
        Term::All(probe, to) => push_values(text, names, "all", probe, to),
        Term::Agree(probe, number) => push_unless(text, names, "agree", probe, number),
        Term::AgreeBy(probe, by, number) => push_agree_by(text, names, probe, by, number),
        Term::Differ(probe, number) => push_unless(text, names, "differ", probe, number),
        Term::Up(host) => push_on_host(text, names, "up", host),
        Term::NotUp(host) => push_on_host(text, names, "not up", host),
        Term::Done(host) => push_on_host(text, names, "done", host),
        Term::NotDone(host) => push_on_host(text, names, "not done", host),
    }
}

// Returns the word before a term that is not the first.
fn joint_of(begins: bool) -> &'static str
    ensures { result.now ≡ joint_text begins }
{
    if begins { " or " } else { " and " }
}

// Adds the terms of a condition, with `and` or `or` between each two.
fn push_terms(text: &mut String, names: &Names, terms: &[JoinedTerm]) -> Result<(), LineError>
    ensures written { OnOk result (Adds (condition_text names.now (alternatives terms.now))
        (string_bytes text.old) (string_bytes text.new)) }
    ensures refused { IfErr result (λ e. e ≡ LineError.NoLine →
        condition_text names.now (alternatives terms.now) ≡ None) }
{
    let [first, rest @ ..] = terms else {
        return Err(LineError::NoLine);
    };
    push_term(text, names, first.term)?;
    for joined in rest {
        text.push_str(joint_of(joined.begins))?;
        push_term(text, names, joined.term)?;
    }
    Ok(())
}

/// Adds the words of a condition, with a space between each two. If each name is read as its host
/// or its probe, they are read as this condition.
///
/// Fails with `NoLine` if the condition has no term, names a host or a probe that has no name, or
/// has a number of 20 digits, which cannot be read. After an error the text may end with a part of
/// the condition.
///
/// A line of a script has at most 256 bytes, and a condition with long names may have more. The
/// command line still accepts it.
pub fn push_condition(text: &mut String, names: &Names, cond: &Cond) -> Result<(), LineError>
    ensures written { OnOk result (Adds (condition_text names.now cond.now)
        (string_bytes text.old) (string_bytes text.new)) }
    ensures refused { IfErr result (λ e. e ≡ LineError.NoLine →
        condition_text names.now cond.now ≡ None) }
    ensures reads { AreRead names.now → ProbesAreRead names.now → (line : Text) →
        condition_text names.now cond.now ≡ Some line →
        condition names.now (words line) ≡ Some cond.now }
{
    push_terms(text, names, cond.terms())
}
