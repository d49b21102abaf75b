//! Bad lines, and why they are bad.
use crate::input::names;
use sim_script::{Expected, mistake_of, tell_bad_condition};
use std::alloc::Global;
use std::test::Fail;

/// Bad lines.
const BAD: &str = "crsh a
   
@x step
@1 
@1 crsh
  step  1
run
run 1234567890
@2 run 1 2
crash
bounce A
hold a
repaironeway a B
partition a b1 w
look up
look host
look link a
look probe a
look next a
watch
watch zz
watch up
watch not a
watch agree num
watch agree num by val
watch differ num unless
watch any num
watch all num < A
watch count num < 1
watch count num < 1 = a
watch a.num
watch a.num = 12345678901234567890
watch up a up b1
watch up a and
watch up a or done b1 or Zz
watch up a or up a or up a or up a or up a or up a or up a or up a or up a
";

/// The mistakes of these lines, as docs/SCRIPT.md says what a line may have.
const TOLD: &str = "word 1: expected a command
word 1: expected a command
word 1: expected `@` and the number of a branch
word 2: expected a command
word 2: expected a command
word 2: expected the end of the line
word 2: expected a number of 1 to 9 digits
word 2: expected a number of 1 to 9 digits
word 4: expected the end of the line
word 2: expected the name of a host
word 2: expected the name of a host
word 3: expected the name of a host
word 3: expected the name of a host
word 4: expected the end of the line
word 2: expected `next`, `host`, `link` or `probe`
word 3: expected the name of a host
word 4: expected the name of a host
word 4: expected the name of a probe
word 3: expected the end of the line
word 2: expected a term of a condition
word 2: expected a term of a condition
word 3: expected the name of a host
word 3: expected `up` or `done`
word 4: expected `unless` or `by`
word 6: expected `unless`
word 5: expected a number of 1 to 19 digits
word 4: expected `<`, `<=`, `=`, `!=`, `>=` or `>`
word 5: expected a number of 1 to 19 digits or HOST.PROBE
word 6: expected `<`, `<=`, `=`, `!=`, `>=` or `>`
word 7: expected a number of 1 to 19 digits
word 3: expected `<`, `<=`, `=`, `!=`, `>=` or `>`
word 4: expected a number of 1 to 19 digits or HOST.PROBE
word 4: expected `and`, `or` or the end of the line
word 5: expected a term of a condition
word 8: expected a term of a condition
word 25: expected the end of the line
";

/// Lines that are not bad.
const FINE: &str = "
# crsh
crash zz
look
@3 watch up zz
";

/// Texts that are no condition of the scenario, and the last one that is.
const BAD_CONDITIONS: &str = "
w.next<=1
\"up a\"
up a and w.next <=1
agree num
agree frst unless 0
up a or not done z
z.frst = 1
w.next = w.frst
agree val by x unless 0
frst <= 1
up a w
up a or up a or up a or up a or up a or up a or up a or up a or up a
up and and
up a and w.next <= a.num
";

const WHY: &str = "\
a word is missing at the end: expected a term of a condition; hosts: a b1 w; probes: next num val
COND is 1 to 8 terms, joined by `and` and `or`. A term is one of:
  HOST.PROBE OP VALUE          up HOST      not up HOST
  any PROBE OP VALUE           done HOST    not done HOST
  all PROBE OP VALUE           agree PROBE unless N
  count PROBE OP VALUE OP K    agree PROBE by PROBE unless N
                               differ PROBE unless N
OP is <, <=, =, !=, >= or >, between spaces; VALUE is a number or HOST.PROBE.
word 1, \"w.next<=1\": expected a term of a condition; an operator stands between spaces, as in \
`w.next <= 3`
word 1, \"\"up\": expected a term of a condition; a condition is written without quotes here
word 5, \"<=1\": expected `<`, `<=`, `=`, `!=`, `>=` or `>`; an operator stands between spaces, as \
in `w.next <= 3`
a word is missing at the end: expected `unless` or `by`
there is no probe frst; probes: next num val
there is no host z; hosts: a b1 w
there is no host z; hosts: a b1 w
there is no probe frst; probes: next num val
there is no probe x; probes: next num val
word 1, \"frst\": expected a term of a condition; hosts: a b1 w; probes: next num val
COND is 1 to 8 terms, joined by `and` and `or`. A term is one of:
  HOST.PROBE OP VALUE          up HOST      not up HOST
  any PROBE OP VALUE           done HOST    not done HOST
  all PROBE OP VALUE           agree PROBE unless N
  count PROBE OP VALUE OP K    agree PROBE by PROBE unless N
                               differ PROBE unless N
OP is <, <=, =, !=, >= or >, between spaces; VALUE is a number or HOST.PROBE.
word 3, \"w\": expected `and`, `or` or the end of the line
word 24, \"or\": expected the end of the line; a condition has at most 8 terms
a word is missing at the end: expected a term of a condition; hosts: a b1 w; probes: next num val
COND is 1 to 8 terms, joined by `and` and `or`. A term is one of:
  HOST.PROBE OP VALUE          up HOST      not up HOST
  any PROBE OP VALUE           done HOST    not done HOST
  all PROBE OP VALUE           agree PROBE unless N
  count PROBE OP VALUE OP K    agree PROBE by PROBE unless N
                               differ PROBE unless N
OP is <, <=, =, !=, >= or >, between spaces; VALUE is a number or HOST.PROBE.

";

/// Returns the mistakes of the lines of a text, with `fine` for a line that is not bad.
fn told(alloc: Global, text: &str) -> Result<String, Fail> {
    let names = names(alloc)?;
    let mut told = String::new(alloc);
    for line in text.lines() {
        match mistake_of(&names, line.as_bytes()) {
            Some(mistake) => told.push_str(format!(in alloc; "{mistake}\n")?.as_str())?,
            None => told.push_str("fine\n")?,
        }
    }
    Ok(told)
}

#[test]
fn mistakes(rt: HostRuntime) -> Result<(), Fail> {
    assert_eq!(rt; told(rt.alloc(), BAD)?.as_str(), TOLD);
    Ok(())
}

#[test]
fn fine_lines(rt: HostRuntime) -> Result<(), Fail> {
    assert_eq!(rt;
        told(rt.alloc(), FINE)?.as_str(),
        "fine\nfine\nfine\nfine\nfine\n"
    );
    Ok(())
}

#[test]
fn a_line_that_is_too_long(rt: HostRuntime) -> Result<(), Fail> {
    let names = names(rt.alloc())?;
    let long = mistake_of(&names, &[b'x'; 257]).ok_or("no mistake")?;
    assert_eq!(rt; long.expected, Expected::ShorterLine);
    Ok(())
}

#[test]
fn bad_conditions(rt: HostRuntime) -> Result<(), Fail> {
    let alloc = rt.alloc();
    let names = names(alloc)?;
    let mut why = String::new(alloc);
    for text in BAD_CONDITIONS.lines() {
        tell_bad_condition(&names, text.as_bytes(), &mut why)?;
        why.push('\n')?;
    }
    assert_eq!(rt; why.as_str(), WHY);
    Ok(())
}
