//! Shortens the texts of `Debug`, in which a long list is mostly the same element.
ghost use Rattle.std.specs.Prelude.{◌≤◌, length};

use sim_node::NoMemory;
use std::alloc::Global;

/// The least number of equal elements that are written as one.
const MIN_RUN: usize = 4;

// Returns the length of the first element of a list's text: up to a comma or a closing bracket that
// is not within the element.
fn element_len(text: &[u8]) -> usize
    ensures { result ≤ length text.now }
{
    let mut depth: usize = 0;
    for (i, byte) in text.iter().enumerate() {
        match *byte {
            b'(' | b'[' | b'{' => depth = depth.saturating_add(1),
            b')' | b']' | b'}' | b',' if depth == 0 => return i,
            b')' | b']' | b'}' => depth = depth.saturating_sub(1),
            _ => {}
        }
    }
    text.len()
}

// Returns how many elements at the front of a list's text are equal, and the text after them.
fn run_of(text: &[u8]) -> (usize, &[u8]) {
    let (first, mut rest) = text.split_at(element_len(text));
    let mut count: usize = 1;
    // Each round passes an element.
    for _element in 0..text.len() {
        let [b',', b' ', more @ ..] = rest else {
            break;
        };
        let (next, after) = more.split_at(element_len(more));
        if next != first {
            break;
        }
        count = count.saturating_add(1);
        rest = after;
    }
    (count, rest)
}

// Appends an element and the number of times that it comes.
fn push_run(alloc: Global, text: &[u8], count: usize, said: &mut Vec<u8>) -> Result<(), NoMemory> {
    let (first, _rest) = text.split_at(element_len(text));
    let times = format!(in alloc; " x {count}")?;
    said.extend_from_slice(first)?;
    said.extend_from_slice(times.as_bytes())
}

/// Returns a text of `Debug` with each run of four or more equal elements shortened, of a list, or
/// of a tuple from its second one on: `[7, None, None, None, None]` becomes `[7, None x 4]`. Fails
/// only for want of memory.
pub fn shortened(alloc: Global, text: &[u8]) -> Result<Vec<u8>, NoMemory> {
    let mut said = Vec::new(alloc);
    let mut rest = text;
    let mut last = b' ';
    let mut begins = false;
    // Each round passes a byte or a run.
    for _part in 0..text.len() {
        let [byte, more @ ..] = rest else {
            break;
        };
        let (count, after) = if begins { run_of(rest) } else { (1, more) };
        if count < MIN_RUN {
            said.push(*byte)?;
            begins = *byte == b'[' || (last == b',' && *byte == b' ');
            (last, rest) = (*byte, more);
        } else {
            push_run(alloc, rest, count, &mut said)?;
            (begins, rest) = (false, after);
        }
    }
    Ok(said)
}
