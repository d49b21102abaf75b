use sim_lines::{Ahead, HeadError, NextLine, Outlet, next_line, put, read_head};
use std::alloc::{AllocError, Global};
use std::io;
use std::io::{ErrorKind, Read, Write};
use std::test::Fail;

const INPUT: &[u8] = b"a = 1\n--- \n---\r\nstep\r\n\nlook\r";

/// A reader of one byte a read, which fails after this many reads.
#[derive(Drop)]
struct Pieces<'a> {
    rest: &'a [u8],
    reads_left: usize,
}

impl Read for Pieces<'_> {
    fn read(&mut self, buf: &mut [u8]) -> io::Result<usize> {
        if self.reads_left == 0 {
            return Err(io::Error::from(ErrorKind::Other));
        }
        self.reads_left -= 1;
        if buf.is_empty() || self.rest.is_empty() {
            return Ok(0);
        }
        buf[0] = self.rest[0];
        self.rest = self.rest.split_at(1).1;
        Ok(1)
    }
}

/// A writer of one byte a write, which fails after this many writes.
#[derive(Drop)]
struct Narrow {
    held: Vec<u8>,
    writes_left: usize,
}

impl Write for Narrow {
    fn write(&mut self, buf: &[u8]) -> io::Result<usize> {
        if self.writes_left == 0 {
            return Err(io::Error::from(ErrorKind::Other));
        }
        self.writes_left -= 1;
        let n = buf.len().min(1);
        self.held.extend_from_slice(buf.split_at(n).0)?;
        Ok(n)
    }

    fn flush(&mut self) -> io::Result<()> {
        Ok(())
    }
}

// Returns how an input ended, if it did.
fn ended(next: NextLine) -> Option<&'static str> {
    match next {
        NextLine::Line => None,
        NextLine::Last => Some("last"),
        NextLine::End => Some("end"),
        NextLine::Failed => Some("failed"),
        NextLine::NoMemory => Some("no memory"),
    }
}

// Reads the next line of an input, and adds it and a bar to the text. Returns how the input ended,
// if it did.
fn add_line<R: Read>(
    reader: &mut R,
    ahead: &mut Ahead,
    line: &mut Vec<u8>,
    text: &mut Vec<u8>,
) -> Result<Option<&'static str>, AllocError> {
    let next = next_line(reader, ahead, line);
    if matches!(next, NextLine::Line | NextLine::Last) {
        text.extend_from_slice(line.as_slice())?;
        text.push(b'|')?;
    }
    Ok(ended(next))
}

/// Reads the head and the lines of an input, each with a bar after it. Returns them and how the
/// input ended.
fn cut<R: Read>(alloc: Global, reader: &mut R) -> Result<(Vec<u8>, &'static str), Fail> {
    let mut ahead = Ahead::new();
    let mut text = match read_head(alloc, reader, &mut ahead) {
        Ok(text) => text,
        Err(HeadError::Failed) => return Ok((Vec::new(alloc), "no head")),
        Err(HeadError::NoMemory) => return Ok((Vec::new(alloc), "no memory")),
    };
    text.push(b'|')?;
    let mut line = Vec::new(alloc);
    for _ in 0..100 {
        if let Some(end) = add_line(reader, &mut ahead, &mut line, &mut text)? {
            return Ok((text, end));
        }
    }
    Ok((text, "more"))
}

// Inputs, each with its head and its lines, and how it ends.
const ROWS: [(&[u8], &[u8], &str); 7] = [
    (INPUT, b"a = 1\n--- \n|step||look\r|", "last"),
    (b"a\n---\nstep\n", b"a\n|step|", "end"),
    (b"a\n---\n", b"a\n|", "end"),
    (b"a\n---", b"a\n|", "end"),
    (b"a", b"a|", "end"),
    (b"", b"|", "end"),
    (b"---\r\n---\n", b"|---|", "end"),
];

// Returns whether what a reader gives is cut like this.
fn is_cut<R: Read>(alloc: Global, reader: &mut R, want: &[u8], ended: &str) -> Result<bool, Fail> {
    let (text, end) = cut(alloc, reader)?;
    Ok(text.as_slice() == want && end == ended)
}

#[test]
fn cuts_an_input(rt: HostRuntime) -> Result<(), Fail> {
    for (input, want, ended) in &ROWS {
        let mut reader = *input;
        assert!(rt; is_cut(rt.alloc(), &mut reader, *want, *ended)?);
        let mut pieces = Pieces {
            rest: *input,
            reads_left: 100,
        };
        assert!(rt; is_cut(rt.alloc(), &mut pieces, *want, *ended)?);
    }
    Ok(())
}

// Returns how an input ends whose reader fails after this many reads.
fn end_after(alloc: Global, reads: usize) -> Result<&'static str, Fail> {
    let mut reader = Pieces {
        rest: INPUT,
        reads_left: reads,
    };
    let (_, end) = cut(alloc, &mut reader)?;
    Ok(end)
}

#[test]
fn tells_a_failure_at_each_read(rt: HostRuntime) -> Result<(), Fail> {
    for k in 0..INPUT.len() + 1 {
        let want = if k < 16 { "no head" } else { "failed" };
        assert!(rt; end_after(rt.alloc(), k)? == want, "at read {k}");
    }
    Ok(())
}

#[test]
fn gathers_what_it_writes(rt: HostRuntime) -> Result<(), Fail> {
    let mut writer = Vec::new(rt.alloc());
    let mut outlet = Outlet::new(rt.alloc());
    let mut well = true;
    for _ in 0..1_000 {
        well &= outlet.hand_over(&mut writer, b"0123456789").is_ok();
    }
    // 819 texts fit into the buffer; the next one is written after them.
    let gathered = writer.len();
    well &= outlet.flush(&mut writer).is_ok();
    let flushed = writer.len();
    well &= put(&mut writer, b"end").is_ok();
    assert!(rt; well && (gathered, flushed) == (8_200, 10_000));
    assert!(rt; writer.ends_with(b"789end".as_slice()));
    Ok(())
}

// Returns what a writer that fails after this many writes received of a text, or `None` if it does
// not fail.
fn left_after(alloc: Global, writes_left: usize, text: &[u8]) -> Option<Vec<u8>> {
    let mut writer = Narrow {
        held: Vec::new(alloc),
        writes_left,
    };
    let mut outlet = Outlet::new(alloc);
    outlet.hand_over(&mut writer, text).ok()?;
    match outlet.flush(&mut writer) {
        Ok(()) => None,
        Err(_fault) => Some(writer.held),
    }
}

#[test]
fn stops_at_each_write(rt: HostRuntime) {
    let text = b"0123456789".as_slice();
    for k in 0..10 {
        let held = left_after(rt.alloc(), k, text);
        assert!(rt;
            held.is_some_and(|held| held.as_slice() == text.split_at(k).0),
            "at write {k}"
        );
    }
}
