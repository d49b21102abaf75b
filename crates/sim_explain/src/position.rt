//! Lines and columns.

/// The line and the column of a place in a text, both from 1. A column counts characters.
#[derive(Clone, Copy)]
pub struct Position {
    pub line: usize,
    pub column: usize,
    /// Whether the last byte before the place that is no blank is a `=`.
    pub follows_equals: bool,
}

impl Position {
    /// Returns the position after the first `bytes` bytes of a text.
    pub fn behind(text: &[u8], bytes: usize) -> Position {
        let mut line: usize = 1;
        let mut column: usize = 1;
        let mut last = b' ';
        for byte in text.iter().take(bytes) {
            match *byte {
                b'\n' => {
                    line = line.saturating_add(1);
                    column = 1;
                }
                0x80..=0xBF => {}
                _ => column = column.saturating_add(1),
            }
            if !matches!(*byte, b' ' | b'\t') {
                last = *byte;
            }
        }
        Position {
            line,
            column,
            follows_equals: last == b'=',
        }
    }
}
