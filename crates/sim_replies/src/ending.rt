//! A text that is written from its end to its front, since digits are computed from the last on.
ghost use Rattle.std.specs.Prelude.{◌≡◌, ◌+◌, ◌≤◌, ◌++◌, length, decimal};

use itoa::write_digits;
use std::marker::Model;

/// The greatest length of the text (bytes): seven numbers of up to 20 digits, and their words.
const ROOM: usize = 192;

/// The end of a line. Words and numbers are put before it.
#[derive(Drop)]
pub struct Ending {
    bytes: [u8; ROOM],
    start: usize,
}

impl Model for Ending {
    ghost use Rattle.std.specs.Prelude.{◌≤◌, drop};
    ghost use Rattle.sim_replies.specs.Ending.{Ending as Text};

    ghost Value = { Text };

    ghost view = { λ e. record { text = drop e.start e.bytes; room = e.start } };

    ghost invariant = { λ e. e.start ≤ 192 };
}

impl Ending {
    /// Makes an end of these words.
    #[inline(always)]
    pub fn of(words: &str) -> Ending
        requires { length words.now ≤ 192 }
        ensures text { result.text ≡ words.now }
        ensures room { result.room + length words.now ≡ 192 }
    {
        let mut bytes = [0; ROOM];
        let start = ROOM - words.len();
        bytes[start..].copy_from_slice(words.as_bytes());
        Ending { bytes, start }
    }

    /// Puts words before the text.
    #[inline(always)]
    pub fn put(&mut self, words: &str)
        requires { length words.now ≤ self.old.room }
        ensures text { self.new.text ≡ words.now ++ self.old.text }
        ensures room { self.new.room + length words.now ≡ self.old.room }
    {
        let end = self.start;
        self.start -= words.len();
        self.bytes[self.start..end].copy_from_slice(words.as_bytes());
    }

    /// Puts the digits of a number before the text.
    #[inline(always)]
    pub fn put_number(&mut self, number: u64)
        requires { 20 ≤ self.old.room }
        ensures text { self.new.text ≡ decimal number ++ self.old.text }
        ensures room { self.old.room ≤ self.new.room + 20 }
    {
        self.start = write_digits(number, &mut self.bytes, self.start);
    }

    /// Puts words and a number before the text.
    #[inline(always)]
    pub fn put_field(&mut self, words: &str, number: u64)
        requires { length words.now + 20 ≤ self.old.room }
        ensures text { self.new.text ≡ words.now ++ (decimal number ++ self.old.text) }
        ensures room { self.old.room ≤ self.new.room + (length words.now + 20) }
    {
        self.put_number(number);
        self.put(words);
    }

    /// Returns the text.
    #[inline(always)]
    pub fn as_bytes(&self) -> &[u8]
        ensures { result.now ≡ self.now.text }
    {
        &self.bytes[self.start..]
    }
}
