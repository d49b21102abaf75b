//! One write: an offset and 1 to 64 bytes, held in place.
ghost use Rattle.std.specs.Prelude.{◌≡◌, ◌<◌, ◌≤◌, length, take};

use std::marker::Model;

// A write that is not stable yet.
#[derive(Drop)]
pub(crate) struct Write {
    offset: u32,
    len: u8,
    bytes: [u8; 64],
}

impl Model for Write {
    ghost use Rattle.std.specs.Prelude.{◌<◌, ◌≤◌, take};
    ghost use Rattle.sim_disk.specs.Disk as disk;

    ghost Value = { disk.Write };

    ghost view = { λ a. record { offset = a.offset; bytes = take a.len a.bytes } };

    ghost invariant = { λ a. (0 < a.len) × (a.len ≤ 64) };
}

impl Write {
    pub(crate) fn new(offset: u32, bytes: &[u8]) -> Write
        requires some { 0 < length bytes.now }
        requires small { length bytes.now ≤ 64 }
        ensures { result ≡ record { offset = offset; bytes = bytes.now } }
    {
        let mut all = [0; 64];
        all[..bytes.len()].copy_from_slice(bytes);
        Write {
            offset,
            len: bytes.len() as u8,
            bytes: all,
        }
    }

    pub(crate) fn offset(&self) -> u32
        ensures { result ≡ self.now.offset }
    {
        self.offset
    }

    pub(crate) fn bytes(&self) -> &[u8]
        ensures bytes { result.now ≡ self.now.bytes }
        ensures some { 0 < length result.now }
        ensures small { length result.now ≤ 64 }
    {
        &self.bytes[..self.len as usize]
    }

    pub(crate) fn copy(&self) -> Write
        ensures { result ≡ self.now }
    {
        Write {
            offset: self.offset,
            len: self.len,
            bytes: self.bytes,
        }
    }
}
