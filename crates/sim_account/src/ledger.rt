//! The numbers that decide the fates of effects.
ghost use Rattle.std.specs.Prelude.{◌≡◌, ◌+◌, ◌<◌, ◌≤◌, ◌^◌, nat_le, if◌then◌else◌};

use crate::fate::Fate;
use sim_disk::MAX_DISK_BYTES;

/// The numbers that decide the fates of the effects still to come in a reaction.
#[derive(Clone, Copy)]
pub struct Ledger {
    // The time of the reaction (ms).
    pub(crate) clock: u64,
    // The number of words of the network's stream that the messages so far take.
    pub(crate) words: u32,
    // The serial of the next occurrence.
    pub(crate) serial: u64,
    // The number of messages in flight and held.
    pub(crate) messages: u32,
    // The number of the host's writes that no sync covers.
    pub(crate) unasked: u32,
}

impl Ledger {
    // Returns that something is pending after a delay in milliseconds. It takes the next serial.
    pub(crate) fn pending(&mut self, delay: u64) -> Fate
        requires clock { self.old.clock + delay < 2 ^ 64 }
        requires serial { self.old.serial < 2 ^ 40 }
        ensures fate { result ≡ Fate.Pending (self.old.clock + delay) self.old.serial }
        ensures after { self.new ≡ record self.old { serial = self.old.serial + 1 } }
    {
        let serial = self.serial;
        self.serial += 1;
        Fate::Pending {
            due: self.clock + delay,
            serial,
        }
    }

    // Returns that a message is pending after a delay in milliseconds.
    pub(crate) fn in_flight(&mut self, delay: u64) -> Fate
        requires clock { self.old.clock + delay < 2 ^ 64 }
        requires serial { self.old.serial < 2 ^ 40 }
        requires messages { self.old.messages < 2 ^ 31 }
        ensures fate { result ≡ Fate.Pending (self.old.clock + delay) self.old.serial }
        ensures after { self.new ≡ record self.old {
          serial = self.old.serial + 1;
          messages = self.old.messages + 1;
        } }
    {
        self.messages += 1;
        self.pending(delay)
    }

    // Returns the fate of a write of `len` bytes.
    pub(crate) fn write(&mut self, offset: u32, len: u32) -> Fate
        requires room { self.old.unasked < 2 ^ 24 }
        requires len { len ≤ 64 }
        ensures fate { result ≡ (if nat_le (offset + len) 4096 then Fate.Added else Fate.Skipped) }
        ensures after { self.new ≡ (if nat_le (offset + len) 4096
            then record self.old { unasked = self.old.unasked + 1 } else self.old) }
    {
        if u64::from(offset) + u64::from(len) > u64::from(MAX_DISK_BYTES) {
            return Fate::Skipped;
        }
        self.unasked += 1;
        Fate::Added
    }

    // Returns the fate of a sync of this latency (ms), which covers all writes that none covers
    // yet.
    pub(crate) fn sync(&mut self, latency: u32) -> Fate
        requires clock { self.old.clock < 2 ^ 40 }
        requires serial { self.old.serial < 2 ^ 40 }
        ensures fate { result ≡ Fate.Asked (self.old.clock + latency) self.old.serial
            self.old.unasked }
        ensures after { self.new ≡ record self.old { serial = self.old.serial + 1; unasked = 0 } }
    {
        let (serial, count) = (self.serial, self.unasked);
        self.serial += 1;
        self.unasked = 0;
        Fate::Asked {
            due: self.clock + u64::from(latency),
            serial,
            count,
        }
    }
}
