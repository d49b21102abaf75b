//! The faults of the text of a scenario.
ghost use Rattle.std.specs.Prelude.{◌≡◌, Some};
ghost use Rattle.sim_scenario.specs.Faults.{key_text, fault_of};

use std::alloc::{AllocError, AllocFailed};
use std::fmt;
use thiserror::Error;

/// The keys of a scenario, in the order in which their faults are checked.
#[derive(Clone, Copy, Debug)]
pub enum Key {
    Format,
    Seed,
    Protocol,
    Tick,
    LatencyMin,
    LatencyMax,
    Loss,
    Servers,
    Checkpoint,
    Window,
    Client,
    DiskLatency,
    Link,
}

impl Key {
    /// Returns the key as written in a text.
    pub fn text(self) -> &'static str
        ensures { result.now ≡ key_text self }
    {
        match self {
            Key::Format => "format",
            Key::Seed => "seed",
            Key::Protocol => "protocol",
            Key::Tick => "tick",
            Key::LatencyMin => "latency_min",
            Key::LatencyMax => "latency_max",
            Key::Loss => "loss",
            Key::Servers => "servers",
            Key::Checkpoint => "checkpoint",
            Key::Window => "window",
            Key::Client => "client",
            Key::DiskLatency => "disk_latency",
            Key::Link => "link",
        }
    }
}

impl fmt::Display for Key {
    ghost output = { λ key. Some (key_text key) };

    fn fmt<W: fmt::Write>(&self, f: &mut fmt::Formatter<W>) -> fmt::Result {
        f.write_str(self.text())
    }
}

/// The first fault of the text of a scenario, or want of memory.
#[derive(Debug, Drop, Error)]
pub enum ScenarioFault {
    #[error("the text is longer than 65,536 bytes")]
    TooLong,
    #[error("the text is not TOML")]
    NotToml,
    #[error("there is an unknown key, `{0}`")]
    UnknownKey(String),
    #[error("a client has an unknown key")]
    UnknownClientKey,
    #[error("a link has an unknown key")]
    UnknownLinkKey,
    #[error("there is no key `{0}`")]
    Missing(Key),
    #[error("a value has the wrong type, at `{0}`")]
    WrongType(Key),
    #[error("the seed is not 64 hexadecimal digits")]
    BadSeed,
    #[error("the protocol is unknown")]
    UnknownProtocol,
    #[error("the format is unknown")]
    UnknownFormat,
    #[error("a number or a count is out of range, at `{0}`")]
    OutOfRange(Key),
    #[error("a name is bad, at `{0}`")]
    BadName(Key),
    #[error("there are more than 32 hosts, or too few servers for the protocol")]
    HostCount,
    #[error("two names are equal, the second at `{0}`")]
    EqualNames(Key),
    #[error("a link's source or target is no host, or both are one")]
    BadLink,
    #[error("two links go from one host to one other")]
    RepeatedLink,
    #[error("out of memory")]
    NoMemory,
}

impl From<AllocError> for ScenarioFault {
    ghost use Rattle.sim_scenario.specs.declared.fault.ScenarioFault.TheVariants as reader;

    ghost from_gives = { λ _ e. e ≡ reader.NoMemory };

    fn from(_error: AllocError) -> ScenarioFault {
        ScenarioFault::NoMemory
    }
}

impl<T: Drop> From<AllocFailed<T>> for ScenarioFault {
    ghost use Rattle.sim_scenario.specs.declared.fault.ScenarioFault.TheVariants as reader;

    ghost from_gives = { λ _ e. e ≡ reader.NoMemory };

    fn from(_failed: AllocFailed<T>) -> ScenarioFault {
        ScenarioFault::NoMemory
    }
}

impl ScenarioFault {
    /// Returns the number of the fault, 1 to 14, or 0 for want of memory, which is no fault of the
    /// text.
    pub fn number(&self) -> u8
        ensures { result ≡ (fault_of self.now).number }
    {
        match self {
            ScenarioFault::TooLong => 1,
            ScenarioFault::NotToml => 2,
            ScenarioFault::UnknownKey(_)
            | ScenarioFault::UnknownClientKey
            | ScenarioFault::UnknownLinkKey => 3,
            ScenarioFault::Missing(_) => 4,
            ScenarioFault::WrongType(_) => 5,
            ScenarioFault::BadSeed => 6,
            ScenarioFault::UnknownProtocol => 7,
            ScenarioFault::UnknownFormat => 8,
            ScenarioFault::OutOfRange(_) => 9,
            ScenarioFault::BadName(_) => 10,
            ScenarioFault::HostCount => 11,
            ScenarioFault::EqualNames(_) => 12,
            ScenarioFault::BadLink => 13,
            ScenarioFault::RepeatedLink => 14,
            ScenarioFault::NoMemory => 0,
        }
    }

    /// Returns the key that is written with the number: the key at fault, `text` for a text that is
    /// too long or not TOML, or `memory` for want of memory. An unknown key is returned unchanged.
    pub fn key(&self) -> &str
        ensures { result.now ≡ (fault_of self.now).key }
    {
        match self {
            ScenarioFault::TooLong | ScenarioFault::NotToml => "text",
            ScenarioFault::UnknownKey(key) => key.as_str(),
            ScenarioFault::Missing(key)
            | ScenarioFault::WrongType(key)
            | ScenarioFault::OutOfRange(key)
            | ScenarioFault::BadName(key)
            | ScenarioFault::EqualNames(key) => key.text(),
            ScenarioFault::BadSeed => Key::Seed.text(),
            ScenarioFault::UnknownProtocol => Key::Protocol.text(),
            ScenarioFault::UnknownFormat => Key::Format.text(),
            ScenarioFault::HostCount => Key::Servers.text(),
            ScenarioFault::UnknownClientKey => Key::Client.text(),
            ScenarioFault::UnknownLinkKey | ScenarioFault::BadLink | ScenarioFault::RepeatedLink =>
                Key::Link.text(),
            ScenarioFault::NoMemory => "memory",
        }
    }
}
