//! The names of hosts and probes, with their numbers.
ghost use Rattle.std.specs.Prelude.{◌≡◌, ◌≤◌, ◌<◌, ◌-◌, length, map, string_bytes, IfSome};
ghost use Rattle.std.specs.Prelude.{slice_index};
ghost use Rattle.std.specs.List.{position};
ghost use Rattle.std.specs.Str.{bytes_eq};
ghost use Rattle.sim_script.specs.Words.{named, host, probe};
ghost use Rattle.sim_script.specs.Words.{name_at, host_name, probe_name};

use sim_scenario::are_bytes_of_name;
use std::marker::Model;

/// The number for a name that no host has.
const NO_HOST: u16 = 65_535;

/// The number for a name that no probe has.
const NO_PROBE: u8 = 255;

/// The names of at most 32 hosts and of at most 255 probes, in the order of their numbers.
///
/// The hosts are in a list, since each crate that uses names would load the contracts of a map to
/// prove itself.
pub struct Names {
    hosts: Vec<String>,
    probes: Vec<String>,
}

// Not derived: a crate that drops names would prove the drop of the lists again.
impl Drop for Names {
    fn drop(self) {
        let Names {
            hosts: _hosts,
            probes: _probes,
        } = self;
    }
}

impl Model for Names {
    ghost use Rattle.std.specs.Prelude.{◌≤◌, length, map, string_bytes};
    ghost use Rattle.sim_script.specs.Words.{Names as NamesValue};

    ghost Value = { NamesValue };

    ghost view = { λ n. record {
      hosts = map string_bytes n.hosts.items;
      probes = map string_bytes n.probes.items;
    } };

    ghost invariant = { λ n. (length n.hosts.items ≤ 32) × (length n.probes.items ≤ 255) };
}

/// Returns whether a name is a word, whose last byte is `last`. Looks at the lengths and the last
/// bytes first: by these most names of hosts differ.
#[inline(always)]
fn is_word(name: &[u8], word: &[u8], last: u8) -> bool
    requires some { 0 < length word.now }
    requires last { slice_index word.now (length word.now - 1) ≡ last }
    ensures { result ≡ bytes_eq word.now name.now }
{
    name.len() == word.len() && name[name.len() - 1] == last && word == name
}

/// Returns the number of the first name that equals the word, which has a byte or more.
fn position_of(names: &[String], word: &[u8]) -> Option<usize>
    requires { 0 < length word.now }
    ensures is { result ≡ position (bytes_eq word.now) (map string_bytes names.now) }
    ensures within { IfSome result (λ number. number < length names.now) }
{
    let last = word[word.len() - 1];
    for (i, name) in names.iter().enumerate() {
        if is_word(name.as_bytes(), word, last) {
            return Some(i);
        }
    }
    None
}

/// Returns the name with this number, or an empty text.
fn name_of(names: &[String], number: usize) -> &str
    ensures { result.now ≡ name_at (map string_bytes names.now) number }
{
    if number < names.len() {
        names[number].as_str()
    } else {
        ""
    }
}

impl Names {
    /// Makes a table of the names of at most 32 hosts and of at most 255 probes, both in the order
    /// of their numbers.
    pub fn new(hosts: Vec<String>, probes: Vec<String>) -> Names
        requires hosts { length hosts.items ≤ 32 }
        requires probes { length probes.items ≤ 255 }
        ensures { result ≡ record {
          hosts = map string_bytes hosts.items;
          probes = map string_bytes probes.items;
        } }
    {
        Names { hosts, probes }
    }

    /// Returns the number of the host that the word names, or 65,535 if no host has this name.
    /// Returns `None` if the word is no name.
    #[tactic(auto, unfolding(crate::specs::Words::named))]
    pub fn host(&self, word: &[u8]) -> Option<u16>
        ensures { result ≡ host self.now word.now }
    {
        if !are_bytes_of_name(word) {
            return None;
        }
        match position_of(self.hosts.as_slice(), word) {
            Some(number) => Some(number as u16),
            None => Some(NO_HOST),
        }
    }

    /// Returns the number of the probe that the word names, or 255 if no probe has this name.
    /// Returns `None` if the word is no name.
    #[tactic(auto, unfolding(crate::specs::Words::named))]
    pub fn probe(&self, word: &[u8]) -> Option<u8>
        ensures { result ≡ probe self.now word.now }
    {
        if !are_bytes_of_name(word) {
            return None;
        }
        match position_of(self.probes.as_slice(), word) {
            Some(number) => Some(number as u8),
            None => Some(NO_PROBE),
        }
    }

    /// Returns the names of the hosts, in the order of their numbers.
    pub(crate) fn hosts(&self) -> &[String] {
        self.hosts.as_slice()
    }

    /// Returns the names of the probes, in the order of their numbers.
    pub(crate) fn probes(&self) -> &[String] {
        self.probes.as_slice()
    }

    /// Returns the name of a host, or an empty text if there is no such host.
    pub fn host_name(&self, host: u16) -> &str
        ensures { result.now ≡ host_name self.now host }
    {
        name_of(self.hosts.as_slice(), usize::from(host))
    }

    /// Returns the name of a probe, or an empty text if there is no such probe.
    pub fn probe_name(&self, probe: u8) -> &str
        ensures { result.now ≡ probe_name self.now probe }
    {
        name_of(self.probes.as_slice(), usize::from(probe))
    }
}
