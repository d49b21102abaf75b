//! The servers and the clients of a scenario, and their names.
use crate::explanation::KnownProtocol;
use crate::keys::explain_key;
use crate::sentences::{NAME, Part, items_at, tell, text_at, text_in, text_of};
use crate::tables::explain_item;
use sim_scenario::{Key, is_name};
use std::fmt;
use toml::{Table, Value};

/// The most hosts of a scenario.
pub const MAX_HOSTS: usize = 32;

// Returns the first item that is no string if `types`, else the first that is no name.
fn no_name(items: &[Value], types: bool) -> Option<usize> {
    for (i, item) in items.iter().enumerate() {
        let is_right = match item {
            Value::String(name) => types || is_name(name.as_str()),
            _ => false,
        };
        if !is_right {
            return Some(i);
        }
    }
    None
}

/// Writes which server has no name: its item is not a string if `types`, else it is a string that
/// is not a name.
pub fn explain_servers<W: fmt::Write>(
    f: &mut fmt::Formatter<W>,
    table: &Table,
    types: bool,
) -> fmt::Result {
    let at_fault = no_name(items_at(table, "servers"), types);
    explain_item(f, table, Key::Servers, at_fault, NAME)
}

/// Returns the name of the host with a number, the servers first, or `None` past the last host.
pub fn host_name(table: &Table, number: usize) -> Option<&str> {
    let servers = items_at(table, "servers");
    if number < servers.len() {
        text_of(servers.get(number))
    } else {
        text_in(
            items_at(table, "client").get(number - servers.len()),
            "name",
        )
    }
}

/// Returns the number of the first host with this name.
pub fn host_with(table: &Table, name: &str) -> Option<usize> {
    for number in 0..MAX_HOSTS {
        if host_name(table, number) == Some(name) {
            return Some(number);
        }
    }
    None
}

// Returns a host's place among the servers or the clients, and the word for them.
fn place(number: usize, servers: usize) -> (Part<'static>, Part<'static>) {
    if number < servers {
        (Part::Ordinal(number), Part::Words("server"))
    } else {
        (Part::Ordinal(number - servers), Part::Words("client"))
    }
}

// Returns the numbers of the first host whose name another has, and of that host.
fn equal_hosts(table: &Table) -> Option<(usize, usize)> {
    for number in 0..MAX_HOSTS {
        let first = host_with(table, host_name(table, number).unwrap_or("")).unwrap_or(number);
        if first != number {
            return Some((number, first));
        }
    }
    None
}

/// Writes which two hosts have one name.
pub fn explain_equal_names<W: fmt::Write>(f: &mut fmt::Formatter<W>, table: &Table) -> fmt::Result {
    let Some((number, first)) = equal_hosts(table) else {
        return Ok(());
    };
    let servers = items_at(table, "servers").len();
    let (which, what) = place(number, servers);
    let (other, other_what) = place(first, servers);
    let name = Part::Quoted(host_name(table, number).unwrap_or(""));
    tell(
        f,
        "the % % has the name %, as the % %; each has to have its own",
        &[which, what, name, other, other_what],
    )
}

// Returns the words for a number of servers.
fn servers_of(count: usize) -> Part<'static> {
    Part::Words(if count == 1 { "server" } else { "servers" })
}

// Returns the words for a number of clients.
fn clients_of(count: usize) -> Part<'static> {
    Part::Words(if count == 1 { "client" } else { "clients" })
}

// Returns the least servers of the protocol with this name.
fn least_servers(protocols: &[KnownProtocol], name: &str) -> Option<usize> {
    for protocol in protocols {
        if protocol.name == name {
            return Some(protocol.least_servers);
        }
    }
    None
}

// Writes that there are not as many servers as the protocol needs.
fn explain_few_servers<W: fmt::Write>(
    f: &mut fmt::Formatter<W>,
    table: &Table,
    servers: usize,
    protocols: &[KnownProtocol],
) -> fmt::Result {
    let named = text_at(table, "protocol");
    match least_servers(protocols, named) {
        Some(least) => tell(
            f,
            "servers has % %; % needs at least % %",
            &[
                Part::Count(servers),
                servers_of(servers),
                Part::Words(named),
                Part::Count(least),
                servers_of(least),
            ],
        ),
        None => explain_key(f, table, Key::Servers),
    }
}

/// Writes how many hosts there are, and how many there must be.
pub fn explain_host_count<W: fmt::Write>(
    f: &mut fmt::Formatter<W>,
    table: &Table,
    protocols: &[KnownProtocol],
) -> fmt::Result {
    let servers = items_at(table, "servers").len();
    let clients = items_at(table, "client").len();
    if servers.saturating_add(clients) <= MAX_HOSTS {
        return explain_few_servers(f, table, servers, protocols);
    }
    tell(
        f,
        "there are % % and % %; together they have to be at most 32",
        &[
            Part::Count(servers),
            servers_of(servers),
            Part::Count(clients),
            clients_of(clients),
        ],
    )
}
