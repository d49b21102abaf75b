//! The hosts of a scenario: their names, their numbers, and the operations of the clients.
ghost use Rattle.std.specs.Prelude.{◌≡◌, ℕ, ◌+◌, ◌≤◌, ◌||◌, List, [], map, length, replicate, ◌++◌};
ghost use Rattle.std.specs.Prelude.{IfOk, OnOk, string_bytes, vec_len, position, slice_get};
ghost use Rattle.std.specs.Option.{option_map, option_copied};
ghost use Rattle.std.specs.List.{list_all};
ghost use Rattle.toml.specs.Data.{as_str, as_table, same_key};
ghost use Rattle.toml.specs.View.{view, table_view};
ghost use Rattle.sim_scenario.specs.Faults as faults;
ghost use Rattle.sim_scenario.specs.Scenario as scenario;
ghost use Rattle.sim_scenario.specs.Parts as parts;
ghost use Rattle.sim_scenario.specs.Hosts.{names_in, IsNumbered};

use crate::fault::{Key, ScenarioFault};
use crate::fields::{field, number_at, text_at, unknown_key};
use crate::{NoMemory, Protocols};
use indexmap::IndexMap;
use std::alloc::Global;
use toml::{Table, Value};

/// Returns whether a text is a name: 1 to 16 small letters and digits, the first a letter.
pub fn is_name(text: &str) -> bool
    ensures { result ≡ scenario.is_name text.now }
{
    are_bytes_of_name(text.as_bytes())
}

/// Returns whether these are the bytes of a name.
pub fn are_bytes_of_name(bytes: &[u8]) -> bool
    ensures { result ≡ scenario.is_name bytes.now }
{
    bytes.len() <= 16 && begins_with_letter(bytes) && are_name_bytes(bytes)
}

fn begins_with_letter(bytes: &[u8]) -> bool
    ensures { result ≡ scenario.begins_with_letter bytes.now }
{
    match bytes.first() {
        Some(first) => first.is_ascii_lowercase(),
        None => false,
    }
}

fn are_name_bytes(bytes: &[u8]) -> bool
    ensures { result ≡ list_all (λ c. scenario.is_letter c || scenario.is_digit c) bytes.now }
{
    bytes
        .iter()
        .all(|b| b.is_ascii_lowercase() || b.is_ascii_digit())
}

/// Returns the texts of an array of texts, or `None` if the value is anything else.
fn texts(alloc: Global, value: &Value) -> Result<Option<Vec<String>>, NoMemory>
    ensures { IfOk result (λ found. option_map (λ texts. map string_bytes texts.items) found
        ≡ scenario.list_of as_str (view value.now)) }
{
    match value.as_array() {
        Some(items) => item_texts(alloc, items.as_slice()),
        None => Ok(None),
    }
}

fn item_texts(alloc: Global, items: &[Value]) -> Result<Option<Vec<String>>, NoMemory>
    ensures { IfOk result (λ found. option_map (λ texts. map string_bytes texts.items) found
        ≡ scenario.all_some (λ v. as_str (view v)) items.now) }
{
    let mut texts = Vec::new(alloc);
    for item in items {
        let Some(text) = item.as_str() else {
            return Ok(None);
        };
        texts.push(String::from_str(alloc, text)?)?;
    }
    Ok(Some(texts))
}

/// Returns the tables of an array of tables, or `None` if the value is anything else.
pub fn tables(alloc: Global, value: &Value) -> Result<Option<Vec<&Table>>, NoMemory>
    ensures { IfOk result (λ found. option_map (λ tables. map (λ t. table_view t.now) tables.items)
        found ≡ scenario.list_of as_table (view value.now)) }
{
    match value.as_array() {
        Some(items) => item_tables(alloc, items.as_slice()),
        None => Ok(None),
    }
}

fn item_tables(alloc: Global, items: &[Value]) -> Result<Option<Vec<&Table>>, NoMemory>
    ensures { IfOk result (λ found.
        option_map (λ tables. map (λ t. table_view t.now) tables.items) found
        ≡ scenario.all_some (λ v. as_table (view v)) items.now) }
{
    let mut tables = Vec::new(alloc);
    for item in items {
        let Some(table) = item.as_table() else {
            return Ok(None);
        };
        tables.push(table)?;
    }
    Ok(Some(tables))
}

/// Returns the names of the servers, one or more.
#[tactic(auto, unfolding(crate::specs::Parts::servers_of))]
pub fn server_names(alloc: Global, table: &Table) -> Result<Vec<String>, ScenarioFault>
    ensures { faults.Gives (λ names. map string_bytes names.items) result
        (parts.servers_of (table_view table.now)) }
{
    let Some(value) = field(table, "servers") else {
        return Err(ScenarioFault::Missing(Key::Servers));
    };
    let Some(names) = texts(alloc, value)? else {
        return Err(ScenarioFault::WrongType(Key::Servers));
    };
    if names.is_empty() {
        return Err(ScenarioFault::OutOfRange(Key::Servers));
    }
    if !are_names(names.as_slice()) {
        return Err(ScenarioFault::BadName(Key::Servers));
    }
    Ok(names)
}

fn are_names(texts: &[String]) -> bool
    ensures { result ≡ list_all (λ t. scenario.is_name (string_bytes t)) texts.now }
{
    texts.iter().all(|text| is_name(text.as_str()))
}

#[derive(Clone, Copy)]
struct ClientText<'a> {
    name: &'a str,
    operations: u16,
}

/// Checks that a client has no key but its name and its operations.
#[tactic(auto, unfolding(crate::specs::Parts::client_keys_of))]
fn known_client_keys(table: &Table) -> Result<(), ScenarioFault>
    ensures { faults.Gives (λ n. n) result (parts.client_keys_of (table_view table.now)) }
{
    match unknown_key(table, &["name", "ops"]) {
        Some(_) => Err(ScenarioFault::UnknownClientKey),
        None => Ok(()),
    }
}

/// Returns a client's name.
#[tactic(auto, unfolding(crate::specs::Parts::client_name_of))]
fn client_name(table: &Table) -> Result<&str, ScenarioFault>
    ensures { faults.Gives (λ name. name.now) result (parts.client_name_of (table_view table.now)) }
{
    let name = text_at(table, "name", Key::Client)?;
    if is_name(name) {
        Ok(name)
    } else {
        Err(ScenarioFault::BadName(Key::Client))
    }
}

/// Returns a client's name and its operations.
#[tactic(auto, unfolding(crate::specs::Parts::client_of))]
fn client(table: &Table) -> Result<ClientText<'_>, ScenarioFault>
    ensures { faults.Gives (λ client. (client.name.now, client.operations)) result
        (parts.client_of (table_view table.now)) }
{
    known_client_keys(table)?;
    let name = client_name(table)?;
    let operations = number_at(table, "ops", Key::Client, 1, 1_000)?;
    Ok(ClientText {
        name,
        operations: operations as u16,
    })
}

/// The names of all hosts, the servers first, and the operations of the clients.
#[derive(Drop)]
pub struct Hosts {
    pub names: Vec<String>,
    pub operations: Vec<u16>,
}

/// Returns the servers with the clients of a text, one or more.
pub fn all_hosts(alloc: Global, table: &Table, servers: Vec<String>) -> Result<Hosts, ScenarioFault>
    ensures said { faults.Gives (λ hosts. (
      map string_bytes hosts.names.items,
      hosts.operations.items,
    )) result
        (parts.clients_of (map string_bytes servers.items) (table_view table.now)) }
    ensures counted { IfOk result (λ hosts. vec_len hosts.names ≡ vec_len servers
        + vec_len hosts.operations) }
{
    let Some(value) = field(table, "client") else {
        return Err(ScenarioFault::Missing(Key::Client));
    };
    let Some(tables) = tables(alloc, value)? else {
        return Err(ScenarioFault::WrongType(Key::Client));
    };
    if tables.is_empty() {
        return Err(ScenarioFault::OutOfRange(Key::Client));
    }
    with_clients(alloc, servers, tables.as_slice())
}

fn with_clients(
    alloc: Global,
    servers: Vec<String>,
    tables: &[&Table],
) -> Result<Hosts, ScenarioFault>
    ensures said { faults.Gives (λ hosts. (
      map string_bytes hosts.names.items,
      hosts.operations.items,
    )) result
        (parts.listed (map string_bytes servers.items) []
        (map (λ t. table_view t.now) tables.now)) }
    ensures counted { IfOk result (λ hosts. vec_len hosts.names ≡ vec_len servers
        + vec_len hosts.operations) }
{
    let mut names = servers;
    let mut operations = Vec::new(alloc);
    for table in tables {
        let client = client(table)?;
        names.push(String::from_str(alloc, client.name)?)?;
        operations.push(client.operations)?;
    }
    Ok(Hosts { names, operations })
}

/// Returns the number of each host, by its name, in the order of the names.
pub fn number_hosts(
    alloc: Global,
    names: Vec<String>,
    servers: usize,
) -> Result<IndexMap<String, u16>, ScenarioFault>
    requires { vec_len names ≤ 32 }
    ensures differing { faults.Gives (λ hosts. names_in hosts) result
        (parts.differing servers (map string_bytes names.items)) }
    ensures numbered { IfOk result (λ hosts. IsNumbered hosts) }
{
    let mut hosts = IndexMap::new(alloc);
    for name in names {
        let number = hosts.len();
        if hosts.insert(name, number as u16)?.is_some() {
            let key = if number < servers {
                Key::Servers
            } else {
                Key::Client
            };
            return Err(ScenarioFault::EqualNames(key));
        }
    }
    Ok(hosts)
}

/// Returns the operations of each host: none for a server, then those of the clients.
pub fn host_operations(servers: usize, clients: &[u16]) -> [u16; 32]
    requires { servers + length clients.now ≤ 32 }
    ensures { result ≡ scenario.first_32 (replicate servers 0 ++ clients.now) }
{
    let mut operations = [0; 32];
    for (i, count) in clients.iter().enumerate() {
        operations[servers + i] = *count;
    }
    operations
}

/// Checks that there are at most 32 hosts, and as many servers as the protocol needs.
#[tactic(auto, unfolding(crate::specs::Parts::count_of))]
pub fn fitting<P: Protocols>(
    protocol: usize,
    servers: usize,
    hosts: usize,
) -> Result<(), ScenarioFault>
    ensures said { faults.Gives (λ n. n) result (parts.count_of P.listed protocol servers hosts) }
    ensures few { OnOk result (hosts ≤ 32) }
{
    if hosts > 32 || servers < P::least_servers(protocol) {
        return Err(ScenarioFault::HostCount);
    }
    Ok(())
}

/// Returns the number of the host with a name, or `None` if no host has it.
pub fn host_number(hosts: &IndexMap<String, u16>, name: &str) -> Option<u16>
    requires { IsNumbered hosts.now }
    ensures { result ≡ position (same_key name.now) (names_in hosts.now) }
{
    hosts.get(name).copied()
}

/// Returns the name of the host with a number, or `None` if there are not as many hosts.
pub fn host_name(hosts: &IndexMap<String, u16>, number: u16) -> Option<&str>
    ensures { option_copied result ≡ slice_get (names_in hosts.now) number }
{
    match hosts.get_index(usize::from(number)) {
        Some((name, _)) => Some(name.as_str()),
        None => None,
    }
}
