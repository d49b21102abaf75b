//! The links of a scenario, beside its hosts and each other.
use crate::hosts::host_with;
use crate::sentences::{Part, items_at, tell, text_in};
use std::fmt;
use toml::{Table, Value};

// Returns the name at a key of a link, or an empty text.
fn end_of<'a>(item: &'a Value, key: &str) -> &'a str {
    text_in(Some(item), key).unwrap_or("")
}

// Returns the key of the first end of a link that is not a host, if there is one.
fn no_host(table: &Table, item: &Value) -> Option<&'static str> {
    for key in ["source", "target"] {
        if host_with(table, end_of(item, key)).is_none() {
            return Some(key);
        }
    }
    None
}

// Writes that an end of a link is not a host, and which hosts there are.
fn explain_no_host<'a, W: fmt::Write>(
    f: &mut fmt::Formatter<W>,
    table: &'a Table,
    which: usize,
    key: &'static str,
    end: &'a str,
) -> fmt::Result {
    tell(
        f,
        "the % link's % is %; it has to be one of %",
        &[
            Part::Ordinal(which),
            Part::Words(key),
            Part::Quoted(end),
            Part::Hosts(table),
        ],
    )
}

// Writes that a link goes from a host to that host.
fn explain_loop<W: fmt::Write>(f: &mut fmt::Formatter<W>, which: usize, host: &str) -> fmt::Result {
    tell(
        f,
        "the % link goes from % to %; it has to go to another host",
        &[Part::Ordinal(which), Part::Words(host), Part::Words(host)],
    )
}

/// Writes which link has an end that is not a host, or two ends that are the same host.
pub fn explain_bad_link<W: fmt::Write>(f: &mut fmt::Formatter<W>, table: &Table) -> fmt::Result {
    for (i, item) in items_at(table, "link").iter().enumerate() {
        if let Some(key) = no_host(table, item) {
            return explain_no_host(f, table, i, key, end_of(item, key));
        }
        let source = end_of(item, "source");
        if source == end_of(item, "target") {
            return explain_loop(f, i, source);
        }
    }
    Ok(())
}

// Returns whether two links go from the same host to the same other.
fn is_same_direction(link: &Value, other: &Value) -> bool {
    end_of(link, "source") == end_of(other, "source")
        && end_of(link, "target") == end_of(other, "target")
}

// Returns the first link that goes as this one does.
fn first_like(links: &[Value], link: &Value) -> Option<usize> {
    for (i, other) in links.iter().enumerate() {
        if is_same_direction(link, other) {
            return Some(i);
        }
    }
    None
}

/// Writes which two links have the same direction.
pub fn explain_repeated_link<W: fmt::Write>(
    f: &mut fmt::Formatter<W>,
    table: &Table,
) -> fmt::Result {
    let links = items_at(table, "link");
    for (i, link) in links.iter().enumerate() {
        let first = first_like(links, link).unwrap_or(i);
        if first != i {
            return tell(
                f,
                "the % link goes from % to %, as the % does; a direction has at most one link",
                &[
                    Part::Ordinal(i),
                    Part::Words(end_of(link, "source")),
                    Part::Words(end_of(link, "target")),
                    Part::Ordinal(first),
                ],
            );
        }
    }
    Ok(())
}
