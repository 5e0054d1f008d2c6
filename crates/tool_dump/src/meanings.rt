// What an item says, in words.
use crate::items::{Item, Role};
use cbor::{Head, Kind};
use output::Output;
use tool_messages::{Address, Count, Negative, Quoted, SchemeName};

// The kind of an item, by its first byte.
fn kind_name(first: &[u8]) -> &'static str {
    match first {
        [0x00..=0x1f, ..] => "number",
        [0x20..=0x3f, ..] => "negative number",
        [0x40..=0x5f, ..] => "byte string",
        [0x60..=0x7f, ..] => "text",
        [0x80..=0x9f, ..] => "array",
        [0xa0..=0xbf, ..] => "map",
        [0xc0..=0xdf, ..] => "tag",
        _ => "simple value or float",
    }
}

// "number 5"
fn say_any(out: &mut Output, item: Item<'_>) {
    let name = kind_name(item.first);
    let Some(Head { kind, value, .. }) = item.head else {
        return write!(out, "{name}");
    };
    match kind {
        Kind::True => write!(out, "true"),
        Kind::Null => write!(out, "null"),
        Kind::Number => write!(out, "{name} {value}"),
        Kind::Negative => write!(out, "{name} {}", Negative(value)),
        Kind::Array => write!(out, "{name} of {}", Count(value, "item")),
        _ => write!(out, "{name}"),
    }
}

// "segment 1: number 5", of an item that may not stand there.
fn say_other(out: &mut Output, item: Item<'_>) {
    write!(out, "{}: ", item.place);
    say_any(out, item);
}

// An item of an authority, a path or a query.
fn say_inner(out: &mut Output, item: Item<'_>, index: usize, head: Head) {
    let content = item.content;
    match (item.place.role, head.kind) {
        (Role::Authority, Kind::ByteString) if matches!(content.len(), 4 | 16) => {
            write!(out, "address {}", Address(content))
        }
        (Role::Authority, Kind::ByteString) => write!(out, "address"),
        (Role::Authority, Kind::Text) => write!(out, "label {index} {}", Quoted(content)),
        (Role::Authority, Kind::Number) => write!(out, "port {}", head.value),
        (_, Kind::Text) => write!(out, "{} {}", item.place, Quoted(content)),
        _ => say_other(out, item),
    }
}

// An item of the link, or the link itself.
fn say_outer(out: &mut Output, item: Item<'_>, head: Head) {
    let content = item.content;
    let value = head.value;
    match (item.place.role, head.kind) {
        (Role::Link, _) => say_any(out, item),
        (Role::Opening, Kind::Number) => write!(out, "discard {}", Count(value, "segment")),
        (Role::Opening, Kind::True) => write!(out, "discard all segments"),
        (Role::Opening, Kind::Negative) => {
            write!(out, "scheme number {value}: {}", SchemeName(value))
        }
        (Role::Opening, Kind::Text) => write!(out, "scheme {}", Quoted(content)),
        (Role::Opening, Kind::Null) => write!(out, "scheme unset"),
        (Role::Authority, Kind::Array) => write!(out, "authority, {}", Count(value, "item")),
        (Role::Path, Kind::Array) => write!(out, "path, {}", Count(value, "segment")),
        (Role::Query, Kind::Array) => write!(out, "query, {}", Count(value, "parameter")),
        (Role::Fragment, Kind::Text) => write!(out, "fragment {}", Quoted(content)),
        (Role::Path | Role::Query | Role::Fragment, Kind::Null) => {
            write!(out, "{} unset", item.place)
        }
        _ => say_other(out, item),
    }
}

// How many bytes stand after the link.
fn say_after(out: &mut Output, item: Item<'_>) {
    let count = item.bytes.len() as u64;
    write!(out, "{} after the array", Count(count, "byte"));
}

// What the item says; what it is for, and what it is, where it can't be that.
pub fn say_meaning(out: &mut Output, item: Item<'_>) {
    let place = item.place;
    if place.role == Role::After {
        return say_after(out, item);
    }
    match item.head {
        Some(head) => match place.inner {
            Some(inner) => say_inner(out, item, inner.index, head),
            None => say_outer(out, item, head),
        },
        None if place.role == Role::Link => say_any(out, item),
        None => say_other(out, item),
    }
}
