// A link in CBOR diagnostic notation (STD 94, section 8).
use crate::items::{Item, Items, Role};
use cbor::{Head, Kind};
use output::Output;
use tool_messages::Negative;

// A text, as a string of JSON. The reader accepts no text that is not UTF-8.
fn say_string(out: &mut Output, text: &[u8]) {
    out.byte(b'"');
    for c in std::str::from_utf8(text).unwrap_or("").chars() {
        match c {
            '"' => write!(out, "\\\""),
            '\\' => write!(out, "\\\\"),
            c if c.is_control() => write!(out, "\\u{:04x}", c as u32),
            c => write!(out, "{c}"),
        }
    }
    out.byte(b'"');
}

// An item; of an array the bracket before its items.
fn say_item(out: &mut Output, head: Head, content: &[u8]) {
    let value = head.value;
    match head.kind {
        Kind::Number => write!(out, "{value}"),
        Kind::Negative => write!(out, "{}", Negative(value)),
        Kind::ByteString => {
            out.text(b"h'");
            out.hex(content);
            out.text(b"'")
        }
        Kind::Text => say_string(out, content),
        Kind::Array => out.byte(b'['),
        Kind::True => write!(out, "true"),
        Kind::Null => write!(out, "null"),
        Kind::Other => {}
    }
}

// Whether an item is in an array in the link, or is one.
fn is_inner(item: Item<'_>, head: Head) -> bool {
    item.place.inner.is_some() || (item.place.role != Role::Link && head.kind == Kind::Array)
}

// The whole of a link that the reader accepted, on one line.
pub fn say_notation(out: &mut Output, s: &[u8]) {
    for item in Items::of(s) {
        let Some(head) = item.head else {
            break;
        };
        if !item.place.is_first() {
            out.text(b", ");
        }
        say_item(out, head, item.content);
        // The brackets after an array in the link, and after the link, which end with this item.
        let next = item.place.after(item.head);
        if next.inner.is_none() && is_inner(item, head) {
            out.byte(b']');
        }
        if next.role == Role::After {
            out.byte(b']');
        }
    }
    out.byte(b'\n');
}
