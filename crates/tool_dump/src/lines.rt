// A line for each item: its offset, its bytes, indented by depth, and what it says.
use crate::items::{Item, Role, content_length};
use crate::meanings::say_meaning;
use output::Output;
use refusals::Reason;
use tool_messages::{Count, say_reason};

// Where the words stand, which an IPv6 address does not reach.
const WORDS: usize = 45;

// Some bytes after a blank, if there are any.
fn say_part(out: &mut Output, part: &[u8]) {
    if !part.is_empty() {
        out.byte(b' ');
        out.hex(part);
    }
}

// The offset and the bytes, up to where the words stand; of what stands after the link the first byte. What waits is written first, so that what
// waits then is this line.
fn say_start(out: &mut Output, item: Item<'_>) {
    out.flush();
    let at = item.at;
    let indent = item.place.indent();
    write!(out, "{at:04x} {:indent$}", "");
    say_part(out, item.first);
    if item.place.role != Role::After {
        say_part(out, item.argument);
        say_part(out, item.content);
    }
    for _ in out.len()..WORDS {
        out.byte(b' ');
    }
    out.text(b"  ");
}

pub fn say_item(out: &mut Output, item: Item<'_>) {
    say_start(out, item);
    say_meaning(out, item);
    out.byte(b'\n');
}

// ---- the item at fault

// The length of a content, and how much of it is here.
fn say_length(out: &mut Output, item: Item<'_>) {
    if let Some(length) = content_length(item.head) {
        let here = item.content.len() as u64;
        if here < length {
            write!(out, ", {here} of {} here", Count(length, "byte"));
        } else {
            write!(out, ", {}", Count(length, "byte"));
        }
    }
}

// The item at fault, and under its first byte a mark with the refusal.
pub fn say_fault(out: &mut Output, item: Item<'_>, reason: Reason) {
    say_start(out, item);
    if item.first.is_empty() {
        writeln!(out, "{}: the input ends here", item.place);
    } else {
        say_meaning(out, item);
        say_length(out, item);
        out.byte(b'\n');
    }
    let indent = item.place.indent();
    write!(out, "      {:indent$}^^ ", "");
    say_reason(out, reason);
}
