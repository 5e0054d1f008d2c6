// A link item by item: where each stands, its bytes, and what it says in words; and the whole in diagnostic notation.
#![tactic(auto)]

mod items;
mod lines;
mod meanings;
mod notation;

use items::{Item, Items};
use lines::{say_fault, say_item};
use notation::say_notation;
use numbers::BYTES;
use output::Output;
use refusals::Refusal;
use tool_messages::say_refusal;

// The items before the one at fault, and that one. Of an input that is too long no item is looked at.
fn say_refused(out: &mut Output, s: &[u8], refusal: Refusal) {
    if BYTES < s.len() {
        return say_refusal(out, b"HEX", s, refusal);
    }
    let at = refusal.place.min(s.len());
    let (before, rest) = s.split_at(at);
    let mut items = Items::of(before);
    for item in items.by_ref() {
        say_item(out, item);
    }
    say_fault(out, Item::read(rest, at, items.place), refusal.reason);
}

fn say_accepted(out: &mut Output, s: &[u8]) {
    for item in Items::of(s) {
        say_item(out, item);
    }
    say_notation(out, s);
}

// A line for each item of a link, up to the one at fault if there is one; then, of a link that is accepted, its diagnostic notation.
pub fn say_dump(out: &mut Output, s: &[u8]) {
    match reader::read(s) {
        Ok(_) => say_accepted(out, s),
        Err(refusal) => say_refused(out, s, refusal),
    }
}
