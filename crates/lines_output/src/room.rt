// Rooms that are lent to calls: filled before the call, and looked at after it.
use crate::{add_span, add_verdict};
use cbor::Span;
use outcomes::Outcome;
use output::Output;

// What stands at a place of a room before a call.
fn filling(i: usize) -> u8 {
    (i % 256) as u8
}

pub fn fill(room: &mut [u8]) {
    for (i, b) in room.iter_mut().enumerate() {
        *b = filling(i);
    }
}

// Whether every byte from a place on is as it was before the call.
fn is_kept(room: &[u8], from: usize) -> bool {
    for i in from..room.len() {
        if room[i] != filling(i) {
            return false;
        }
    }
    true
}

// The answer of a call that was lent the room: its number, the length and the bytes that it wrote, and whether it kept the others.
pub fn add_outcome(out: &mut Output, room: &[u8], outcome: Outcome) {
    add_verdict(out, outcome);
    let n = outcomes::written(outcome);
    let written = Span {
        start: 0,
        length: n,
    };
    write!(out, " {n} ");
    add_span(out, room, written);
    out.text(if is_kept(room, n) {
        b" kept".as_slice()
    } else {
        b" touched"
    });
}
