// The options of a request, each by its name.
ghost use Rattle.std.specs.Prelude.{◌≤◌, length, IfSome};
ghost use Rattle.std.specs.Iterator.{at_most};

use crate::quotes::{Quoted, is_printable, say_bytes};
use output::Output;

// The options that are left, after one with this number.
#[derive(Drop)]
struct Options<'a> {
    rest: &'a [u8],
    number: u16,
}

// What a nibble says with the byte that may follow it, and what stands after. `cri::options` writes no more than one byte.
fn extended(nibble: u8, s: &[u8]) -> Option<(u16, &[u8])>
    ensures { IfSome result (λ p. length p.1.now ≤ length s.now) }
{
    match (nibble, s) {
        (0..=12, rest) => Some((u16::from(nibble), rest)),
        (13, [byte, rest @ ..]) => Some((13 + u16::from(*byte), rest)),
        _ => None,
    }
}

impl<'a> Iterator for Options<'a> {
    type Item = (u16, &'a [u8]);

    ghost remaining = { λ o. at_most (length o.rest.now) };

    fn next(&mut self) -> Option<(u16, &'a [u8])> {
        let (first, rest) = self.rest.split_first()?;
        let (delta, rest) = extended(*first / 16, rest)?;
        let (length, rest) = extended(*first % 16, rest)?;
        let (value, rest) = rest.split_at_checked(usize::from(length))?;
        self.number = self.number.saturating_add(delta);
        self.rest = rest;
        Some((self.number, value))
    }
}

fn name_of(number: u16) -> &'static str {
    match number {
        3 => "Uri-Host",
        7 => "Uri-Port",
        11 => "Uri-Path",
        15 => "Uri-Query",
        _ => "unknown",
    }
}

// The number that at most two bytes say, the highest first.
fn port_of(value: &[u8]) -> u16 {
    match value {
        [] => 0,
        [low] => u16::from(*low),
        [high, low, ..] => u16::from_be_bytes([*high, *low]),
    }
}

// Each option on a line of its own: name, value in hex, and as text where that can be printed, or a port as a number.
pub fn say_options(out: &mut Output, s: &[u8]) {
    for (number, value) in (Options { rest: s, number: 0 }) {
        write!(out, "{:<10}", name_of(number));
        say_bytes(out, value);
        if number == 7 {
            write!(out, " {}", port_of(value));
        } else if value.iter().all(|b| is_printable(*b)) {
            write!(out, " {}", Quoted(value));
        }
        out.byte(b'\n');
    }
}
