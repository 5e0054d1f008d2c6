// A hex dump of the rows around a byte, with a mark under that byte.
ghost use Rattle.std.specs.Prelude.{◌≤◌, length};

use crate::quotes::is_printable;
use output::Output;

// How many bytes a row has.
const ROW: usize = 16;

// At most 16 bytes in hex, a blank after each and one more after eight, and as characters; a byte that is not printable as a dot.
fn say_row(out: &mut Output, row: &[u8]) {
    out.text(b"  ");
    for i in 0..ROW {
        match row.get(i) {
            Some(b) => write!(out, "{b:02x} "),
            None => out.text(b"   "),
        }
        if i % 8 == 7 {
            out.byte(b' ');
        }
    }
    out.byte(b'|');
    for b in row {
        out.byte(if is_printable(*b) { *b } else { b'.' });
    }
    out.byte(b'|');
}

// The row that begins at an offset.
fn say_row_at(out: &mut Output, s: &[u8], offset: usize)
    requires { offset ≤ length s.now }
{
    let rest = &s[offset..];
    let row = &rest[..rest.len().min(ROW)];
    write!(out, "{offset:04x}");
    if !row.is_empty() {
        say_row(out, row);
    }
    out.byte(b'\n');
}

// Where byte i of a row stands, after the offset: each byte takes three characters, and each eight one more.
fn column(i: usize) -> usize
    requires { i ≤ 16 }
    ensures { result ≤ 50 }
{
    3 * i + i / 8
}

// The row of a byte, which is marked, with the row before and the row after. Where the input ends at the place, the mark stands after its last byte.
pub fn say_marked(out: &mut Output, s: &[u8], place: usize) {
    let place = place.min(s.len());
    let i = place % ROW;
    let offset = place - i;
    if ROW <= offset {
        say_row_at(out, s, offset - ROW);
    }
    say_row_at(out, s, offset);
    let column = 6 + column(i);
    writeln!(out, "{:column$}^^", "");
    if ROW < s.len() - offset {
        say_row_at(out, s, offset + ROW);
    }
}
