// Texts that stand in a row, joined by a delimiter and each escaped, after a mark: how long that is, and writing it into a lent room.
#![tactic(auto)]

ghost use Rattle.std.specs.Prelude.{ℕ, ◌+◌, ◌≤◌, ◌≡◌, ◌∷◌, map, length};
ghost use Rattle.rules.specs.Bytes.{join};
ghost use Rattle.rules.specs.Model.{limits};
ghost use Rattle.rules.specs.Reader.{contents};
ghost use Rattle.rules.specs.Text.{escape};
ghost use Rattle.rules.specs.Standing.{RowAt};
ghost use Rattle.put.specs.Wrote.{Wrote};
ghost use Rattle.uri_escape.specs.Escape.{class_is};

use cbor_rows::{Row, texts_at};
use put::put_byte;
use uri_escape::{Class, escaped_length, put_escaped};

// How long a mark and the texts joined by a delimiter are.
pub fn row_length(s: &[u8], row: Row, class: Class) -> usize
    requires row_at { RowAt s.now row.at row.count }
    requires link_size { length s.now ≤ limits.bytes }
    ensures { (mark delimiter : ℕ) → result ≡ length (mark ∷ join delimiter (map (escape (class_is class)) (contents s.now row.at row.count))) }
{
    if row.count == 0 {
        return 1;
    }
    let mut total = 0;
    for text in texts_at(s, row) {
        total += 1 + escaped_length(text, class);
    }
    total
}

// A mark, and the texts joined by a delimiter.
pub fn put_row(
    room: &mut [u8],
    at: usize,
    s: &[u8],
    row: Row,
    class: Class,
    mark: u8,
    delimiter: u8,
) -> usize
    requires row_at { RowAt s.now row.at row.count }
    requires count_in_bounds { at + length (mark ∷ join delimiter (map (escape (class_is class)) (contents s.now row.at row.count))) ≤ length room.old }
    ensures { Wrote room.old at (mark ∷ join delimiter (map (escape (class_is class)) (contents s.now row.at row.count))) room.new result }
{
    if row.count == 0 {
        return put_byte(room, at, mark);
    }
    let mut before = mark;
    let mut o = at;
    for text in texts_at(s, row) {
        let p = put_byte(room, o, before);
        o = put_escaped(room, p, text, class);
        before = delimiter;
    }
    o
}
