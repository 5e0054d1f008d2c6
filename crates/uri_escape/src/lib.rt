// Texts written into a lent room with what may not stand bare as "%" and two hex digits, and how long they are then.
#![tactic(auto)]

ghost use Rattle.std.specs.Prelude.{◌+◌, ◌*◌, ◌≤◌, ◌<◌, ◌^◌, ◌≡◌, length};
ghost use Rattle.rules.specs.Bytes.{all};
ghost use Rattle.rules.specs.Text.{bare, hex_digit, escape_byte, escape};
ghost use Rattle.put.specs.Wrote.{Wrote};
ghost use Rattle.uri_escape.specs.Escape.{class_is, bit_of, names, entry};

use put::put_bytes;

// The part of a URI that a text stands in: it decides which bytes stand bare. The number of each is its bit in an entry of the table.
#[derive(Clone, Copy, Debug, PartialEq, Eq)]
pub enum Class {
    Label = 1,
    Segment = 2,
    Parameter = 4,
    Fragment = 8,
}

// ---- the table

// In which classes each byte stands bare, a row for each sixteen bytes. Of an entry the lowest four bits tell it: label 1, segment 2, parameter 4, fragment 8.
// So "O" is in all four, "N" in all but labels, "K" in all but parameters, "L" in parameters and fragments, "@" in none.
static BARE: [u8; 256] = *b"\
    @@@@@@@@@@@@@@@@\
    @@@@@@@@@@@@@@@@\
    @O@@O@KOOOOOOOOL\
    OOOOOOOOOONO@O@L\
    NOOOOOOOOOOOOOOO\
    OOOOOOOOOOO@@@@O\
    @OOOOOOOOOOOOOOO\
    OOOOOOOOOOO@@@O@\
    @@@@@@@@@@@@@@@@\
    @@@@@@@@@@@@@@@@\
    @@@@@@@@@@@@@@@@\
    @@@@@@@@@@@@@@@@\
    @@@@@@@@@@@@@@@@\
    @@@@@@@@@@@@@@@@\
    @@@@@@@@@@@@@@@@\
    @@@@@@@@@@@@@@@@";

// The entry of a byte.
fn entry_of(b: u8) -> u8
    ensures { result ≡ entry b }
{
    BARE[b as usize]
}

// Whether an entry, or what entries have in common, has the bit of a class.
#[tactic(auto, unfolding(crate::specs::Escape::names))]
fn is_named(e: u8, class: Class) -> bool
    ensures { result ≡ names e (class_is class) }
{
    e & class as u8 != 0
}

// Whether a byte stands bare.
#[tactic(auto, using(crate::proofs::Table::named))]
fn is_bare(class: Class, b: u8) -> bool
    ensures { result ≡ bare (class_is class) b }
{
    is_named(entry_of(b), class)
}

// ---- byte by byte

// The upper-case hex digits.
static DIGITS: [u8; 16] = *b"0123456789ABCDEF";

// The digit of a value below 16.
fn upper_hex_digit(value: u8) -> u8
    requires { value < 16 }
    ensures { result ≡ hex_digit value }
{
    DIGITS[value as usize]
}

// One byte, bare or escaped. It is stored before it is tested: LLVM would make one store of two, behind a jump more for each bare byte.
#[tactic(auto, unfolding(rules::specs::Text::escape_byte))]
fn put_escaped_byte(room: &mut [u8], at: usize, class: Class, b: u8) -> usize
    requires { at + length (escape_byte (class_is class) b) ≤ length room.old }
    ensures { Wrote room.old at (escape_byte (class_is class) b) room.new result }
{
    room[at] = b;
    if is_bare(class, b) {
        return at + 1;
    }
    room[at] = b'%';
    room[at + 1] = upper_hex_digit(b / 16);
    room[at + 2] = upper_hex_digit(b % 16);
    at + 3
}

// How long one byte is, bare or escaped.
#[tactic(auto, unfolding(rules::specs::Text::escape_byte))]
fn escaped_byte_length(class: Class, b: u8) -> usize
    ensures { result ≡ length (escape_byte (class_is class) b) }
{
    if is_bare(class, b) { 1 } else { 3 }
}

// How long a text is, escaped.
fn length_by_bytes(text: &[u8], class: Class) -> usize
    requires { 3 * length text.now < 2 ^ 64 }
    ensures { result ≡ length (escape (class_is class) text.now) }
{
    text.iter().map(|b| escaped_byte_length(class, *b)).sum()
}

// A text, escaped.
fn put_by_bytes(room: &mut [u8], at: usize, text: &[u8], class: Class) -> usize
    requires { at + length (escape (class_is class) text.now) ≤ length room.old }
    ensures { Wrote room.old at (escape (class_is class) text.now) room.new result }
{
    let mut o = at;
    for b in text {
        o = put_escaped_byte(room, o, class, *b);
    }
    o
}

// ---- as a whole

// Whether all of some bytes stand bare: what their entries have in common names the classes that all of them stand bare in.
fn block_bare(block: &[u8], class: Class) -> bool
    ensures { result ≡ all (bare (class_is class)) block.now }
{
    is_named(
        block.iter().fold(15, |common, b| common & entry_of(*b)),
        class,
    )
}

// Whether all of eight bytes or more stand bare, eight at a time. Of the last eight some may be tested for the second time.
fn stand_bare(text: &[u8], class: Class) -> bool
    requires { 8 ≤ length text.now }
    ensures { result ≡ all (bare (class_is class)) text.now }
{
    let last = text.len() - 8;
    for k in (0..last).step_by(8) {
        if !block_bare(&text[k..k + 8], class) {
            return false;
        }
    }
    block_bare(&text[last..], class)
}

// How long a text is, escaped: as long as it is where all of it stands bare.
#[tactic(auto, using(crate::proofs::Escape::escape_bare))]
fn long_length(text: &[u8], class: Class) -> usize
    requires { 3 * length text.now < 2 ^ 64 }
    ensures { result ≡ length (escape (class_is class) text.now) }
{
    if 8 <= text.len() && stand_bare(text, class) {
        return text.len();
    }
    length_by_bytes(text, class)
}

// A text, escaped: copied where all of it stands bare.
#[tactic(auto, using(crate::proofs::Escape::escape_bare))]
fn put_long(room: &mut [u8], at: usize, text: &[u8], class: Class) -> usize
    requires { at + length (escape (class_is class) text.now) ≤ length room.old }
    ensures { Wrote room.old at (escape (class_is class) text.now) room.new result }
{
    if 8 <= text.len() && stand_bare(text, class) {
        return put_bytes(room, at, text);
    }
    put_by_bytes(room, at, text, class)
}

// ---- by its length: most texts are short, and each of those is one loop with no call, so these become a part of each caller

// From this length on a text is tested as a whole first.
const LONG: usize = 16;

// How long a text is, escaped.
#[inline(always)]
pub fn escaped_length(text: &[u8], class: Class) -> usize
    requires { 3 * length text.now < 2 ^ 64 }
    ensures { result ≡ length (escape (class_is class) text.now) }
{
    if text.len() < LONG {
        return length_by_bytes(text, class);
    }
    long_length(text, class)
}

// A text, escaped.
#[inline(always)]
pub fn put_escaped(room: &mut [u8], at: usize, text: &[u8], class: Class) -> usize
    requires { at + length (escape (class_is class) text.now) ≤ length room.old }
    ensures { Wrote room.old at (escape (class_is class) text.now) room.new result }
{
    if text.len() < LONG {
        return put_by_bytes(room, at, text, class);
    }
    put_long(room, at, text, class)
}
