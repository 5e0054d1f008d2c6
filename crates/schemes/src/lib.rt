// The schemes that have a number (docs/RULES.md, 1.6): the table of their numbers, names and default ports, and the
// negative integers that carry scheme numbers, -1 - n for the number n.
#![tactic(auto)]

ghost use Rattle.std.specs.Prelude.{ℕ, ◌≡◌, ◌+◌, ◌≤◌, ◌<◌, ◌^◌, negsuc, length};
ghost use Rattle.std.proofs.Math.Option.{some};
ghost use Rattle.rules.specs.Code.{option_is};
ghost use Rattle.rules.specs.Rules.{schemes, scheme_in};
ghost use Rattle.rules.specs.Text.{entry_name};
ghost use Rattle.put.specs.Wrote.{Wrote};
ghost use Rattle.schemes.specs.Schemes.{Below, scheme_id, scheme_number, entry_of, EntryIs};
ghost use Rattle.schemes.specs.Schemes.{known_id, default_port, same_name, known_name};

use put::put_bytes;
use same_bytes::same;

// ---- scheme ids

// -1 - number
fn id_of(number: u64) -> i64
    requires { number < 2 ^ 63 }
    ensures { result ≡ negsuc number }
{
    -(number as i64) - 1
}

// n of the integer -1 - n.
fn number_of(id: i64) -> u64
    requires { Below id }
    ensures { id ≡ negsuc result }
{
    let m = -(id + 1);
    m as u64
}

// The negative integer that carries a scheme number, if 64 bits hold it.
pub fn scheme_id(number: u64) -> Option<i64>
    ensures { result ≡ scheme_id number }
{
    if number < 9223372036854775808 {
        Some(id_of(number))
    } else {
        None
    }
}

// The scheme number that an integer carries, if the integer is negative.
pub fn scheme_number(id: i64) -> Option<u64>
    ensures { result ≡ scheme_number id }
{
    if id < 0 { Some(number_of(id)) } else { None }
}

// ---- the table

// A scheme that has a number: its name and its default port.
#[derive(Clone, Copy)]
struct Entry {
    name: &'static [u8],
    port: u64,
}

fn row(name: &'static [u8], port: u64) -> Option<Entry>
    ensures { (number : ℕ) → EntryIs (some (record { number = number; name = name.now; port = port })) result }
{
    Some(Entry { name, port })
}

// The table, a line for each scheme, by its id.
fn entry_by_id(id: i64) -> Option<Entry>
    ensures { EntryIs (entry_of id) result }
{
    match id {
        -1 => row(b"coap", 5683),
        -2 => row(b"coaps", 5684),
        -7 => row(b"coap+tcp", 5683),
        -8 => row(b"coaps+tcp", 5684),
        -9 => row(b"coap+ws", 80),
        -10 => row(b"coaps+ws", 443),
        _ => None,
    }
}

// The numbers of the table are below this.
const NUMBERS: u64 = 10;

// No name is longer.
pub const NAME_ROOM: usize = 16;

// The same by number.
fn entry_by_number(number: u64) -> Option<Entry>
    ensures { EntryIs (scheme_in schemes number) result }
{
    entry_by_id(scheme_id(number)?)
}

// ---- what is asked of it

// Whether an id carries a number of the table.
pub fn is_known(id: i64) -> bool
    ensures { result ≡ known_id id }
{
    entry_by_id(id).is_some()
}

// How long the name of a scheme number is.
pub fn name_length(number: u64) -> usize
    ensures { result ≡ length (entry_name (scheme_in schemes number)) }
{
    match entry_by_number(number) {
        Some(entry) => entry.name.len(),
        None => 0,
    }
}

// The name of a scheme number; nothing for a number that is not in the table.
pub fn put_name(room: &mut [u8], at: usize, number: u64) -> usize
    requires { at + length (entry_name (scheme_in schemes number)) ≤ length room.old }
    ensures { Wrote room.old at (entry_name (scheme_in schemes number)) room.new result }
{
    match entry_by_number(number) {
        Some(entry) => put_bytes(room, at, entry.name),
        None => at,
    }
}

// The default port of a scheme number; nothing for one that is not in the table.
pub fn default_port(number: u64) -> Option<u64>
    ensures { option_is (λ p. p) result ≡ default_port number }
{
    Some(entry_by_number(number)?.port)
}

// Whether a text is the name of a scheme number.
fn has_name(text: &[u8], number: u64) -> bool
    ensures { result ≡ same_name text.now (scheme_in schemes number) }
{
    match entry_by_number(number) {
        Some(entry) => same(text, entry.name),
        None => false,
    }
}

// Whether a text is a name of the table.
pub fn is_name(text: &[u8]) -> bool
    ensures { result ≡ known_name text.now }
{
    for number in 0..NUMBERS {
        if has_name(text, number) {
            return true;
        }
    }
    false
}
