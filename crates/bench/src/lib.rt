// The functions that the measuring program of bench/ calls.
#![tactic(auto)]

ghost use Rattle.std.specs.Prelude.{◌≡◌, ◌&&◌, ℕ, ◌+◌, ◌*◌, ◌≤◌, length, leb};
ghost use Rattle.rules.specs.Bytes.{part};
ghost use Rattle.rules.specs.Utf8.{utf8};
ghost use Rattle.rules.specs.Head.{Text, is};
ghost use Rattle.rules.specs.Text.{escape};
ghost use Rattle.rules.specs.Address.{ipv6_text};
ghost use Rattle.put.specs.Wrote.{Wrote};
ghost use Rattle.uri_escape.specs.Escape.{class_is};
ghost use Rattle.refusals.specs.Answers.{answer_is};
ghost use Rattle.cbor.specs.Heads.{allows};
ghost use Rattle.bench.specs.Answers.{class_of, text_or_number, after_content, after_item, items, answer};

use cbor::{Head, Kind, Kinds, head_at};
use refusals::{Refusal, refuse};

// Whether the range lies in the slice, and is UTF-8.
#[tactic(auto, using(rules::proofs::Slices::slice_part))]
#[unsafe(no_mangle)]
pub extern "C" fn bench_utf8_valid(s: &[u8], from: usize, n: usize) -> bool
    ensures { result ≡ (leb (from + n) (length s.now) && utf8 (part s.now from n)) }
{
    if from <= s.len() {
        if n <= s.len() - from {
            return utf8::valid(&s[from..from + n]);
        }
    }
    false
}

// The kinds of a text.
const TEXT: Kinds = Kinds {
    number: false,
    negative: false,
    byte_string: false,
    text: true,
    array: false,
    yes: false,
    null: false,
};

// The kinds of a label and a port.
const TEXT_OR_NUMBER: Kinds = Kinds {
    number: true,
    ..TEXT
};

// The position after the content of a text, whose head has been read.
fn after_content(s: &[u8], at: usize, head: Head) -> Result<usize, Refusal>
    requires { head.next ≤ length s.now }
    ensures { answer_is (λ n. n) result ≡ after_content s.now at head.next head.value }
{
    if ((s.len() - head.next) as u64) < head.value {
        refuse!(Cut, at);
    }
    Ok(head.next + head.value as usize)
}

// The position after the item at a position, where these kinds are allowed.
#[inline(always)]
fn after_item(s: &[u8], at: usize, allowed: Kinds) -> Result<usize, Refusal>
    ensures { answer_is (λ n. n) result ≡ after_item (allows allowed) s.now at }
{
    let head = head_at(s, at, allowed)?;
    if head.is(Kind::Text) {
        return after_content(s, at, head);
    }
    Ok(head.next)
}

// The position after `count` items, one after the other. It is a part of each caller, which tells the kinds.
#[inline(always)]
fn after_items(s: &[u8], count: usize, allowed: Kinds) -> Result<usize, Refusal>
    ensures { answer_is (λ n. n) result ≡ items (allows allowed) s.now 0 count }
{
    let mut at = 0;
    for i in 0..count {
        at = after_item(s, at, allowed)?;
    }
    Ok(at)
}

// A refusal's number, or 0 and a position.
#[repr(C)]
#[derive(Drop)]
pub struct Answer {
    pub number: u64,
    pub next: usize,
}

impl From<Result<usize, Refusal>> for Answer {
    fn from(read: Result<usize, Refusal>) -> Answer
        ensures { result ≡ answer (answer_is (λ n. n) read) }
    {
        match read {
            Ok(next) => Answer { number: 0, next },
            Err(refusal) => Answer {
                number: refusal.reason as u64,
                next: 0,
            },
        }
    }
}

// `count` texts one after the other.
#[unsafe(no_mangle)]
pub extern "C" fn bench_texts(s: &[u8], count: usize) -> Answer
    ensures { result ≡ answer (items (is Text) s.now 0 count) }
{
    Answer::from(after_items(s, count, TEXT))
}

// `count` texts and numbers one after the other.
#[unsafe(no_mangle)]
pub extern "C" fn bench_labels(s: &[u8], count: usize) -> Answer
    ensures { result ≡ answer (items text_or_number s.now 0 count) }
{
    Answer::from(after_items(s, count, TEXT_OR_NUMBER))
}

fn class_of(k: u8) -> uri_escape::Class
    ensures { class_is result ≡ class_of k }
{
    match k {
        0 => uri_escape::Class::Label,
        1 => uri_escape::Class::Segment,
        2 => uri_escape::Class::Parameter,
        _ => uri_escape::Class::Fragment,
    }
}

// All of src escaped into a room of three times its length: measured, compared with the room, and written.
#[tactic(auto, using(rules::proofs::Escapes::escape_length))]
#[unsafe(no_mangle)]
pub extern "C" fn bench_put_escaped(room: &mut [u8], src: &[u8], class: u8) -> usize
    requires { 3 * length src.now ≤ length room.old }
    ensures { Wrote room.old 0 (escape (class_of class) src.now) room.new result }
{
    let k = class_of(class);
    if room.len() < uri_escape::escaped_length(src, k) {
        return 0;
    }
    uri_escape::put_escaped(room, 0, src, k)
}

// The IPv6 address in the first 16 bytes, into a room of 49.
#[unsafe(no_mangle)]
pub extern "C" fn bench_put_ipv6(room: &mut [u8], src: &[u8]) -> usize
    requires { (16 ≤ length src.now) × (49 ≤ length room.old) }
    ensures { Wrote room.old 0 (ipv6_text (part src.now 0 16)) room.new result }
{
    ipv6::put_ipv6(room, 0, &src[..16])
}
