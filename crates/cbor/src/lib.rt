// The heads of CBOR items (STD 94, section 3), read, and where an item's content stands.
#![tactic(auto)]

ghost use Rattle.std.specs.Prelude.{◌≡◌, ℕ, ◌+◌, ◌<◌, ◌≤◌, length};
ghost use Rattle.rules.specs.Bytes.{part, number_from};
ghost use Rattle.rules.specs.Head.{kind_of, is, width, read_head};
ghost use Rattle.rules.specs.Reader.{span_at};
ghost use Rattle.rules.specs.Standing.{ItemStands};
ghost use Rattle.refusals.specs.Answers.{answer_is};
ghost use Rattle.cbor.specs.Heads.{kind_is, allows, head_is, span_is, least_of, read_argument};

use refusals::{Refusal, refuse};

// What an item is, by its first byte.
#[derive(Clone, Copy, Debug, PartialEq, Eq)]
pub enum Kind {
    Number,
    Negative,
    ByteString,
    Text,
    Array,
    True,
    Null,
    Other,
}

// Which kinds are allowed at a place; `yes` is true.
#[derive(Clone, Copy, Debug, PartialEq, Eq)]
pub struct Kinds {
    pub number: bool,
    pub negative: bool,
    pub byte_string: bool,
    pub text: bool,
    pub array: bool,
    pub yes: bool,
    pub null: bool,
}

// What was read of an item's head, and the position after it. The value is that of a number; n of the number -1 - n; the length of a byte string or
// a text; the count of an array; 21 of true and 22 of null.
#[derive(Clone, Copy, Debug, PartialEq, Eq)]
pub struct Head {
    pub kind: Kind,
    pub value: u64,
    pub next: usize,
}

impl Head {
    // Whether the item is of this kind.
    pub fn is(self, kind: Kind) -> bool
        ensures { result ≡ is (kind_is kind) (kind_is self.kind) }
    {
        self.kind == kind
    }
}

// The kind that a first byte above those of arrays gives.
fn simple_of(b: u8) -> Kind
    requires { 0xA0 ≤ b }
    ensures { kind_is result ≡ kind_of b }
{
    match b {
        0xf5 => Kind::True,
        0xf6 => Kind::Null,
        _ => Kind::Other,
    }
}

// The kind that a first byte gives.
fn kind_of(b: u8) -> Kind
    ensures { kind_is result ≡ kind_of b }
{
    match b {
        0x00..=0x1f => Kind::Number,
        0x20..=0x3f => Kind::Negative,
        0x40..=0x5f => Kind::ByteString,
        0x60..=0x7f => Kind::Text,
        0x80..=0x9f => Kind::Array,
        _ => simple_of(b),
    }
}

// Whether a kind is one of these.
fn is_allowed(allowed: Kinds, kind: Kind) -> bool
    ensures { result ≡ allows allowed (kind_is kind) }
{
    match kind {
        Kind::Number => allowed.number,
        Kind::Negative => allowed.negative,
        Kind::ByteString => allowed.byte_string,
        Kind::Text => allowed.text,
        Kind::Array => allowed.array,
        Kind::True => allowed.yes,
        Kind::Null => allowed.null,
        Kind::Other => false,
    }
}

// The number of at most 8 bytes, the highest first.
fn number_of(bytes: &[u8]) -> u64
    requires { length bytes.now ≤ 8 }
    ensures { result ≡ number_from 0 bytes.now }
{
    let mut v = 0;
    for b in bytes {
        v = v * 256 + u64::from(*b);
    }
    v
}

// How many bytes follow the first byte of a head with this head information.
pub fn width_of(info: u8) -> usize
    requires { info < 28 }
    ensures { result ≡ width info }
{
    match info {
        0..=23 => 0,
        24 => 1,
        25 => 2,
        26 => 4,
        _ => 8,
    }
}

// The least number that needs a head with this head information, 24 to 27.
fn least_of(info: u8) -> u64
    ensures { result ≡ least_of info }
{
    match info {
        24 => 24,
        25 => 256,
        26 => 65536,
        _ => 4294967296,
    }
}

// The head at a position, whose number stands after its first byte.
fn long_at(s: &[u8], at: usize, kind: Kind, info: u8) -> Result<Head, Refusal>
    requires { (at < length s.now) × (24 ≤ info) × (info < 28) }
    ensures { answer_is head_is result ≡ read_argument (kind_is kind) info s.now at }
{
    let from = at + 1;
    let w = width_of(info);
    if s.len() - from < w {
        refuse!(Cut, at);
    }
    let value = number_of(&s[from..from + w]);
    if value < least_of(info) {
        refuse!(Head, at);
    }
    Ok(Head {
        kind,
        value,
        next: from + w,
    })
}

// The head at a position, by its head information: the lowest five bits of the first byte.
fn argument_at(s: &[u8], at: usize, kind: Kind, info: u8) -> Result<Head, Refusal>
    requires { at < length s.now }
    ensures { answer_is head_is result ≡ read_argument (kind_is kind) info s.now at }
{
    match info {
        0..=23 => Ok(Head {
            kind,
            value: info as u64,
            next: at + 1,
        }),
        24..=27 => long_at(s, at, kind, info),
        28..=31 | _ => refuse!(Head, at),
    }
}

// The head of the item at a position, where these kinds are allowed.
pub fn head_at(s: &[u8], at: usize, allowed: Kinds) -> Result<Head, Refusal>
    ensures { answer_is head_is result ≡ read_head (allows allowed) s.now at }
{
    if s.len() <= at {
        refuse!(Cut, at);
    }
    let b = s[at];
    let kind = kind_of(b);
    if !is_allowed(allowed, kind) {
        refuse!(Form, at);
    }
    argument_at(s, at, kind, b % 32)
}

// Where the content of an item stands.
#[derive(Clone, Copy, Debug, PartialEq, Eq)]
pub struct Span {
    pub start: usize,
    pub length: usize,
}

impl Span {
    // The bytes that stand there.
    pub fn of(self, s: &[u8]) -> &[u8]
        requires { self.start + self.length ≤ length s.now }
        ensures shows { result.now ≡ part s.now self.start self.length }
        ensures points { result.ref_ptr ≡ (s.entry.ref_ptr.0, self.start + s.entry.ref_ptr.1) }
    {
        &s[self.start..self.start + self.length]
    }
}

// Where the content of an item that was accepted stands.
pub fn span_at(s: &[u8], at: usize) -> Span
    requires { ItemStands s.now at }
    ensures { span_is result ≡ span_at s.now at }
{
    let info = s[at] % 32;
    let from = at + 1;
    if info < 24 {
        return Span {
            start: from,
            length: info as usize,
        };
    }
    if info == 24 {
        return Span {
            start: from + 1,
            length: s[from] as usize,
        };
    }
    let w = width_of(info);
    let v = number_of(&s[from..from + w]);
    Span {
        start: from + w,
        length: v as usize,
    }
}
