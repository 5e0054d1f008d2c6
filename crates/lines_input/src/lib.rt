// The words of a request, one after the other, and components given as words: for the program cri_lines alone.
#![tactic(auto)]

ghost use Rattle.std.specs.Prelude.{◌≡◌, ◌<◌, ◌≤◌, ◌^◌, ◌↔◌, IsSome, Ok, Err, [], length, take, drop, IsTrue, IfSome, IsOk, IfOk, IfErr, MatchResult};
ghost use Rattle.lines_input.specs.declared.Fault.TheVariants as FaultV;
ghost use Rattle.lines_input.specs.Words.{word_end, word_of, left_of, bytes_in, number_in, port_in, lent_in};

use cbor::Span;
use components::{Authority, Components, Host, Opening, Scheme, Spans};
use numbers::{BYTES, SPANS};
use std::fmt;
use words::{HexError, NumberError};

// ---- sizes, with place for every link, its text and its options

// The bytes that a word may say.
pub const WORD: usize = 8 * BYTES;

// The bytes of the longest room that a call is lent.
pub const ROOM: usize = 4 * BYTES;

// ---- what is wrong with a line: what is wrong first

#[derive(Clone, Copy, Debug, PartialEq, Eq)]
pub enum Fault {
    EmptyLine,
    UnknownRequest,
    Missing,
    Empty,
    Hex(HexError),
    Number(NumberError),
    RoomTooLarge,
    PortTooLarge,
    Unknown,
    TooMany,
}

impl From<HexError> for Fault {
    ghost use Rattle.std.specs.Prelude.{◌≡◌};
    ghost use Rattle.lines_input.specs.declared.Fault.TheVariants as FaultV;

    ghost from_gives = { λ e r. r ≡ FaultV.Hex e };

    fn from(error: HexError) -> Fault {
        Fault::Hex(error)
    }
}

impl From<NumberError> for Fault {
    ghost use Rattle.std.specs.Prelude.{◌≡◌};
    ghost use Rattle.lines_input.specs.declared.Fault.TheVariants as FaultV;

    ghost from_gives = { λ e r. r ≡ FaultV.Number e };

    fn from(error: NumberError) -> Fault {
        Fault::Number(error)
    }
}

impl fmt::Display for Fault {
    fn fmt<W: fmt::Write>(&self, f: &mut fmt::Formatter<W>) -> fmt::Result {
        let text = match self {
            Fault::EmptyLine => "an empty line",
            Fault::UnknownRequest => "unknown request",
            Fault::Missing => "a word is missing",
            Fault::Empty => "a word is empty",
            Fault::Hex(HexError::NotHex) => "not lower-case hex",
            Fault::Hex(HexError::Odd) => "an odd number of hex digits",
            Fault::Hex(HexError::TooLong) => "bytes too long",
            Fault::Number(NumberError::NotDecimal) => "not a decimal number",
            Fault::Number(NumberError::TooLarge) => "a number over 64 bits",
            Fault::RoomTooLarge => return write!(f, "room over {ROOM} bytes"),
            Fault::PortTooLarge => "port over 65535",
            Fault::Unknown => "a word that may not stand there",
            Fault::TooMany => "too many words",
        };
        f.write_str(text)
    }
}

// ---- words

// What is left of a line: before each word stands a space.
#[derive(Clone, Copy)]
pub struct Words<'a> {
    rest: &'a [u8],
    ghost fits: { length rest.now < 2 ^ 64 },
}

// How many bytes stand before the first space.
#[tactic(auto, unfolding(crate::specs::Words::word_end))]
fn word_end(s: &[u8]) -> usize
    ensures value { result ≡ word_end s.now }
    ensures at_most { result ≤ length s.now }
{
    s.iter().take_while(|b| **b != b' ').count()
}

// The bytes before the first space, and the others.
fn split_word(s: &[u8]) -> (&[u8], &[u8])
    ensures word { result.0.now ≡ take (word_end s.now) s.now }
    ensures left { result.1.now ≡ drop (word_end s.now) s.now }
    ensures size { length result.0.now ≡ word_end s.now }
    ensures at_most { length result.1.now ≤ length s.now }
{
    s.split_at(word_end(s))
}

impl<'a> Words<'a> {
    // The first word of a line, and the others.
    pub fn of(line: &'a [u8]) -> (&'a [u8], Words<'a>)
        ensures word { result.0.now ≡ take (word_end line.now) line.now }
        ensures left { result.1.rest.now ≡ drop (word_end line.now) line.now }
    {
        let (name, rest) = split_word(line);
        (name, Words { rest })
    }

    // The next word, and what is left after it; none where the line has ended.
    fn peek(&self) -> Option<(&'a [u8], &'a [u8])>
        ensures shorter { IfSome result (λ p. length p.1.now < length self.now.rest.now) }
        ensures none { IsSome result ↔ (0 < length self.now.rest.now) }
        ensures some { IfSome result (λ p. (length p.0.now ≡ word_end (drop 1 self.now.rest.now))
            × (p.0.now ≡ take (word_end (drop 1 self.now.rest.now)) (drop 1 self.now.rest.now))
            × (p.1.now ≡ drop (word_end (drop 1 self.now.rest.now)) (drop 1 self.now.rest.now))) }
    {
        let (_, rest) = self.rest.split_first()?;
        Some(split_word(rest))
    }

    #[tactic(auto, unfolding(crate::specs::Words::word_of, crate::specs::Words::left_of))]
    fn word(&mut self) -> Result<&'a [u8], Fault>
        ensures word { MatchResult result (λ w. word_of self.old.rest.now ≡ Ok w.now) (λ e. word_of self.old.rest.now ≡ Err e) }
        ensures left { self.new.rest.now ≡ left_of self.old.rest.now }
        ensures at_most { length self.new.rest.now ≤ length self.old.rest.now }
    {
        let (word, rest) = self.peek().ok_or(Fault::Missing)?;
        if word.is_empty() {
            return Err(Fault::Empty);
        }
        self.rest = rest;
        Ok(word)
    }

    // Takes the next word if it is this one.
    fn eat(&mut self, name: &[u8]) -> bool
        ensures shorter { IsTrue result → length self.new.rest.now < length self.old.rest.now }
        ensures at_most { length self.new.rest.now ≤ length self.old.rest.now }
    {
        match self.peek() {
            Some((word, rest)) if word == name => {
                self.rest = rest;
                true
            }
            _ => false,
        }
    }

    pub fn number(&mut self) -> Result<u64, Fault>
        ensures value { result ≡ number_in (word_of self.old.rest.now) }
        ensures left { self.new.rest.now ≡ left_of self.old.rest.now }
        ensures at_most { length self.new.rest.now ≤ length self.old.rest.now }
    {
        Ok(words::decimal(self.word()?)?)
    }

    // A number of 16 bits.
    pub fn port(&mut self) -> Result<u16, Fault>
        ensures value { result ≡ port_in (number_in (word_of self.old.rest.now)) }
        ensures left { self.new.rest.now ≡ left_of self.old.rest.now }
    {
        u16::try_from(self.number()?).map_err(|_| Fault::PortTooLarge)
    }

    // Bytes, put at the start of the room.
    pub fn bytes<'r>(&mut self, room: &'r mut [u8]) -> Result<&'r [u8], Fault>
        ensures size { MatchResult result (λ b. bytes_in (word_of self.old.rest.now) (length room.old) ≡ Ok (length b.now))
            (λ e. bytes_in (word_of self.old.rest.now) (length room.old) ≡ Err e) }
        ensures held { IfOk result (λ b. length b.now ≤ length room.old) }
        ensures left { self.new.rest.now ≡ left_of self.old.rest.now }
    {
        let n = words::hex_bytes(room, self.word()?)?;
        Ok(&room[..n])
    }

    // How much of the room is lent.
    pub fn lent<'r>(&mut self, room: &'r mut [u8]) -> Result<&'r mut [u8], Fault>
        ensures size { MatchResult result (λ r. lent_in (number_in (word_of self.old.rest.now)) (length room.old) ≡ Ok (length r.now))
            (λ e. lent_in (number_in (word_of self.old.rest.now)) (length room.old) ≡ Err e) }
        ensures held { IfOk result (λ r. r.now ≡ take (length r.now) room.old) }
        ensures left { self.new.rest.now ≡ left_of self.old.rest.now }
    {
        let n = self.number()? as usize;
        room.get_mut(..n).ok_or(Fault::RoomTooLarge)
    }

    // No word is left.
    pub fn finish(&self) -> Result<(), Fault>
        ensures accepted { IsOk result ↔ (self.now.rest.now ≡ []) }
        ensures refused { IfErr result (λ e. e ≡ FaultV.TooMany) }
    {
        if self.rest.is_empty() {
            Ok(())
        } else {
            Err(Fault::TooMany)
        }
    }
}

// ---- components, each text and address as two words: its start and its length

// The spans of texts, one after the other, as far as Spans reaches.
#[derive(Drop)]
struct Row<'s> {
    spans: &'s mut Spans,
    end: usize,
}

impl Row<'_> {
    fn push(&mut self, span: Span) {
        if self.end < SPANS - 1 {
            self.spans[self.end] = span.start;
            self.spans[self.end + 1] = span.length;
            self.end += 2;
        }
    }
}

impl<'a> Words<'a> {
    fn span(&mut self) -> Result<Span, Fault>
        ensures { length self.new.rest.now ≤ length self.old.rest.now }
    {
        let start = self.number()? as usize;
        let length = self.number()? as usize;
        Ok(Span { start, length })
    }

    // How many texts there are, each after the name.
    fn texts(&mut self, row: &mut Row, name: &[u8]) -> Result<usize, Fault> {
        let mut count = 0;
        while self.eat(name) {
            row.push(self.span()?);
            count += 1;
        }
        Ok(count)
    }

    // What `take` takes, where this word stands before it.
    fn after<T, F>(&mut self, name: &[u8], take: F) -> Result<Option<T>, Fault>
    where
        F: FnOnce(&mut Words<'a>) -> Result<T, Fault>,
        requires { F.IsAlwaysCallable take }
    {
        if self.eat(name) {
            Ok(Some(take(self)?))
        } else {
            Ok(None)
        }
    }

    fn scheme(&mut self) -> Result<Option<Scheme>, Fault> {
        match self.word()? {
            b"none" => Ok(None),
            b"number" => Ok(Some(Scheme::Number(self.number()?))),
            b"text" => Ok(Some(Scheme::Name(self.span()?))),
            _ => Err(Fault::Unknown),
        }
    }

    fn authority(&mut self, row: &mut Row) -> Result<Authority, Fault> {
        let host = if self.eat(b"address") {
            Host::Address(self.span()?)
        } else {
            Host::Labels(self.texts(row, b"label")?)
        };
        let port = self.after(b"port", |words| words.number())?;
        Ok(Authority { host, port })
    }

    fn opening(&mut self, row: &mut Row) -> Result<Opening, Fault> {
        match self.word()? {
            b"discard" if self.eat(b"all") => Ok(Opening::DiscardAll),
            b"discard" => Ok(Opening::Discard(self.number()?)),
            b"scheme" => {
                let scheme = self.scheme()?;
                let authority = self.after(b"authority", |words| words.authority(row))?;
                Ok(Opening::Full(scheme, authority))
            }
            _ => Err(Fault::Unknown),
        }
    }

    // The spans of their texts go into the array.
    pub fn components(&mut self, spans: &mut Spans) -> Result<Components, Fault> {
        let mut row = Row { spans, end: 0 };
        let opening = self.opening(&mut row)?;
        let path = self.after(b"path", |words| words.texts(&mut row, b"segment"))?;
        let query = self.after(b"query", |words| words.texts(&mut row, b"parameter"))?;
        let fragment = self.after(b"fragment", |words| words.span())?;
        Ok(Components {
            opening,
            path,
            query,
            fragment,
        })
    }
}
