// The requests. A new one is a function here and an arm of `request`.
#![tactic(auto)]

use lines_input::{Fault, ROOM, WORD, Words};
use lines_output::{add_components, add_outcome, add_refusal, add_view, fill};
use outcomes::Outcome;
use output::Output;
use refusals::Refusal;

// The number of a verdict, without its place.
fn number_of(verdict: Result<(), Refusal>) -> u8 {
    match verdict {
        Ok(()) => 0,
        Err(refusal) => refusal.reason.number(),
    }
}

// read HEX
fn read(out: &mut Output, mut words: Words) -> Result<(), Fault> {
    let mut room = [0u8; WORD];
    let s = words.bytes(&mut room)?;
    words.finish()?;
    let mut spans = [0; cri::SPANS];
    match cri::read(s, &mut spans) {
        Err(refusal) => add_refusal(out, refusal),
        Ok(components) => {
            out.byte(b'0');
            add_components(out, s, &spans, components);
        }
    }
    Ok(())
}

// segment HEX N
fn segment(out: &mut Output, mut words: Words) -> Result<(), Fault> {
    let mut room = [0u8; WORD];
    let s = words.bytes(&mut room)?;
    let k = words.number()? as usize;
    words.finish()?;
    add_view(out, cri::segment_verdict(s, k), cri::segment(s, k));
    Ok(())
}

// authority REFERENCE BASE
fn authority(out: &mut Output, mut words: Words) -> Result<(), Fault> {
    let mut first = [0u8; WORD];
    let mut second = [0u8; WORD];
    let reference = words.bytes(&mut first)?;
    let base = words.bytes(&mut second)?;
    words.finish()?;
    let verdict = cri::authority_verdict(base, reference);
    add_view(out, verdict, cri::authority(base, reference));
    Ok(())
}

// same HEX HEX: both numbers, and whether the texts are equal
fn same(out: &mut Output, mut words: Words) -> Result<(), Fault> {
    let mut first = [0u8; WORD];
    let mut second = [0u8; WORD];
    let one = words.bytes(&mut first)?;
    let other = words.bytes(&mut second)?;
    words.finish()?;
    let judgement = sameness::judge(one, other);
    let relation = if judgement.equal {
        "equal"
    } else {
        "different"
    };
    let first = number_of(judgement.first);
    let second = number_of(judgement.second);
    write!(out, "{first} {second} {relation}");
    Ok(())
}

// ROOM HEX, and the words that the call takes. It is lent a room of that length, and the bytes.
fn lend<F>(out: &mut Output, mut words: Words, call: F) -> Result<(), Fault>
where
    F: FnOnce(&mut [u8], &[u8], &mut Words) -> Result<Outcome, Fault>,
    requires { F.IsAlwaysCallable call }
{
    let mut filled = [0u8; ROOM];
    let mut scratch = [0u8; WORD];
    fill(&mut filled);
    let room = words.lent(&mut filled)?;
    let lent = words.bytes(&mut scratch)?;
    let outcome = call(room, lent, &mut words)?;
    add_outcome(out, room, outcome);
    Ok(())
}

// write ROOM LENT WORD..
fn write(room: &mut [u8], lent: &[u8], words: &mut Words) -> Result<Outcome, Fault> {
    let mut spans = [0; cri::SPANS];
    let components = words.components(&mut spans)?;
    words.finish()?;
    Ok(cri::write(components, &spans, lent, room))
}

// resolve ROOM BASE REFERENCE
fn resolve(room: &mut [u8], base: &[u8], words: &mut Words) -> Result<Outcome, Fault> {
    let mut scratch = [0u8; WORD];
    let reference = words.bytes(&mut scratch)?;
    words.finish()?;
    Ok(cri::resolve(base, reference, room))
}

// text ROOM HEX
fn text(room: &mut [u8], s: &[u8], words: &mut Words) -> Result<Outcome, Fault> {
    words.finish()?;
    Ok(cri::uri_text(s, room))
}

// options ROOM HEX ADDRESS PORT
fn options(room: &mut [u8], s: &[u8], words: &mut Words) -> Result<Outcome, Fault> {
    let mut scratch = [0u8; WORD];
    let address = words.bytes(&mut scratch)?;
    let port = words.port()?;
    words.finish()?;
    Ok(cri::options(s, address, port, room))
}

// A request is known by its first word.
fn request(out: &mut Output, line: &[u8]) -> Result<(), Fault> {
    if line.is_empty() {
        return Err(Fault::EmptyLine);
    }
    let (name, words) = Words::of(line);
    match name {
        b"read" => read(out, words),
        b"segment" => segment(out, words),
        b"authority" => authority(out, words),
        b"same" => same(out, words),
        b"write" => lend(out, words, write),
        b"resolve" => lend(out, words, resolve),
        b"text" => lend(out, words, text),
        b"options" => lend(out, words, options),
        _ => Err(Fault::UnknownRequest),
    }
}

// The answer to a line.
pub fn answer(out: &mut Output, line: &[u8]) {
    if let Err(fault) = request(out, line) {
        write!(out, "? {fault}");
    }
}
