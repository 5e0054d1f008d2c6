// Writing a reference that was read gives its bytes again; reading what was written gives its contents again.
#![tactic(auto)]

ghost use Rattle.std.specs.Prelude.{◌≡◌, length};
ghost use Rattle.rules.specs.Model.{limits};
ghost use Rattle.rules.specs.Calls.{outcome, after, read_call};
ghost use Rattle.components.specs.Layout.{spans_after};
ghost use Rattle.outcomes.specs.Answers.{outcome_is};
ghost use Rattle.round_trip.specs.Again.{again};
ghost use Rattle.round_trip.specs.Rereading.{Rereads};

use cri::{Components, Outcome, Refusal, Spans};

// What writing answered, and what reading answers of the bytes that it wrote.
#[derive(Clone, Copy, Debug, PartialEq, Eq)]
pub struct ReadBack {
    pub written: Outcome,
    pub reading: Result<Components, Refusal>,
}

// Reads s, and writes the components that reading reports, with s as the lent bytes, into the room: the refusal that reading has for s;
// or s again, every byte of it; 10 where the room is shorter than s. The spans are as reading leaves them.
pub fn rewrite(s: &[u8], spans: &mut Spans, room: &mut [u8]) -> Outcome
    ensures result_value { outcome_is result ≡ outcome (again limits s.now) (length room.old) }
    ensures room_after { room.new ≡ after (again limits s.now) room.old }
    ensures spans_after { spans.new ≡ spans_after (read_call limits s.now) spans.old }
{
    let components = cri::read(s, spans)?;
    cri::write(components, spans, s, room)
}

// Writes a reference from components and spans, whose texts and addresses stand in `lent`, into the room, as cri::write does, and reads what
// was written, with `found` for its spans. Where writing is done, reading is too, and reports the same contents. Where it is refused, no bytes
// are read: 1 at 0.
pub fn reread(
    components: Components,
    spans: &Spans,
    lent: &[u8],
    room: &mut [u8],
    found: &mut Spans,
) -> ReadBack
    ensures { Rereads components spans.now lent.now room.old found.old result room.new found.new }
{
    let written = cri::write(components, spans, lent, room);
    let n = outcomes::written(written);
    ReadBack {
        written,
        reading: cri::read(&room[..n], found),
    }
}
