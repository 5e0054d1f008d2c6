// Resolving a reference against a base: the parts of the result are measured, compared with the room, and written.
#![tactic(auto)]

ghost use Rattle.std.specs.Prelude.{◌≡◌, length};
ghost use Rattle.rules.specs.Model.{limits};
ghost use Rattle.rules.specs.Calls.{outcome, after, resolve_call};
ghost use Rattle.outcomes.specs.Answers.{outcome_is};
ghost use Rattle.resolver_parts.specs.Written.{PartsInside, PartsSmall};
ghost use Rattle.resolver.specs.Written.{parts_result};

use numbers::{BYTES, SEGMENTS};
use outcomes::Outcome;
use refusals::{Refusal, refuse};
use resolver_parts::{Input, Parts, parts_of};

// The answer, and the result in the room.
fn put_result(base: &[u8], reference: &[u8], p: Parts, room: &mut [u8]) -> Outcome
    requires { PartsSmall p × PartsInside base.now reference.now p }
    ensures result_value { outcome_is result ≡ outcome (parts_result base.now reference.now p) (length room.old) }
    ensures room_after { room.new ≡ after (parts_result base.now reference.now p) room.old }
{
    if SEGMENTS < p.path.count {
        refuse!(Result, 0); // too many segments
    }
    let n = p.length();
    if BYTES < n {
        refuse!(Result, 0); // too many bytes
    }
    if room.len() < n {
        refuse!(Room, 0);
    }
    Ok(p.put(room, base, reference))
}

// The answer, and the encoding of the resolved CRI in the room.
pub fn resolve(base: &[u8], reference: &[u8], room: &mut [u8]) -> Outcome
    ensures result_value { outcome_is result ≡ outcome (resolve_call limits base.now reference.now) (length room.old) }
    ensures room_after { room.new ≡ after (resolve_call limits base.now reference.now) room.old }
{
    let b = absolutes::read_base(base)?;
    let r = reader::read(reference)?;
    let parts = parts_of(
        Input {
            bytes: base,
            found: b,
        },
        Input {
            bytes: reference,
            found: r,
        },
    );
    put_result(base, reference, parts, room)
}
