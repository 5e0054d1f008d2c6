// What a call that writes into a lent room answers, whatever it writes.
#![tactic(auto)]

ghost use Rattle.std.specs.Prelude.{◌≡◌, length};
ghost use Rattle.rules.specs.Result.{ok};
ghost use Rattle.rules.specs.Calls.{length_of, outcome, after};
ghost use Rattle.outcomes.specs.Answers.{outcome_is};

use put::put_bytes;
use refusals::{Refusal, refuse};

// How many bytes were written; or the refusal, which leaves the room as it was.
pub type Outcome = Result<usize, Refusal>;

// How many bytes were written: none after a refusal.
pub fn written(outcome: Outcome) -> usize
    ensures { result ≡ length_of (outcome_is outcome) }
{
    outcome.unwrap_or(0)
}

// Bytes that are ready, copied into the room; 10 where it is shorter.
pub fn copied(s: &[u8], room: &mut [u8]) -> Outcome
    ensures result_value { outcome_is result ≡ outcome (ok s.now) (length room.old) }
    ensures room_after { room.new ≡ after (ok s.now) room.old }
{
    if room.len() < s.len() {
        refuse!(Room, 0);
    }
    Ok(put_bytes(room, 0, s))
}
