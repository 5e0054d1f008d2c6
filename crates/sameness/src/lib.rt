// Whether two links are the same CRI: both URI texts are written, and compared.
#![tactic(auto)]

ghost use Rattle.std.specs.Prelude.{◌≤◌, ◌≡◌, true, ◌↔◌, length};
ghost use Rattle.rules.specs.Model.{limits};
ghost use Rattle.rules.specs.Calls.{length_of, after, text_call};
ghost use Rattle.rules.specs.Views.{verdict};
ghost use Rattle.refusals.specs.Answers.{verdict_is};
ghost use Rattle.outcomes.specs.Answers.{outcome_is};
ghost use Rattle.sameness.specs.Answers.{WroteSame, Answered, CallsDemand3, Judged};

use cri::Outcome;
use numbers::TEXT_ROOM;
use refusals::Refusal;

// What the two calls answered, and whether both wrote a text and the two texts are equal.
#[derive(Clone, Copy, Debug, PartialEq, Eq)]
pub struct Compared {
    pub first: Outcome,
    pub second: Outcome,
    pub equal: bool,
}

// Of each link, whether it is accepted as absolute, or the refusal; and whether both are, and are the same CRI.
#[derive(Clone, Copy, Debug, PartialEq, Eq)]
pub struct Judgement {
    pub first: Result<(), Refusal>,
    pub second: Result<(), Refusal>,
    pub equal: bool,
}

// Whether two calls, which left their rooms as x and y, both wrote, and what they wrote is equal, length and bytes.
fn wrote_same(first: Outcome, second: Outcome, x: &[u8], y: &[u8]) -> bool
    requires { (length_of (outcome_is first) ≤ length x.now) × (length_of (outcome_is second) ≤ length y.now) }
    ensures { (result ≡ true) ↔ WroteSame first second x.now y.now }
{
    match first {
        Err(_) => false,
        Ok(n) => match second {
            Err(_) => false,
            Ok(m) => same_bytes::same(&x[..n], &y[..m]),
        },
    }
}

// Whether a call is done, or its refusal.
fn verdict_of(outcome: Outcome) -> Result<(), Refusal>
    ensures { verdict_is result ≡ verdict (outcome_is outcome) }
{
    outcome?;
    Ok(())
}

// Writes the URI text of the first link into the room x and that of the second into the room y, and compares what was written. Each call
// answers, and leaves in its room, what cri::uri_text does.
pub fn compare(first: &[u8], second: &[u8], x: &mut [u8], y: &mut [u8]) -> Compared
    ensures answered { Answered first.now second.now (length x.old) (length y.old) result }
    ensures calls_demand3 { CallsDemand3 first.now second.now (length x.old) (length y.old) result x.new y.new }
    ensures x_after { x.new ≡ after (text_call limits first.now) x.old }
    ensures y_after { y.new ≡ after (text_call limits second.now) y.old }
{
    let one = cri::uri_text(first, x);
    let other = cri::uri_text(second, y);
    Compared {
        first: one,
        second: other,
        equal: wrote_same(one, other, x, y),
    }
}

// Whether two links are the same CRI. The rooms are long enough for the text of every accepted link, so no refusal is 10.
pub fn judge(first: &[u8], second: &[u8]) -> Judgement
    ensures { Judged first.now second.now result }
{
    let mut x = [0u8; TEXT_ROOM];
    let mut y = [0u8; TEXT_ROOM];
    let compared = compare(first, second, &mut x, &mut y);
    Judgement {
        first: verdict_of(compared.first),
        second: verdict_of(compared.second),
        equal: compared.equal,
    }
}
