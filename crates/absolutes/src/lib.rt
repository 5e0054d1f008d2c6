// Absolute references: scheme and authority are both there.
#![tactic(auto)]

ghost use Rattle.std.specs.Prelude.{◌≡◌};
ghost use Rattle.rules.specs.Model.{limits};
ghost use Rattle.refusals.specs.Answers.{answer_is};
ghost use Rattle.reader.specs.Answers.{opening_of, found_of};
ghost use Rattle.absolutes.specs.Bases.{is_absolute, read_base};

use reader::{Found, OpeningAt};
use refusals::{Refusal, refuse};

// Whether an opening is that of an absolute reference.
pub fn is_absolute(opening: OpeningAt) -> bool
    ensures { result ≡ is_absolute (opening_of opening) }
{
    matches!(opening, OpeningAt::Full(Some(_), _))
}

// Where everything stands in a base; 8 where the reader refuses it, at the reader's place, or at 0 where it is not absolute.
pub fn read_base(s: &[u8]) -> Result<Found, Refusal>
    ensures { answer_is found_of result ≡ read_base limits s.now }
{
    match reader::read(s) {
        Err(refusal) => refuse!(Base, refusal.place),
        Ok(found) => {
            if !is_absolute(found.opening) {
                refuse!(Base, 0);
            }
            Ok(found)
        }
    }
}
