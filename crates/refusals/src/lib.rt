// A refusal, as every call tells it: why, and where.
#![tactic(auto)]

ghost use Rattle.std.specs.Prelude.{◌≡◌, Some};
ghost use Rattle.refusals.specs.Answers.{number_of};
ghost use Rattle.refusals.specs.Texts.{name_of, refusal_text};

use std::error::Error;
use std::fmt;

// Why something is refused, by its number (docs/RULES.md, 3.2).
#[derive(Clone, Copy, Debug, PartialEq, Eq)]
pub enum Reason {
    // The bytes end inside the array; empty input.
    Cut = 1,
    // An item of a kind, or a count of outer items, that is not allowed at its place; a final null; the array of only 0.
    Form = 2,
    // A head that is indefinite, reserved or not the shortest.
    Head = 3,
    // A number, length or count outside its range.
    Limit = 4,
    // Not UTF-8.
    Text = 5,
    // A scheme number that is not in the table; a broken rule of a scheme, a label, a segment or all labels.
    Rule = 6,
    // Bytes after the array.
    Tail = 7,
    // A base that the reader refuses or that is not absolute; text or options asked of a reference that is not absolute.
    Base = 8,
    // A resolved CRI with too many segments or bytes.
    Result = 9,
    // An output longer than the room.
    Room = 10,
    // Options asked of a scheme that is not one of the six, or where a fragment is set.
    Coap = 11,
    // A destination address that has not 4 or 16 bytes.
    Dest = 12,
    // A view of a path segment that is not there.
    None = 18,
}

impl Reason {
    // The number that docs/RULES.md gives it.
    pub fn number(self) -> u8
        ensures { result ≡ number_of self }
    {
        self as u8
    }
}

// The name that docs/RULES.md gives the number.
impl fmt::Display for Reason {
    ghost output = { λ reason. Some (name_of reason) };

    fn fmt<W: fmt::Write>(&self, f: &mut fmt::Formatter<W>) -> fmt::Result {
        f.write_str(match self {
            Reason::Cut => "CUT",
            Reason::Form => "FORM",
            Reason::Head => "HEAD",
            Reason::Limit => "LIMIT",
            Reason::Text => "TEXT",
            Reason::Rule => "RULE",
            Reason::Tail => "TAIL",
            Reason::Base => "BASE",
            Reason::Result => "RESULT",
            Reason::Room => "ROOM",
            Reason::Coap => "COAP",
            Reason::Dest => "DEST",
            Reason::None => "NONE",
        })
    }
}

// The reason, and the place: the first byte of the item at fault, or 0 (docs/RULES.md 3.8, 4.10).
#[derive(Clone, Copy, Debug, PartialEq, Eq)]
pub struct Refusal {
    pub reason: Reason,
    pub place: usize,
}

impl fmt::Display for Refusal {
    ghost output = { λ refusal. Some (refusal_text refusal) };

    fn fmt<W: fmt::Write>(&self, f: &mut fmt::Formatter<W>) -> fmt::Result {
        let number = self.reason.number();
        let reason = self.reason;
        let place = self.place;
        write!(f, "refused with {number}, {reason}, at byte {place}")
    }
}

impl Error for Refusal {}

// Ends a function with a refusal: for this reason, at this place.
#[macro_export]
macro_rules! refuse {
    ($reason:ident, $place:expr) => {
        return Err($crate::Refusal { reason: $crate::Reason::$reason, place: $place })
    };
}
