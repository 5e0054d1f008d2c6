// What a refusal means, which rules of docs/RULES.md it is, and where in an argument it is.
use crate::marks::say_marked;
use output::Output;
use refusals::{Reason, Refusal};

// What a reason means, and its rules beside 3.2, where every reason stands.
fn meaning(reason: Reason) -> &'static str {
    match reason {
        Reason::Cut => "the bytes end inside the array, or there are none (rules 3.2, 4.3)",
        Reason::Form => {
            "an item of a kind, or a count of items, that is not allowed at its place; a null at the end; or the array of only 0 (rules 3.2, 1.1 to 1.5, 1.8, 4.4 to 4.7)"
        }
        Reason::Head => "a head that is indefinite, reserved or not the shortest (rules 3.2, 4.3)",
        Reason::Limit => {
            "a number, a length or a count outside its range (rules 3.2, 2.1 to 2.7, 4.1)"
        }
        Reason::Text => "a text that is not UTF-8 (rules 3.2, 1.11)",
        Reason::Rule => {
            "a scheme number that is not in the table; a scheme text that is in it, or is no scheme; a label with \".\", A to Z, \"[\" or \"]\"; labels that look like an IPv4 address or are too long together; the segment \".\" or \"..\" (rules 3.2, 1.6, 1.7, 1.9, 1.10, 2.5)"
        }
        Reason::Tail => "bytes after the array (rules 3.2, 4.9)",
        Reason::Base => {
            "not absolute, or a base that the reader refuses (rules 3.2, 1.12, 3.3 to 3.5)"
        }
        Reason::Result => {
            "the resolved CRI has more segments or bytes than a link may have (rules 3.2, 5.5, 2.1, 2.2)"
        }
        Reason::Room => "the output is longer than the room (rules 3.2, 3.7)",
        Reason::Coap => {
            "a scheme that is a text, or a fragment, which no option carries (rules 3.2, 3.5)"
        }
        Reason::Dest => "a destination address that has not 4 or 16 bytes (rules 3.2, 3.5)",
        Reason::None => "a path segment that is not there (rules 3.2, 10.1)",
    }
}

// "refused with 4, LIMIT: .."
pub fn say_reason(out: &mut Output, reason: Reason) {
    let number = reason.number();
    writeln!(out, "refused with {number}, {reason}: {}", meaning(reason));
}

// A place in an argument, and the bytes around it.
fn say_place(out: &mut Output, s: &[u8], place: usize) {
    let ended = if s.len() <= place {
        ", where the input has ended"
    } else {
        ""
    };
    writeln!(out, "place     byte {place}{ended}");
    say_marked(out, s, place);
}

// Which argument is refused, why and where. The reader's reasons, 1 to 7, have a place.
pub fn say_refusal(out: &mut Output, argument: &[u8], s: &[u8], refusal: Refusal) {
    let Refusal { reason, place } = refusal;
    out.text(argument);
    out.text(b" is ");
    say_reason(out, reason);
    if reason.number() <= Reason::Tail.number() {
        say_place(out, s, place);
    }
}
