// The authority of a reference or of its base, as a part of the lent slice that has it.
#![tactic(auto)]

ghost use Rattle.std.specs.Prelude.{◌≡◌, ◌-◌, ◌≤◌};
ghost use Rattle.std.proofs.Math.Option.{none};
ghost use Rattle.rules.specs.Model.{limits};
ghost use Rattle.rules.specs.Views.{authority_span, chosen, authority_view, piece_shown, verdict};
ghost use Rattle.rules.specs.Laid.{Ordered};
ghost use Rattle.cbor.specs.Heads.{span_is};
ghost use Rattle.reader.specs.Answers.{opening_of};
ghost use Rattle.refusals.specs.Answers.{answer_is, verdict_is};
ghost use Rattle.authority_view.specs.Shown.{PieceOf, piece_is};

use cbor::Span;
use reader::{AuthorityAt, OpeningAt};
use refusals::Refusal;

// A part of the reference, or of the base.
#[derive(Drop)]
enum Piece {
    OfReference(Span),
    OfBase(Span),
}

// Where the whole item of an authority stands.
fn item_span(authority: AuthorityAt) -> Span
    requires { authority.at ≤ authority.next }
    ensures { span_is result ≡ record { start = authority.at; length = authority.next - authority.at } }
{
    Span {
        start: authority.at,
        length: authority.next - authority.at,
    }
}

// The reference's own authority, else the base's; the empty part of the reference where neither has one.
fn chosen_item(base: OpeningAt, reference: OpeningAt) -> Piece
    requires { Ordered (opening_of base) × Ordered (opening_of reference) }
    ensures { piece_is result ≡ chosen (authority_span (opening_of base)) (authority_span (opening_of reference)) }
{
    if let OpeningAt::Full(_, authority) = reference {
        return Piece::OfReference(item_span(authority));
    }
    if let OpeningAt::Full(_, authority) = base {
        return Piece::OfBase(item_span(authority));
    }
    Piece::OfReference(Span {
        start: 0,
        length: 0,
    })
}

// The authority that the reference brings, else the base's. The base is judged first.
fn chosen_authority(base: &[u8], reference: &[u8]) -> Result<Piece, Refusal>
    ensures { answer_is piece_is result ≡ authority_view limits base.now reference.now }
{
    let old = absolutes::read_base(base)?;
    let new = reader::read(reference)?;
    Ok(chosen_item(old.opening, new.opening))
}

// The authority that the reference brings, else the base's: the whole encoded item, as a part of the slice that has it; the empty part at
// the start of the reference where it can't be given.
pub fn authority<'a>(base: &'a [u8], reference: &'a [u8]) -> &'a [u8]
    ensures { PieceOf base.entry reference.entry result (piece_shown (authority_view limits base.now reference.now)) }
{
    match chosen_authority(base, reference) {
        Ok(Piece::OfReference(span)) => span.of(reference),
        Ok(Piece::OfBase(span)) => span.of(base),
        Err(_) => &reference[..0],
    }
}

// Accepted where it is given; 8 where the base is refused or not absolute; 1 to 7 where the reference is refused.
pub fn authority_verdict(base: &[u8], reference: &[u8]) -> Result<(), Refusal>
    ensures { verdict_is result ≡ verdict (authority_view limits base.now reference.now) }
{
    chosen_authority(base, reference)?;
    Ok(())
}
