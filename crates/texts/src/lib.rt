// One text of a CRI reference, judged by its sort, and the rules over all labels of a name.
#![tactic(auto)]

ghost use Rattle.std.specs.Prelude.{◌≡◌, ◌≤◌, length};
ghost use Rattle.rules.specs.Bytes.{within};
ghost use Rattle.rules.specs.Rules.{scheme_byte, starts_lower, scheme_name, label_byte, label_rule, segment_rule, octet, looks_ipv4, name_rule};
ghost use Rattle.rules.specs.Reader.{text_body, contents};
ghost use Rattle.rules.specs.Standing.{RowAt};
ghost use Rattle.refusals.specs.Answers.{answer_is};
ghost use Rattle.cbor.specs.Heads.{head_is};
ghost use Rattle.texts.specs.Answers.{scheme_form, sort_is, dotted_length};

use cbor::{Head, Span};
use cbor_rows::{Row, texts_at};
use numbers::{LABEL_BYTES, NAME_BYTES, SCHEME_BYTES, TEXT_BYTES};
use refusals::{Refusal, refuse};

// The most bytes that all labels have, each with a dot after it.
const DOTTED_BYTES: usize = NAME_BYTES + 1;

// What a text is, which settles its least and greatest length and its rule. That a scheme is none of the names of the table is tested by
// `scheme_body`, so that no other text pays for it.
#[derive(Clone, Copy, Debug, PartialEq, Eq)]
pub enum Sort {
    SchemeForm,
    Label,
    Segment,
    Parameter,
    Fragment,
}

// A lower-case letter, a digit, "+", "." or "-".
#[tactic(auto, unfolding(rules::specs::Rules::scheme_byte))]
fn scheme_byte(b: u8) -> bool
    ensures { result ≡ scheme_byte b }
{
    b.is_ascii_lowercase() || b.is_ascii_digit() || matches!(b, b'+' | b'.' | b'-')
}

#[tactic(auto, unfolding(rules::specs::Rules::starts_lower))]
fn starts_lower(text: &[u8]) -> bool
    ensures { result ≡ starts_lower text.now }
{
    matches!(text, [b'a'..=b'z', ..])
}

// The bytes of a scheme given as text: a lower-case letter first.
fn scheme_form(text: &[u8]) -> bool
    ensures { result ≡ scheme_form text.now }
{
    starts_lower(text) && text.iter().all(|b| scheme_byte(*b))
}

// Neither ".", "[" nor "]", nor A to Z.
#[tactic(auto, unfolding(rules::specs::Rules::label_byte))]
fn label_byte(b: u8) -> bool
    ensures { result ≡ label_byte b }
{
    !matches!(b, b'.' | b'[' | b']' | b'A'..=b'Z')
}

fn label_rule(text: &[u8]) -> bool
    ensures { result ≡ label_rule text.now }
{
    text.iter().all(|b| label_byte(*b))
}

// Never "." or "..".
#[tactic(auto, using(crate::proofs::RuleCases::long_segment), unfolding(rules::specs::Rules::segment_rule))]
fn segment_rule(text: &[u8]) -> bool
    ensures { result ≡ segment_rule text.now }
{
    match text {
        [b'.'] | [b'.', b'.'] => false,
        _ => true,
    }
}

// Whether a text keeps the rule of its sort.
fn keeps_rule(text: &[u8], sort: Sort) -> bool
    ensures { result ≡ (sort_is sort).rule text.now }
{
    match sort {
        Sort::SchemeForm => scheme_form(text),
        Sort::Label => label_rule(text),
        Sort::Segment => segment_rule(text),
        Sort::Parameter | Sort::Fragment => true,
    }
}

// Whether a text may have n bytes.
fn length_fits(n: u64, sort: Sort) -> bool
    ensures { result ≡ within (sort_is sort).low (sort_is sort).high n }
{
    match sort {
        Sort::SchemeForm => (1..=SCHEME_BYTES).contains(&n),
        Sort::Label => (1..=LABEL_BYTES).contains(&n),
        Sort::Segment | Sort::Parameter | Sort::Fragment => n <= TEXT_BYTES,
    }
}

// The text at a position, whose head has been read: the position after it.
pub fn text_body(s: &[u8], at: usize, head: Head, sort: Sort) -> Result<usize, Refusal>
    requires { head.next ≤ length s.now }
    ensures { answer_is (λ n. n) result ≡ text_body (sort_is sort) s.now at (head_is head) }
{
    if !length_fits(head.value, sort) {
        refuse!(Limit, at);
    }
    let count = head.value as usize;
    if s.len() - head.next < count {
        refuse!(Cut, at);
    }
    let text = &s[head.next..head.next + count];
    if !utf8::valid(text) {
        refuse!(Text, at);
    }
    if !keeps_rule(text, sort) {
        refuse!(Rule, at);
    }
    Ok(head.next + count)
}

// The text of a scheme, whose head has been read: none of the names of the table.
pub fn scheme_body(s: &[u8], at: usize, head: Head) -> Result<usize, Refusal>
    requires { head.next ≤ length s.now }
    ensures { answer_is (λ n. n) result ≡ text_body scheme_name s.now at (head_is head) }
{
    let end = text_body(s, at, head, Sort::SchemeForm)?;
    let name = Span {
        start: head.next,
        length: head.value as usize,
    };
    if schemes::is_name(name.of(s)) {
        refuse!(Rule, at);
    }
    Ok(end)
}

// The length of labels that were accepted, each with a dot after it.
fn dotted_length(s: &[u8], row: Row) -> usize
    requires { (RowAt s.now row.at row.count) × (row.at ≤ length s.now) }
    ensures { result ≡ dotted_length (contents s.now row.at row.count) }
{
    texts_at(s, row).map(|label| label.len() + 1).sum()
}

// A digit from the least one on.
fn digit_from(least: u8, b: u8) -> bool
    ensures { result ≡ within least 0x39 b }
{
    (least..=b'9').contains(&b)
}

// Whether a text is a decimal 0 to 255 without leading zeros. For three digits at most 255 the sum of their bytes is at most 48 * 111 + 255.
#[tactic(auto, unfolding(rules::specs::Rules::octet))]
fn octet(text: &[u8]) -> bool
    ensures { result ≡ octet text.now }
{
    match *text {
        [a] => digit_from(b'0', a),
        [a, b] => digit_from(b'1', a) && digit_from(b'0', b),
        [a, b, c] => digit_from(b'1', a)
            && digit_from(b'0', b)
            && digit_from(b'0', c)
            && u16::from(a) * 100 + u16::from(b) * 10 + u16::from(c) <= 5583,
        _ => false,
    }
}

// Whether labels that were accepted would print as an IPv4 address.
fn looks_ipv4(s: &[u8], row: Row) -> bool
    requires { RowAt s.now row.at row.count }
    ensures { result ≡ looks_ipv4 (contents s.now row.at row.count) }
{
    row.count == 4 && texts_at(s, row).all(octet)
}

// The rules over all labels, which were accepted one by one.
pub fn name_rule(s: &[u8], row: Row) -> bool
    requires { (RowAt s.now row.at row.count) × (row.at ≤ length s.now) }
    ensures { result ≡ name_rule (contents s.now row.at row.count) }
{
    dotted_length(s, row) <= DOTTED_BYTES && !looks_ipv4(s, row)
}
