// UTF-8 (RFC 3629): whether a text is UTF-8.
#![tactic(auto)]

ghost use Rattle.std.specs.Prelude.{◌≡◌, ◌<◌, length, MatchOption};
ghost use Rattle.rules.specs.Bytes.{within, all};
ghost use Rattle.rules.specs.Utf8.{utf8};
ghost use Rattle.utf8.specs.Answers.{follows, is_ascii, second_high, second_low, NoMultibyte, Passed, Suffix};

// Whether all bytes are ASCII. It has no early exit, so that it becomes vector code.
fn ascii(block: &[u8]) -> bool
    ensures { result ≡ all is_ascii block.now }
{
    block.iter().fold(0, |most: u8, b| most.max(*b)) < 0x80
}

// The text after the blocks of n ASCII bytes at its start.
fn after_blocks(text: &[u8], n: usize) -> &[u8]
    requires { 0 < n }
    ensures { Suffix text.now result.now }
{
    let mut rest = text;
    while n <= rest.len() && ascii(&rest[..n]) {
        rest = &rest[n..];
    }
    rest
}

// The text after the ASCII bytes at its start, in blocks as far as they go. Where fewer than 8 bytes are left after the blocks, the last 8 of
// the text are tested at once.
fn after_ascii(text: &[u8]) -> &[u8]
    ensures { Passed text.now result.now }
{
    if text.len() < 8 {
        return after_blocks(text, 1);
    }
    if text[0] >= 0x80 {
        return text;
    }
    let rest = after_blocks(after_blocks(text, 32), 8);
    if rest.len() < 8 && ascii(&text[text.len() - 8..]) {
        return &[];
    }
    after_blocks(rest, 1)
}

// The least second byte: none that would make a form longer than needed.
#[tactic(auto, unfolding(crate::specs::Answers::second_low))]
fn second_low(lead: u8) -> u8
    ensures { result ≡ second_low lead }
{
    match lead {
        0xe0 => 0xa0,
        0xf0 => 0x90,
        _ => 0x80,
    }
}

// The largest second byte: no surrogate, and nothing above U+10FFFF.
#[tactic(auto, unfolding(crate::specs::Answers::second_high))]
fn second_high(lead: u8) -> u8
    ensures { result ≡ second_high lead }
{
    match lead {
        0xed => 0x9f,
        0xf4 => 0x8f,
        _ => 0xbf,
    }
}

// Whether the second byte may follow the lead byte.
#[tactic(auto, unfolding(crate::specs::Answers::follows))]
fn follows(lead: u8, second: u8) -> bool
    ensures { result ≡ follows lead second }
{
    (second_low(lead)..=second_high(lead)).contains(&second)
}

// Whether a byte may follow as the third or fourth.
fn continues(b: u8) -> bool
    ensures { result ≡ within 0x80 0xBF b }
{
    matches!(b, 0x80..=0xbf)
}

// The text after the character of two bytes or more at its start, if one stands there (RFC 3629, section 4). The bytes of a character are
// tested by `&`, which has no branch of its own.
fn after_multibyte(text: &[u8]) -> Option<&[u8]>
    ensures { MatchOption result (NoMultibyte text.now) (λ rest. Passed text.now rest.now × (length rest.now < length text.now)) }
{
    let [lead, second, rest @ ..] = text else {
        return None;
    };
    match (*lead, rest) {
        (0xc2..=0xdf, _) if follows(*lead, *second) => Some(rest),
        (0xe0..=0xef, [third, rest @ ..]) if follows(*lead, *second) & continues(*third) => Some(
            rest,
        ),
        (0xf0..=0xf4, [third, fourth, rest @ ..])
            if follows(*lead, *second) & continues(*third) & continues(*fourth) => Some(rest),
        _ => None,
    }
}

// Whether a text is UTF-8 (RFC 3629).
pub fn valid(text: &[u8]) -> bool
    ensures { result ≡ utf8 text.now }
{
    let mut rest = text;
    loop {
        rest = after_ascii(rest);
        while let Some(next) = after_multibyte(rest) {
            rest = next;
        }
        let [0x00..=0x7f, next @ ..] = rest else {
            return rest.is_empty();
        };
        rest = next;
    }
}
