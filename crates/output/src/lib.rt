// What a program prints is gathered in memory. It is written to a stream where the memory is full, and by `flush`.
#![tactic(auto)]

ghost use Rattle.std.specs.Prelude.{◌≡◌, ℕ, ◌<◌, ◌↔◌, IsTrue, [], ◌∷◌, length};
ghost use Rattle.io.specs.Digits.{hex_digit_ascii, IsDigitCount, last_digits};
ghost use Rattle.output.specs.Output.{after, pair_of, hex_of};

use std::fmt;
use std::fmt::Write;
use std::marker::Model;

// The streams that a program writes to, by their descriptors.
#[derive(Clone, Copy, Debug, PartialEq, Eq)]
pub enum Stream {
    Output = 1,
    Error = 2,
}

impl Stream {
    // Writes at once, past what an `Output` holds.
    pub fn write(self, text: &[u8]) {
        io::write_all(self as i32, text);
    }
}

// What `io::large_buffer` holds.
const SIZE: usize = 65536;

// A number below 16 as a lower-case hex digit.
fn hex_digit(n: u8) -> u8
    requires { n < 16 }
    ensures { result ≡ hex_digit_ascii n }
{
    if n < 10 { b'0' + n } else { b'a' + (n - 10) }
}

// The first `used` bytes wait to be written.
#[derive(Clone, Drop)]
pub struct Output {
    bytes: [u8; SIZE],
    used: usize,
    stream: Stream,
}

// A clause sees the bytes that wait.
impl Model for Output {
    ghost use Rattle.std.specs.Prelude.{ℕ, List, ◌≤◌, take};

    ghost Value = { List ℕ };

    ghost view = { λ o. take o.used o.bytes };

    ghost invariant = { λ o. o.used ≤ 65536 };
}

#[tactic(auto, unfolding(crate::specs::Output::after_byte, crate::specs::Output::after, crate::specs::Output::pair_of, crate::specs::Output::hex_of))]
impl Output {
    pub fn new(stream: Stream) -> Output
        ensures { result ≡ [] }
    {
        Output {
            bytes: io::large_buffer(),
            used: 0,
            stream,
        }
    }

    // How many bytes wait.
    pub fn len(&self) -> usize
        ensures { result ≡ length self.now }
    {
        self.used
    }

    pub fn is_empty(&self) -> bool
        ensures { IsTrue result ↔ (self.now ≡ []) }
    {
        self.used == 0
    }

    // Writes what waits.
    pub fn flush(&mut self)
        ensures { self.new ≡ [] }
    {
        self.stream.write(&self.bytes[..self.used]);
        self.used = 0;
    }

    pub fn byte(&mut self, b: u8)
        ensures { self.new ≡ after self.old (b ∷ []) }
    {
        if self.used == SIZE {
            self.flush();
        }
        self.bytes[self.used] = b;
        self.used += 1;
    }

    pub fn text(&mut self, text: &[u8])
        ensures { self.new ≡ after self.old text.now }
    {
        for b in text {
            self.byte(*b);
        }
    }

    // What `write!` calls.
    pub fn write_fmt<D: fmt::Display + Drop>(&mut self, text: D) {
        let _ = self.write(text);
    }

    // A byte as two lower-case hex digits.
    pub fn pair(&mut self, b: u8)
        ensures { self.new ≡ after self.old (pair_of b) }
    {
        self.byte(hex_digit(b / 16));
        self.byte(hex_digit(b % 16));
    }

    // Bytes in hex.
    pub fn hex(&mut self, s: &[u8])
        ensures { self.new ≡ after self.old (hex_of s.now) }
    {
        for b in s {
            self.pair(*b);
        }
    }

    // A number in decimal.
    pub fn number(&mut self, n: u64)
        ensures { (k : ℕ) × IsDigitCount 10 1 n k × (self.new ≡ after self.old (last_digits 10 k n)) }
    {
        let mut digits = [0u8; 20];
        let k = io::decimal(n, &mut digits);
        self.text(&digits[..k]);
    }
}

// So that `write!` prints.
impl Write for Output {
    ghost write_str_gives = { λ before text now. now ≡ after before text };

    fn write_str(&mut self, s: &str) -> fmt::Result {
        self.text(s.as_bytes());
        Ok(())
    }
}
