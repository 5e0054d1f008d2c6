// Runs the library's calls on requests, one to a line, and answers each with one line (docs/LINES.md).
#![tactic(auto)]

ghost use Rattle.std.specs.Prelude.{◌≤◌, length};

use numbers::BYTES;
use output::{Output, Stream};
use std::io::{Read, Stdin};

// The bytes of the longest line: with place for two links and a room in hex, and for components in words.
const LINE: usize = 16 * BYTES;

// What is kept of a line that is longer: one byte more, so that it shows.
const LONG: usize = LINE + 1;

// Lines that are read, and the start of the next.
const INPUT: usize = 2 * LINE;

// The answer to one line.
fn answer_line(out: &mut Output, line: &[u8]) {
    if line.len() <= LINE {
        lines_requests::answer(out, line);
    } else {
        write!(out, "? line over {LINE} bytes");
    }
    out.byte(b'\n');
}

// The answers to the whole lines of the input, in whose first `kept` bytes no line ends. The result is where the unfinished line starts.
fn answer_lines(out: &mut Output, input: &[u8], kept: usize) -> usize
    requires { kept ≤ length input.now }
    ensures { result ≤ length input.now }
{
    let Some(last) = input[kept..].iter().rposition(|b| *b == b'\n') else {
        return 0;
    };
    let end = kept + last;
    for line in input[..end].split(|b| *b == b'\n') {
        answer_line(out, line);
    }
    out.flush();
    end + 1
}

// Reads the input to its end, or to where it can't be read, and answers each line. The unfinished line stands at the start of the buffer.
fn answer_all(stdin: &mut Stdin, out: &mut Output, input: &mut [u8; INPUT]) {
    let mut kept = 0;
    for _ in 0..u64::MAX {
        let read = stdin.read(&mut input[kept..]).unwrap_or(0);
        if read == 0 {
            break;
        }
        let end = kept + read;
        let start = answer_lines(out, &input[..end], kept);
        kept = (end - start).min(LONG);
        input.copy_within(start..start + kept, 0);
    }
    if 0 < kept {
        answer_line(out, &input[..kept]);
        out.flush();
    }
}

fn main(rt: HostRuntime) {
    let mut input = [0u8; INPUT];
    let mut out = Output::new(Stream::Output);
    answer_all(&mut rt.stdin(), &mut out, &mut input);
}
