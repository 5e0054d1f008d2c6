// The arguments of a command of cri_tool, and what is wrong with them.
#![tactic(auto)]

ghost use Rattle.std.specs.Prelude.{◌≤◌, length, IfOk};

use std::env::{Env, FillError};
use std::fmt;
use tool_input::{AddressError, HexError};
use words::NumberError;

// The descriptor of standard input.
const STDIN: i32 = 0;

// What is wrong with an argument.
#[derive(Clone, Copy, Debug, PartialEq, Eq)]
pub enum Fault {
    Missing,
    Unknown,
    TooMany,
    TooLong,
    TwoDashes,
    NotHex,
    Odd,
    NotDotted,
    NotIpv6,
    AddressTooLong,
    NotDecimal,
    PortTooLarge,
}

// What follows the argument's name.
impl fmt::Display for Fault {
    fn fmt<W: fmt::Write>(&self, f: &mut fmt::Formatter<W>) -> fmt::Result {
        f.write_str(match self {
            Fault::Missing => "is missing",
            Fault::Unknown => "is unknown",
            Fault::TooMany => {
                "is followed by too many arguments: hex with blanks is to stand in quotation marks"
            }
            Fault::TooLong => "has over 32768 bytes or over 65535 characters",
            Fault::TwoDashes => "can't be read from standard input too",
            Fault::NotHex => "has a character that is no hex digit and no blank",
            Fault::Odd => "has an odd number of hex digits",
            Fault::NotDotted => "has a dot, and is not four numbers from 0 to 255",
            Fault::NotIpv6 => "has a colon, and is no IPv6 address",
            Fault::AddressTooLong => "has over 16 bytes",
            Fault::NotDecimal => "is not a decimal number",
            Fault::PortTooLarge => "is over 65535",
        })
    }
}

// What the messages call an argument, and what is wrong with it.
#[derive(Clone, Copy, Debug)]
pub struct Complaint {
    argument: &'static str,
    fault: Fault,
}

impl Fault {
    pub fn of(self, argument: &'static str) -> Complaint {
        Complaint {
            argument,
            fault: self,
        }
    }
}

impl fmt::Display for Complaint {
    fn fmt<W: fmt::Write>(&self, f: &mut fmt::Formatter<W>) -> fmt::Result {
        let Complaint { argument, fault } = *self;
        write!(f, "{argument} {fault}")
    }
}

impl From<HexError> for Fault {
    fn from(error: HexError) -> Fault {
        match error {
            HexError::NotHex => Fault::NotHex,
            HexError::Odd => Fault::Odd,
            HexError::TooLong => Fault::TooLong,
        }
    }
}

impl From<AddressError> for Fault {
    fn from(error: AddressError) -> Fault {
        match error {
            AddressError::NotDotted => Fault::NotDotted,
            AddressError::NotIpv6 => Fault::NotIpv6,
            AddressError::Hex(HexError::TooLong) => Fault::AddressTooLong,
            AddressError::Hex(error) => Fault::from(error),
        }
    }
}

impl From<NumberError> for Fault {
    fn from(error: NumberError) -> Fault {
        match error {
            NumberError::NotDecimal => Fault::NotDecimal,
            NumberError::TooLarge => Fault::PortTooLarge,
        }
    }
}

// Argument i, at the start of the room; `too_long` where it is longer.
fn take(rt: &impl Env, room: &mut [u8], i: usize, too_long: Fault) -> Result<usize, Fault>
    ensures { IfOk result (λ n. n ≤ length room.new) }
{
    rt.arg(i, room).map_err(|error| match error {
        FillError::NotPresent => Fault::Missing,
        FillError::TooLong => too_long,
    })
}

fn is_given(rt: &impl Env, i: usize) -> bool {
    !matches!(rt.arg(i, &mut []), Err(FillError::NotPresent))
}

// Whether the argument is "-".
fn is_dash(rt: &impl Env, i: usize) -> bool {
    let mut word = [0u8; 2];
    match rt.arg(i, &mut word) {
        Ok(n) => matches!(&word[..n], b"-"),
        Err(_) => false,
    }
}

// The bytes that hex on standard input says. It is a call, as take_word is, so that their large buffers are no part of their callers.
#[inline(never)]
fn take_input(room: &mut [u8]) -> Result<&[u8], Fault> {
    let mut word = io::large_buffer();
    let mut scratch = io::large_buffer();
    let n = io::read_full(STDIN, &mut word);
    if n == word.len() {
        return Err(Fault::TooLong);
    }
    let n = tool_input::hex_bytes(room, &mut scratch, &word[..n])?;
    Ok(&room[..n])
}

// The bytes that an argument of hex says.
#[inline(never)]
fn take_word<'a>(rt: &impl Env, room: &'a mut [u8], i: usize) -> Result<&'a [u8], Fault> {
    let mut word = io::large_buffer();
    let mut scratch = io::large_buffer();
    let n = take(rt, &mut word, i, Fault::TooLong)?;
    let n = tool_input::hex_bytes(room, &mut scratch, &word[..n])?;
    Ok(&room[..n])
}

// The bytes that argument i says, of `count` arguments in all.
pub fn take_hex<'a>(
    rt: &impl Env,
    room: &'a mut [u8],
    i: usize,
    count: usize,
) -> Result<&'a [u8], Fault> {
    if !is_given(rt, i) {
        return Err(Fault::Missing);
    }
    if is_given(rt, count) {
        return Err(Fault::TooMany);
    }
    if !is_dash(rt, i) {
        return take_word(rt, room, i);
    }
    if i == 3 && is_dash(rt, 2) {
        return Err(Fault::TwoDashes);
    }
    take_input(room)
}

// Arguments 2 and on, each of 4,096 bytes at most, put after one another. The result is how long they are together.
fn join_arguments(rt: &impl Env, room: &mut [u8]) -> Result<usize, Fault>
    ensures { IfOk result (λ n. n ≤ length room.new) }
{
    let mut end = 0;
    for i in 2..usize::MAX {
        let most = (room.len() - end).min(4096);
        match take(rt, &mut room[end..end + most], i, Fault::TooLong) {
            Ok(n) => end += n,
            Err(Fault::Missing) => break,
            Err(fault) => return Err(fault),
        }
    }
    Ok(end)
}

// The bytes that all arguments after the command say together.
#[inline(never)]
pub fn take_joined<'a>(rt: &impl Env, room: &'a mut [u8]) -> Result<&'a [u8], Fault> {
    if !is_given(rt, 3) {
        return take_hex(rt, room, 2, 3);
    }
    let mut word = [0u8; 65535];
    let mut scratch = io::large_buffer();
    let n = join_arguments(rt, &mut word)?;
    let n = tool_input::hex_bytes(room, &mut scratch, &word[..n])?;
    Ok(&room[..n])
}

// The bytes of the address that argument i says.
pub fn take_address<'a>(rt: &impl Env, room: &'a mut [u8], i: usize) -> Result<&'a [u8], Fault> {
    let mut word = io::buffer();
    let mut scratch = io::buffer();
    let n = take(rt, &mut word, i, Fault::AddressTooLong)?;
    let n = tool_input::address_bytes(room, &mut scratch, &word[..n])?;
    Ok(&room[..n])
}

// The port that argument i says.
pub fn take_port(rt: &impl Env, i: usize) -> Result<u16, Fault> {
    let mut word = io::buffer();
    let n = take(rt, &mut word, i, Fault::PortTooLarge)?;
    let port = words::decimal(&word[..n])?;
    u16::try_from(port).map_err(|_| Fault::PortTooLarge)
}
