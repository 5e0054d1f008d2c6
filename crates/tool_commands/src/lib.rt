// The commands of cri_tool. What is asked for goes to standard output; a refusal that was not asked for, and what is wrong with the arguments,
// to standard error. Each command makes one call of the library, or a few, with room enough for every answer; after a refused base a further one.
#![tactic(auto)]

use cri::{BYTES, OPTIONS_ROOM, Reason, Refusal, SPANS, TEXT_ROOM};
use output::{Output, Stream};
use std::env::Env;
use tool_arguments::{Complaint, Fault, take_address, take_hex, take_joined, take_port};
use tool_messages::{Address, say_bytes, say_components, say_options, say_refusal};

// How many bytes an argument may say.
const ROOM: usize = 32768;

#[derive(Clone, Copy, Debug, PartialEq, Eq)]
enum Command {
    Show,
    Dump,
    Text,
    Resolve,
    Options,
    Same,
    Help,
}

impl Command {
    fn named(name: &[u8]) -> Option<Command> {
        match name {
            b"show" => Some(Command::Show),
            b"dump" => Some(Command::Dump),
            b"text" => Some(Command::Text),
            b"resolve" => Some(Command::Resolve),
            b"options" => Some(Command::Options),
            b"same" => Some(Command::Same),
            b"help" => Some(Command::Help),
            _ => None,
        }
    }

    // How it is called.
    fn call(self) -> &'static str {
        match self {
            Command::Show => "show HEX",
            Command::Dump => "dump HEX",
            Command::Text => "text HEX",
            Command::Resolve => "resolve BASE REFERENCE",
            Command::Options => "options HEX ADDRESS PORT",
            Command::Same => "same HEX HEX",
            Command::Help => "help",
        }
    }
}

// ---- what goes wrong

// What is wrong with an argument, and how the command is called: one line.
#[inline(never)]
fn complain(complaint: Complaint, command: Command) {
    let mut err = Output::new(Stream::Error);
    writeln!(
        err,
        "cri_tool: {complaint}; call: cri_tool {}",
        command.call()
    );
    err.flush();
}

// A refusal of an argument, and what follows it.
#[inline(never)]
fn refuse(argument: &[u8], s: &[u8], refusal: Refusal) {
    let mut err = Output::new(Stream::Error);
    say_refusal(&mut err, argument, s, refusal);
    err.flush();
}

// ---- show, dump, text

// The URI text of an absolute CRI, after `before`; nothing where it has none.
fn say_uri_text(out: &mut Output, before: &[u8], s: &[u8]) -> Result<(), Refusal> {
    let mut room = [0u8; TEXT_ROOM];
    let length = cri::uri_text(s, &mut room)?;
    out.text(before);
    out.text(&room[..length.min(TEXT_ROOM)]);
    out.byte(b'\n');
    Ok(())
}

// show HEX: the components, and the URI text; or the refusal.
fn show(out: &mut Output, s: &[u8]) {
    let mut spans = [0; SPANS];
    match cri::read(s, &mut spans) {
        Ok(components) => {
            say_components(out, s, &spans, components);
            let _ = say_uri_text(out, b"text      ", s);
        }
        Err(refusal) => say_refusal(out, b"HEX", s, refusal),
    }
}

// text HEX: the URI text.
fn text(out: &mut Output, s: &[u8]) {
    if let Err(refusal) = say_uri_text(out, b"", s) {
        refuse(b"HEX", s, refusal);
    }
}

// ---- resolve

// A refused base, and which of the two it is: refused by the reader too, or not absolute.
#[inline(never)]
fn refuse_base(base: &[u8], refusal: Refusal) {
    let mut err = Output::new(Stream::Error);
    say_refusal(&mut err, b"BASE", base, refusal);
    let mut spans = [0; SPANS];
    match cri::read(base, &mut spans) {
        Ok(_) => writeln!(err, "read by itself it is accepted: it is not absolute"),
        Err(cause) => say_refusal(&mut err, b"read by itself it", base, cause),
    }
    err.flush();
}

#[inline(never)]
fn say_resolved(base: &[u8], reference: &[u8]) {
    let mut room = [0u8; BYTES];
    match cri::resolve(base, reference, &mut room) {
        Ok(length) => {
            let resolved = &room[..length.min(BYTES)];
            let mut out = Output::new(Stream::Output);
            out.hex(resolved);
            let _ = say_uri_text(&mut out, b"\n", resolved);
            out.flush();
        }
        Err(refusal) => match refusal.reason {
            Reason::Base => refuse_base(base, refusal),
            Reason::Result => refuse(b"the result", reference, refusal),
            _ => refuse(b"REFERENCE", reference, refusal),
        },
    }
}

// resolve BASE REFERENCE: the resolved CRI in hex, and its URI text.
fn resolve(rt: &impl Env) -> Result<(), Complaint> {
    let mut base = [0u8; ROOM];
    let mut reference = [0u8; ROOM];
    let base = take_hex(rt, &mut base, 2, 4).map_err(|fault| fault.of("BASE"))?;
    let reference = take_hex(rt, &mut reference, 3, 4).map_err(|fault| fault.of("REFERENCE"))?;
    say_resolved(base, reference);
    Ok(())
}

// ---- options

#[inline(never)]
fn say_request(s: &[u8], address: &[u8], port: u16) {
    let mut room = [0u8; OPTIONS_ROOM];
    match cri::options(s, address, port, &mut room) {
        Ok(length) => {
            let options = &room[..length.min(OPTIONS_ROOM)];
            let mut out = Output::new(Stream::Output);
            writeln!(out, "to        {}, port {port}", Address(address));
            say_options(&mut out, options);
            out.text(b"bytes     ");
            say_bytes(&mut out, options);
            out.byte(b'\n');
            out.flush();
        }
        Err(refusal) => match refusal.reason {
            Reason::Dest => refuse(b"ADDRESS", address, refusal),
            _ => refuse(b"HEX", s, refusal),
        },
    }
}

// options HEX ADDRESS PORT: where the request is sent, each option, and the bytes of all.
fn options(rt: &impl Env) -> Result<(), Complaint> {
    let mut room = [0u8; ROOM];
    let mut address = [0u8; 16];
    let s = take_hex(rt, &mut room, 2, 5).map_err(|fault| fault.of("HEX"))?;
    let address = take_address(rt, &mut address, 3).map_err(|fault| fault.of("ADDRESS"))?;
    let port = take_port(rt, 4).map_err(|fault| fault.of("PORT"))?;
    say_request(s, address, port);
    Ok(())
}

// ---- same

fn refuse_if(argument: &[u8], s: &[u8], verdict: Result<(), Refusal>) {
    if let Err(refusal) = verdict {
        refuse(argument, s, refusal);
    }
}

// Whether the two are the same CRI, and both texts; or the refusals.
#[inline(never)]
fn say_same(first: &[u8], second: &[u8]) {
    let judgement = sameness::judge(first, second);
    refuse_if(b"the first HEX", first, judgement.first);
    refuse_if(b"the second HEX", second, judgement.second);
    if judgement.first.is_ok() && judgement.second.is_ok() {
        let equal = if judgement.equal { "same" } else { "different" };
        let mut out = Output::new(Stream::Output);
        writeln!(out, "{equal}");
        let _ = say_uri_text(&mut out, b"", first);
        let _ = say_uri_text(&mut out, b"", second);
        out.flush();
    }
}

// same HEX HEX: whether the two are the same CRI, and both texts.
fn same(rt: &impl Env) -> Result<(), Complaint> {
    let mut first = [0u8; ROOM];
    let mut second = [0u8; ROOM];
    let first = take_hex(rt, &mut first, 2, 4).map_err(|fault| fault.of("the first HEX"))?;
    let second = take_hex(rt, &mut second, 3, 4).map_err(|fault| fault.of("the second HEX"))?;
    say_same(first, second);
    Ok(())
}

// ---- help

// help: what the commands are.
static HELP: &str = "Reads, checks, resolves and prints Constrained Resource Identifiers (CRIs).

  cri_tool show HEX                    the components, and the URI text
  cri_tool dump HEX                    each item with its offset, its bytes and what it says; then CBOR diagnostic notation
  cri_tool text HEX                    the URI text
  cri_tool resolve BASE REFERENCE      the resolved CRI in hex, and its URI text
  cri_tool options HEX ADDRESS PORT    the CoAP options of a request sent to that address and port
  cri_tool same HEX HEX                whether two links are the same CRI, and both URI texts
  cri_tool help                        this text

HEX, BASE and REFERENCE are hex digits of either case, with blanks anywhere: in quotation marks, where other arguments follow.
\"-\" reads one of them from standard input.
ADDRESS is dotted (198.51.100.1), IPv6 (2001:db8::1, ::ffff:198.51.100.1) or hex. PORT is a number from 0 to 65535.
A refusal tells which argument is refused, why, by which rules of docs/RULES.md, and where: a hex dump shows the bytes around the place, which is marked.
Offsets are in hex. Answers, and refusals by \"show\" and \"dump\", go to standard output; other refusals, and faults of the arguments, to standard error.
";

// ---- the whole

// What is said of bytes, printed. It is never inlined, nor are the others that make an `Output`: so its 64 KiB are not on the stack while
// the arguments are read.
#[inline(never)]
fn print<F: Fn(&mut Output, &[u8])>(s: &[u8], say: F)
    requires { F.IsAlwaysCallable say }
{
    let mut out = Output::new(Stream::Output);
    say(&mut out, s);
    out.flush();
}

// A command that has HEX alone, which may be several arguments.
fn run_on_hex<F: Fn(&mut Output, &[u8])>(rt: &impl Env, say: F) -> Result<(), Complaint>
    requires { F.IsAlwaysCallable say }
{
    let mut room = [0u8; ROOM];
    let s = take_joined(rt, &mut room).map_err(|fault| fault.of("HEX"))?;
    print(s, say);
    Ok(())
}

fn run(rt: &impl Env, command: Command) -> Result<(), Complaint> {
    match command {
        Command::Show => run_on_hex(rt, show),
        Command::Dump => run_on_hex(rt, tool_dump::say_dump),
        Command::Text => run_on_hex(rt, text),
        Command::Resolve => resolve(rt),
        Command::Options => options(rt),
        Command::Same => same(rt),
        Command::Help => {
            Stream::Output.write(HELP.as_bytes());
            Ok(())
        }
    }
}

// The command that the first argument names.
fn take_command(rt: &impl Env) -> Result<Command, Complaint> {
    let mut name = io::buffer();
    match rt.arg(1, &mut name) {
        Ok(0) | Err(_) => Err(Fault::Missing.of("the command")),
        Ok(n) => Command::named(&name[..n]).ok_or(Fault::Unknown.of("the command")),
    }
}

// Runs the command that the first argument names.
pub fn run_arguments(rt: &impl Env) {
    let command = match take_command(rt) {
        Ok(command) => command,
        Err(complaint) => return complain(complaint, Command::Help),
    };
    if let Err(complaint) = run(rt, command) {
        complain(complaint, command);
    }
}
