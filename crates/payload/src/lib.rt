// The payload: port of `dlt_payload` in parse.rs and of `PayloadContent` in dlt.rs of dlt-core 0.20.2 (Apache-2.0, NOTICE).
#![tactic(auto)]

ghost use Rattle.std.specs.Prelude.{◌≡◌};
ghost use Rattle.payload.specs.Payload.{is_verbose_of, count_of, control_type_of, network_type_of, is_control_of, is_network_of, list_of, verbose, control, plain, payload};
ghost use Rattle.wire.specs.Answers.{halt_ans};

use cursor::{Cursor, RawCursor};
use messageinfo::{ControlType, ExtendedHeader, MessageType};
use wire::{Got, Halt, Range};

// A list of arguments is its cursor; a network trace's hands out raw values only.
#[derive(Clone, Copy)]
pub enum PayloadContent {
    Verbose(Cursor),
    NonVerbose(u32, Range),
    ControlMsg(ControlType, Range),
    NetworkTrace(RawCursor),
}

fn is_verbose(e: Option<ExtendedHeader>) -> bool
    ensures { result ≡ is_verbose_of e }
{
    match e {
        Some(x) => x.verbose,
        None => false,
    }
}

fn count_of(e: Option<ExtendedHeader>) -> u8
    ensures { result ≡ count_of e }
{
    match e {
        Some(x) => x.argument_count,
        None => 0,
    }
}

fn control_type(t: MessageType) -> bool
    ensures { result ≡ control_type_of t }
{
    match t {
        MessageType::Log(_) => false,
        MessageType::ApplicationTrace(_) => false,
        MessageType::NetworkTrace(_) => false,
        MessageType::Control(_) => true,
        MessageType::Unknown(_, _) => false,
    }
}

fn network_type(t: MessageType) -> bool
    ensures { result ≡ network_type_of t }
{
    match t {
        MessageType::Log(_) => false,
        MessageType::ApplicationTrace(_) => false,
        MessageType::NetworkTrace(_) => true,
        MessageType::Control(_) => false,
        MessageType::Unknown(_, _) => false,
    }
}

fn is_control(e: Option<ExtendedHeader>) -> bool
    ensures { result ≡ is_control_of e }
{
    match e {
        Some(x) => {
            let t = x.message_type;
            control_type(t)
        }
        None => false,
    }
}

fn is_network(e: Option<ExtendedHeader>) -> bool
    ensures { result ≡ is_network_of e }
{
    match e {
        Some(x) => {
            let t = x.message_type;
            network_type(t)
        }
        None => false,
    }
}

fn list_of(network: bool, at: usize, left: usize, big: bool) -> PayloadContent
    ensures { result ≡ list_of network at left big }
{
    if network {
        PayloadContent::NetworkTrace(RawCursor { at, left, big })
    } else {
        PayloadContent::Verbose(Cursor { at, left, big })
    }
}

// As many arguments as counted.
fn verbose_payload(
    s: &[u8],
    at: usize,
    big: bool,
    count: u8,
    network: bool,
) -> Result<Got<PayloadContent>, Halt>
    ensures { halt_ans result ≡ verbose big count network s.now at }
{
    let end = cursor::pass_arguments(s, at, count as usize, big)?;
    let list = list_of(network, at, count as usize, big);
    Ok(Got { v: list, next: end })
}

// One id byte, then the rest of `n` bytes.
fn control_payload(s: &[u8], at: usize, n: u16) -> Result<Got<PayloadContent>, Halt>
    ensures { halt_ans result ≡ control n s.now at }
{
    if 1 <= n {
        let id = wire::parse_u8(s, at)?;
        let rest = wire::take(s, id.next, (n - 1) as usize)?;
        let kind = ControlType::from_value(id.v);
        let range = rest.v;
        Ok(Got {
            v: PayloadContent::ControlMsg(kind, range),
            next: rest.next,
        })
    } else {
        Err(Halt::Broken)
    }
}

// A 32-bit id, then the rest of `n` bytes.
fn plain_payload(s: &[u8], at: usize, big: bool, n: u16) -> Result<Got<PayloadContent>, Halt>
    ensures { halt_ans result ≡ plain big n s.now at }
{
    if 4 <= n {
        let id = wire::parse_u32(s, at, big)?;
        let rest = wire::take(s, id.next, (n - 4) as usize)?;
        let range = rest.v;
        Ok(Got {
            v: PayloadContent::NonVerbose(id.v, range),
            next: rest.next,
        })
    } else {
        Err(Halt::Broken)
    }
}

// The payload of `n` declared bytes at `at`. The slice's end is the end of what it may see.
pub fn dlt_payload(
    s: &[u8],
    at: usize,
    big: bool,
    e: Option<ExtendedHeader>,
    n: u16,
) -> Result<Got<PayloadContent>, Halt>
    ensures { halt_ans result ≡ payload big e n s.now at }
{
    if is_verbose(e) {
        let count = count_of(e);
        let network = is_network(e);
        return verbose_payload(s, at, big, count, network);
    }
    if is_control(e) {
        return control_payload(s, at, n);
    }
    plain_payload(s, at, big, n)
}
