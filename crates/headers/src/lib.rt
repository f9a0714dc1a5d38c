// The standard and the extended header: port of `dlt_standard_header`, `dlt_extended_header`, `maybe_parse_ecu_id`, `maybe_parse_u32` and
// `parse_length` in parse.rs of dlt-core 0.20.2 (Apache-2.0, NOTICE).
#![tactic(auto)]

ghost use Rattle.std.specs.Prelude.{◌≡◌, ◌≤◌};
ghost use Rattle.headertype.specs.HeaderType.{all_headers};
ghost use Rattle.headers.specs.Standard.{maybe_id, maybe_number_of, endian_of, header_of_lem, flagged, standard, declared};
ghost use Rattle.headers.specs.Extended.{extended_of_lem, named, extended};
ghost use Rattle.wire.specs.Answers.{need_ans, stop_ans};

use headertype::{Endianness, StandardHeader};
use messageinfo::{ExtendedHeader, MessageType};
use wire::{Got, Need, Reason, Stop, Text};

// An identifier, if `present`.
fn maybe_parse_ecu_id(s: &[u8], at: usize, present: bool) -> Result<Got<Option<Text>>, Need>
    ensures { need_ans result ≡ maybe_id present s.now at }
{
    if present {
        let id = strings::identifier(s, at)?;
        // part by part: a copy of the whole would read the reason's one byte as eight, and wait for it (docs/DECISIONS.md)
        let text = id.v;
        let place = text.place;
        let ended = text.ended;
        Ok(Got {
            v: Some(Text { place, ended }),
            next: id.next,
        })
    } else {
        Ok(Got { v: None, next: at })
    }
}

// A big-endian number of 32 bits, if `present`.
fn maybe_parse_u32(s: &[u8], at: usize, present: bool) -> Result<Got<Option<u32>>, Need>
    ensures { need_ans result ≡ maybe_number_of present s.now at }
{
    if present {
        let num = wire::parse_u32(s, at, true)?;
        Ok(Got {
            v: Some(num.v),
            next: num.next,
        })
    } else {
        Ok(Got { v: None, next: at })
    }
}

fn endianness_of(typ: u8) -> Endianness
    ensures { result ≡ endian_of typ }
{
    if typ / 2 % 2 == 1 {
        Endianness::Big
    } else {
        Endianness::Little
    }
}

// The header, of its fields.
fn header_of(
    typ: u8,
    counter: u8,
    length: u16,
    ecu: Option<Text>,
    session: Option<u32>,
    time: Option<u32>,
) -> StandardHeader
    requires { all_headers typ ≤ length }
    ensures { result ≡ header_of_lem typ counter length ecu session time }
{
    let endianness = endianness_of(typ);
    let all = headertype::calculate_all_headers_length(typ);
    StandardHeader {
        version: typ / 32,
        endianness: endianness,
        has_extended_header: typ / 1 % 2 == 1,
        message_counter: counter,
        ecu_id: ecu,
        session_id: session,
        timestamp: time,
        payload_length: length - all,
    }
}

// What is flagged; only then is the declared length held against the headers.
fn flagged_fields(
    s: &[u8],
    at: usize,
    typ: u8,
    counter: u8,
    length: u16,
) -> Result<Got<StandardHeader>, Stop>
    ensures { stop_ans result ≡ flagged typ counter length s.now at }
{
    let ecu = maybe_parse_ecu_id(s, at, typ / 4 % 2 == 1)?;
    let session = maybe_parse_u32(s, ecu.next, typ / 8 % 2 == 1)?;
    let time = maybe_parse_u32(s, session.next, typ / 16 % 2 == 1)?;
    let all = headertype::calculate_all_headers_length(typ);
    if all <= length {
        let ecu_id = ecu.v;
        let session_id = session.v;
        let timestamp = time.v;
        let header = header_of(typ, counter, length, ecu_id, session_id, timestamp);
        Ok(Got {
            v: header,
            next: time.next,
        })
    } else {
        Err(Stop::Hickup(Reason::Length))
    }
}

// The standard header.
pub fn dlt_standard_header(s: &[u8], at: usize) -> Result<Got<StandardHeader>, Stop>
    ensures { stop_ans result ≡ standard s.now at }
{
    let typ = wire::parse_u8(s, at)?;
    let counter = wire::parse_u8(s, typ.next)?;
    let length = wire::parse_u16(s, counter.next, true)?;
    flagged_fields(s, length.next, typ.v, counter.v, length.v)
}

// The extended header, of its fields.
fn extended_of(info: u8, count: u8, app: Text, context: Text) -> ExtendedHeader
    ensures { result ≡ extended_of_lem info count app context }
{
    let message_type = MessageType::try_from(info);
    ExtendedHeader {
        verbose: info / 1 % 2 == 1,
        argument_count: count,
        message_type: message_type,
        application_id: app,
        context_id: context,
    }
}

// The two identifiers of the extended header.
fn named_fields(s: &[u8], at: usize, info: u8, count: u8) -> Result<Got<ExtendedHeader>, Need>
    ensures { need_ans result ≡ named info count s.now at }
{
    let app = strings::identifier(s, at)?;
    let context = strings::identifier(s, app.next)?;
    let application = app.v;
    let context_id = context.v;
    let header = extended_of(info, count, application, context_id);
    Ok(Got {
        v: header,
        next: context.next,
    })
}

// The extended header.
pub fn dlt_extended_header(s: &[u8], at: usize) -> Result<Got<ExtendedHeader>, Need>
    ensures { need_ans result ≡ extended s.now at }
{
    let info = wire::parse_u8(s, at)?;
    let count = wire::parse_u8(s, info.next)?;
    named_fields(s, count.next, info.v, count.v)
}

// The declared length of the standard header that stands at `at`.
pub fn parse_length(s: &[u8], at: usize) -> Result<Got<u16>, Need>
    ensures { need_ans result ≡ declared s.now at }
{
    let before = wire::take(s, at, 2)?;
    wire::parse_u16(s, before.next, true)
}
