// Messages, arguments and raw values as numbers in a lent slice, for hosts that take no enum and no struct. specs/Layout.antt, specs/Arguments.antt and
// specs/Raw.antt have the layout, number by number.
#![tactic(auto)]

ghost use Rattle.std.specs.Prelude.{◌≡◌, [], ◌∷◌, true, ◌+◌, ◌-◌, ◌≤◌, ◌<◌, length, get_or};
ghost use Rattle.std.specs.Float.{binary32, binary64};
ghost use Rattle.std.specs.Float.Ieee.{to_bits};
ghost use Rattle.table.specs.Over.{over};
ghost use Rattle.wire.specs.Number.{number_of};
ghost use Rattle.strings.specs.Text.{letter, ended_text};
ghost use Rattle.headertype.specs.HeaderType.{all_headers};
ghost use Rattle.outline.specs.There.{behind, id_if, number_if, stored_at, standard_at, extended_place_of, extended_if};
ghost use Rattle.messageinfo.specs.Kept.{application_number_of, network_number_of, control_number_of, type_number_of, subtype_number_of};
ghost use Rattle.messageinfo.specs.Level.{number};
ghost use Rattle.parse.specs.Message.{item_of};
ghost use Rattle.parse.specs.declared.ParsedMessage.{ParsedMessage};
ghost use Rattle.numbers.specs.Layout.{one_if_of, order_number, text_numbers, num_numbers, storage_numbers, front_numbers, standard_numbers, extended_numbers, payload_numbers, ended_number_of, text_end_of, stored_end_of, application_end_of, context_end_of, end_numbers, lead_numbers, message_laid};
ghost use Rattle.numbers.specs.Outlined.{outlined_laid};
ghost use Rattle.numbers.specs.Arguments.{signed_bits_of, length_bits_of, width_bits, kind_number_of, kind_bits_of, coding_number_of, value_number_of, value_first_of, value_second_of, value_end_of, offset_width_of, offset_bits_of, kind_numbers, coding_numbers, point_numbers, value_numbers, type_numbers, name_numbers, content_numbers, argument_ends, argument_laid};
ghost use Rattle.numbers.specs.Raw.{raw_laid};

use cursor::RawCursor;
use dlt::{
    Argument, FixedPoint, FixedPointValue, FloatWidth, StringCoding, TypeInfo, TypeInfoKind,
    TypeLength, Value,
};
use headertype::{Endianness, StandardHeader};
use messageinfo::{
    ApplicationTraceType, ControlType, ExtendedHeader, LogLevel, MessageType, NetworkTraceType,
};
use outline::Outline;
use parse::Headers;
use payload::PayloadContent;
use reals::{Real32, Real64};
use storage::Stored;
use wire::{Ended, Range, Text};

// ---- some numbers in a row, from place `at` on

fn put2(out: &mut [u64], at: usize, a: u64, b: u64)
    requires { at + 2 ≤ length out.old }
    ensures { out.new ≡ over out.old at (a ∷ b ∷ []) }
{
    out[at] = a;
    out[at + 1] = b;
}

fn put3(out: &mut [u64], at: usize, a: u64, b: u64, c: u64)
    requires { at + 3 ≤ length out.old }
    ensures { out.new ≡ over out.old at (a ∷ b ∷ c ∷ []) }
{
    out[at] = a;
    out[at + 1] = b;
    out[at + 2] = c;
}

fn put4(out: &mut [u64], at: usize, a: u64, b: u64, c: u64, d: u64)
    requires { at + 4 ≤ length out.old }
    ensures { out.new ≡ over out.old at (a ∷ b ∷ c ∷ d ∷ []) }
{
    out[at] = a;
    out[at + 1] = b;
    out[at + 2] = c;
    out[at + 3] = d;
}

fn put5(out: &mut [u64], at: usize, a: u64, b: u64, c: u64, d: u64, e: u64)
    requires { at + 5 ≤ length out.old }
    ensures { out.new ≡ over out.old at (a ∷ b ∷ c ∷ d ∷ e ∷ []) }
{
    out[at] = a;
    out[at + 1] = b;
    out[at + 2] = c;
    out[at + 3] = d;
    out[at + 4] = e;
}

fn put6(out: &mut [u64], at: usize, a: u64, b: u64, c: u64, d: u64, e: u64, f: u64)
    requires { at + 6 ≤ length out.old }
    ensures { out.new ≡ over out.old at (a ∷ b ∷ c ∷ d ∷ e ∷ f ∷ []) }
{
    out[at] = a;
    out[at + 1] = b;
    out[at + 2] = c;
    out[at + 3] = d;
    out[at + 4] = e;
    out[at + 5] = f;
}

fn put9(
    out: &mut [u64],
    at: usize,
    a: u64,
    b: u64,
    c: u64,
    d: u64,
    e: u64,
    f: u64,
    g: u64,
    h: u64,
    i: u64,
)
    requires { at + 9 ≤ length out.old }
    ensures { out.new ≡ over out.old at (a ∷ b ∷ c ∷ d ∷ e ∷ f ∷ g ∷ h ∷ i ∷ []) }
{
    out[at] = a;
    out[at + 1] = b;
    out[at + 2] = c;
    out[at + 3] = d;
    out[at + 4] = e;
    out[at + 5] = f;
    out[at + 6] = g;
    out[at + 7] = h;
    out[at + 8] = i;
}

// ---- numbers of the headers' enums

fn flag(b: bool) -> u64
    ensures { result ≡ one_if_of b }
{
    if b { 1 } else { 0 }
}

fn order(e: Endianness) -> u64
    ensures { result ≡ order_number e }
{
    match e {
        Endianness::Little => 0,
        Endianness::Big => 1,
    }
}

fn level_number(l: LogLevel) -> u64
    ensures { result ≡ number l }
{
    match l {
        LogLevel::Fatal => 1,
        LogLevel::Error => 2,
        LogLevel::Warn => 3,
        LogLevel::Info => 4,
        LogLevel::Debug => 5,
        LogLevel::Verbose => 6,
        LogLevel::Invalid(n) => n as u64,
    }
}

fn application_number(t: ApplicationTraceType) -> u64
    ensures { result ≡ application_number_of t }
{
    match t {
        ApplicationTraceType::Variable => 1,
        ApplicationTraceType::FunctionIn => 2,
        ApplicationTraceType::FunctionOut => 3,
        ApplicationTraceType::State => 4,
        ApplicationTraceType::Vfb => 5,
        ApplicationTraceType::Invalid(n) => n as u64,
    }
}

fn network_number(t: NetworkTraceType) -> u64
    ensures { result ≡ network_number_of t }
{
    match t {
        NetworkTraceType::Invalid => 0,
        NetworkTraceType::Ipc => 1,
        NetworkTraceType::Can => 2,
        NetworkTraceType::Flexray => 3,
        NetworkTraceType::Most => 4,
        NetworkTraceType::Ethernet => 5,
        NetworkTraceType::Someip => 6,
        NetworkTraceType::UserDefined(n) => n as u64,
    }
}

fn control_number(t: ControlType) -> u64
    ensures { result ≡ control_number_of t }
{
    match t {
        ControlType::Request => 1,
        ControlType::Response => 2,
        ControlType::Unknown(n) => n as u64,
    }
}

fn type_number(t: MessageType) -> u64
    ensures { result ≡ type_number_of t }
{
    match t {
        MessageType::Log(_) => 0,
        MessageType::ApplicationTrace(_) => 1,
        MessageType::NetworkTrace(_) => 2,
        MessageType::Control(_) => 3,
        MessageType::Unknown(kind, _) => kind as u64,
    }
}

fn subtype_number(t: MessageType) -> u64
    ensures { result ≡ subtype_number_of t }
{
    match t {
        MessageType::Log(level) => level_number(level),
        MessageType::ApplicationTrace(application) => application_number(application),
        MessageType::NetworkTrace(network) => network_number(network),
        MessageType::Control(control) => control_number(control),
        MessageType::Unknown(_, n) => n as u64,
    }
}

// Why a text ended.
fn ended_number(e: Ended) -> u64
    ensures { result ≡ ended_number_of e }
{
    match e {
        Ended::Zero => 1,
        Ended::Size => 2,
        Ended::Invalid => 3,
    }
}

fn text_end(o: Option<Text>) -> u64
    ensures { result ≡ text_end_of o }
{
    match o {
        Some(t) => {
            let why = t.ended;
            ended_number(why)
        }
        None => 0,
    }
}

fn stored_end(stored: Option<Stored>) -> u64
    ensures { result ≡ stored_end_of stored }
{
    match stored {
        Some(x) => {
            let header = x.header;
            let id = header.ecu_id;
            let why = id.ended;
            ended_number(why)
        }
        None => 0,
    }
}

fn application_end(o: Option<ExtendedHeader>) -> u64
    ensures { result ≡ application_end_of o }
{
    match o {
        Some(x) => {
            let id = x.application_id;
            let why = id.ended;
            ended_number(why)
        }
        None => 0,
    }
}

fn context_end(o: Option<ExtendedHeader>) -> u64
    ensures { result ≡ context_end_of o }
{
    match o {
        Some(x) => {
            let id = x.context_id;
            let why = id.ended;
            ended_number(why)
        }
        None => 0,
    }
}

// ---- the groups of a message's numbers, each at its place

fn put_text(out: &mut [u64], at: usize, o: Option<Text>)
    requires { at + 3 ≤ length out.old }
    ensures { out.new ≡ over out.old at (text_numbers o) }
{
    match o {
        Some(t) => {
            let place = t.place;
            put3(out, at, 1, place.start as u64, place.len as u64)
        }
        None => put3(out, at, 0, 0, 0),
    }
}

fn put_num(out: &mut [u64], at: usize, o: Option<u32>)
    requires { at + 2 ≤ length out.old }
    ensures { out.new ≡ over out.old at (num_numbers o) }
{
    match o {
        Some(n) => put2(out, at, 1, n as u64),
        None => put2(out, at, 0, 0),
    }
}

fn put_storage(out: &mut [u64], o: Option<Stored>)
    requires { 37 ≤ length out.old }
    ensures { out.new ≡ over out.old 2 (storage_numbers o) }
{
    match o {
        Some(x) => {
            let h = x.header;
            let time = h.timestamp;
            let ecu = h.ecu_id.place;
            put6(
                out,
                2,
                1,
                time.seconds as u64,
                time.microseconds as u64,
                ecu.start as u64,
                ecu.len as u64,
                x.skipped as u64,
            );
        }
        None => put6(out, 2, 0, 0, 0, 0, 0, 0),
    }
}

// The fields of the standard header that are always there.
fn put_front(out: &mut [u64], h: StandardHeader)
    requires { 37 ≤ length out.old }
    ensures { out.new ≡ over out.old 8 (front_numbers h) }
{
    let endianness = h.endianness;
    let big = order(endianness);
    let extended = flag(h.has_extended_header);
    put4(
        out,
        8,
        h.version as u64,
        big,
        extended,
        h.message_counter as u64,
    );
}

fn put_standard(out: &mut [u64], h: StandardHeader)
    requires { 37 ≤ length out.old }
    ensures { out.new ≡ over out.old 8 (standard_numbers h) }
{
    let ecu = h.ecu_id;
    let session = h.session_id;
    let time = h.timestamp;
    put_front(out, h);
    put_text(out, 12, ecu);
    put_num(out, 15, session);
    put_num(out, 17, time);
}

fn put_extended(out: &mut [u64], o: Option<ExtendedHeader>)
    requires { 37 ≤ length out.old }
    ensures { out.new ≡ over out.old 19 (extended_numbers o) }
{
    match o {
        Some(x) => {
            let verbose = flag(x.verbose);
            let its_type = x.message_type;
            let kind = type_number(its_type);
            let sub = subtype_number(its_type);
            let app = x.application_id.place;
            let context = x.context_id.place;
            put9(
                out,
                19,
                1,
                verbose,
                x.argument_count as u64,
                kind,
                sub,
                app.start as u64,
                app.len as u64,
                context.start as u64,
                context.len as u64,
            );
        }
        None => put9(out, 19, 0, 0, 0, 0, 0, 0, 0, 0, 0),
    }
}

fn put_payload(out: &mut [u64], p: PayloadContent)
    requires { 37 ≤ length out.old }
    ensures { out.new ≡ over out.old 28 (payload_numbers p) }
{
    match p {
        PayloadContent::Verbose(list) => {
            let big = flag(list.big);
            put5(out, 28, 0, 0, list.at as u64, list.left as u64, big);
        }
        PayloadContent::NonVerbose(id, rest) => {
            put5(out, 28, 1, id as u64, rest.start as u64, rest.len as u64, 0);
        }
        PayloadContent::ControlMsg(control, data) => {
            let id = control_number(control);
            put5(out, 28, 2, id, data.start as u64, data.len as u64, 0);
        }
        PayloadContent::NetworkTrace(trace) => {
            let order = flag(trace.big);
            put5(out, 28, 3, 0, trace.at as u64, trace.left as u64, order);
        }
    }
}

// What stands before the extended header's numbers: an item's 0, the payload length, storage and standard header.
fn put_lead(out: &mut [u64], stored: Option<Stored>, h: StandardHeader)
    requires { 37 ≤ length out.old }
    ensures { out.new ≡ over out.old 0 (lead_numbers stored h) }
{
    put2(out, 0, 0, h.payload_length as u64);
    put_storage(out, stored);
    put_standard(out, h);
}

// Why each of the four identifiers ended.
fn put_ends(
    out: &mut [u64],
    stored: Option<Stored>,
    h: StandardHeader,
    extended: Option<ExtendedHeader>,
)
    requires { 37 ≤ length out.old }
    ensures { out.new ≡ over out.old 33 (end_numbers stored h extended) }
{
    let ecu = h.ecu_id;
    put4(
        out,
        33,
        stored_end(stored),
        text_end(ecu),
        application_end(extended),
        context_end(extended),
    );
}

// An item, of its headers and its payload. A slice that is too short is left as it is.
pub fn put_item(out: &mut [u64], h: Headers, content: PayloadContent)
    ensures { out.new ≡ message_laid out.old (item_of h content) }
{
    if 37 <= out.len() {
        let stored = h.storage_header;
        let header = h.header;
        let extended = h.extended_header;
        put_lead(out, stored, header);
        put_extended(out, extended);
        put_payload(out, content);
        put_ends(out, stored, header, extended);
    }
}

// ---- the same groups straight from the bytes, of a message that was told at a glance

// Why two identifiers ended, as numbers.
#[derive(Clone, Copy)]
struct TwoEnds {
    first: u64,
    second: u64,
}

// The byte at a place.
fn byte_at(s: &[u8], at: usize) -> u8
    requires { at + 1 ≤ length s.now }
    ensures { result ≡ number_of true 1 s.now at }
{
    s[at]
}

// A byte as a number of 32 bits.
fn wide(b: u8) -> u32
    ensures { (result ≡ b) × (result < 256) }
{
    b as u32
}

// The 32 bits at a place, which are there.
fn word_at(s: &[u8], at: usize, big: bool) -> u32
    requires { at + 4 ≤ length s.now }
    ensures { result ≡ number_of big 4 s.now at }
{
    let a = wide(s[at]);
    let b = wide(s[at + 1]);
    let c = wide(s[at + 2]);
    let d = wide(s[at + 3]);
    if big {
        a * 16777216 + b * 65536 + c * 256 + d
    } else {
        a + b * 256 + c * 65536 + d * 16777216
    }
}

// Whether a letter stands at a place.
fn letter_at(s: &[u8], at: usize) -> bool
    requires { at + 1 ≤ length s.now }
    ensures { result ≡ letter (get_or s.now at 0) }
{
    if s[at] == 0 {
        return false;
    }
    s[at] <= 0x7F
}

// The identifier at a place, whatever its bytes are.
fn any_id_at(s: &[u8], at: usize) -> Text
    requires { at + 4 ≤ length s.now }
    ensures { result ≡ ended_text 4 s.now at }
{
    match strings::identifier(s, at) {
        Ok(id) => {
            let text = id.v;
            let place = text.place;
            let ended = text.ended;
            Text { place, ended }
        }
        Err(_) => Text {
            place: Range { start: at, len: 0 },
            ended: Ended::Size,
        },
    }
}

// The same. Most are four letters, or three and a zero byte.
fn id_at(s: &[u8], at: usize) -> Text
    requires { at + 4 ≤ length s.now }
    ensures { result ≡ ended_text 4 s.now at }
{
    if letter_at(s, at) {
        if letter_at(s, at + 1) {
            if letter_at(s, at + 2) {
                if letter_at(s, at + 3) {
                    return Text {
                        place: Range { start: at, len: 4 },
                        ended: Ended::Size,
                    };
                }
                if s[at + 3] == 0 {
                    return Text {
                        place: Range { start: at, len: 3 },
                        ended: Ended::Zero,
                    };
                }
            }
        }
    }
    any_id_at(s, at)
}

// The place behind four bytes that are there if `present`.
fn behind_if(at: usize, present: bool) -> usize
    requires { at + 4 < 18446744073709551616 }
    ensures { (result ≡ behind present at) × (result ≤ at + 4) }
{
    if present { at + 4 } else { at }
}

// What is declared, less all headers.
fn payload_length(typ: u8, declared: u16) -> u16
    ensures { result ≡ declared - all_headers typ }
{
    let all = headertype::calculate_all_headers_length(typ);
    if all <= declared { declared - all } else { 0 }
}

// The answer of each group that has identifiers is why they ended.
fn put_text_if(out: &mut [u64], n: usize, s: &[u8], at: usize, present: bool) -> u64
    requires { (n + 3 ≤ length out.old) × (at + 4 ≤ length s.now) }
    ensures { (out.new ≡ over out.old n (text_numbers (id_if present s.now at))) × (result ≡ text_end_of (id_if present s.now at)) }
{
    if present {
        let id = id_at(s, at);
        let place = id.place;
        let why = id.ended;
        put3(out, n, 1, place.start as u64, place.len as u64);
        ended_number(why)
    } else {
        put3(out, n, 0, 0, 0);
        0
    }
}

fn put_num_if(out: &mut [u64], n: usize, s: &[u8], at: usize, present: bool)
    requires { (n + 2 ≤ length out.old) × (at + 4 ≤ length s.now) }
    ensures { out.new ≡ over out.old n (num_numbers (number_if present s.now at)) }
{
    if present {
        let v = word_at(s, at, true);
        put2(out, n, 1, v as u64)
    } else {
        put2(out, n, 0, 0)
    }
}

fn put_stored_at(out: &mut [u64], s: &[u8], place: usize) -> u64
    requires { (37 ≤ length out.old) × (place + 16 ≤ length s.now) }
    ensures { (out.new ≡ over out.old 2 (storage_numbers (stored_at s.now place))) × (result ≡ stored_end_of (stored_at s.now place)) }
{
    let seconds = word_at(s, place + 4, false);
    let microseconds = word_at(s, place + 8, false);
    let id = id_at(s, place + 12);
    let ecu = id.place;
    let why = id.ended;
    put6(
        out,
        2,
        1,
        seconds as u64,
        microseconds as u64,
        ecu.start as u64,
        ecu.len as u64,
        place as u64,
    );
    ended_number(why)
}

fn put_front_at(out: &mut [u64], s: &[u8], at: usize, typ: u8, declared: u16)
    requires { (37 ≤ length out.old) × (at + 16 ≤ length s.now) }
    ensures { out.new ≡ over out.old 8 (front_numbers (standard_at typ declared s.now at)) }
{
    let counter = byte_at(s, at + 1);
    put4(
        out,
        8,
        (typ / 32) as u64,
        (typ / 2 % 2) as u64,
        (typ / 1 % 2) as u64,
        counter as u64,
    );
}

fn put_standard_at(out: &mut [u64], s: &[u8], at: usize, typ: u8, declared: u16) -> u64
    requires { (37 ≤ length out.old) × (at + 16 ≤ length s.now) }
    ensures { (out.new ≡ over out.old 8 (standard_numbers (standard_at typ declared s.now at))) × (result ≡ text_end_of (standard_at typ declared s.now at).ecu_id) }
{
    let session = behind_if(at + 4, typ / 4 % 2 == 1);
    let time = behind_if(session, typ / 8 % 2 == 1);
    put_front_at(out, s, at, typ, declared);
    let ecu_end = put_text_if(out, 12, s, at + 4, typ / 4 % 2 == 1);
    put_num_if(out, 15, s, session, typ / 8 % 2 == 1);
    put_num_if(out, 17, s, time, typ / 16 % 2 == 1);
    ecu_end
}

// Where the extended header stands, if there is one, behind a standard header.
fn extended_place(typ: u8, at: usize) -> usize
    requires { at + 16 < 18446744073709551616 }
    ensures { (result ≡ extended_place_of typ at) × (result ≤ at + 16) }
{
    let session = behind_if(at + 4, typ / 4 % 2 == 1);
    let time = behind_if(session, typ / 8 % 2 == 1);
    behind_if(time, typ / 16 % 2 == 1)
}

fn put_extended_at(out: &mut [u64], s: &[u8], at: usize, present: bool) -> TwoEnds
    requires { (37 ≤ length out.old) × (at + 10 ≤ length s.now) }
    ensures { (out.new ≡ over out.old 19 (extended_numbers (extended_if present s.now at))) × (result.first ≡ application_end_of (extended_if present s.now at)) × (result.second ≡ context_end_of (extended_if present s.now at)) }
{
    if present {
        let info = byte_at(s, at);
        let count = byte_at(s, at + 1);
        let app_id = id_at(s, at + 2);
        let app = app_id.place;
        let app_why = app_id.ended;
        let context_id = id_at(s, at + 6);
        let context = context_id.place;
        let context_why = context_id.ended;
        put9(
            out,
            19,
            1,
            (info / 1 % 2) as u64,
            count as u64,
            (info / 2 % 8) as u64,
            (info / 16) as u64,
            app.start as u64,
            app.len as u64,
            context.start as u64,
            context.len as u64,
        );
        TwoEnds {
            first: ended_number(app_why),
            second: ended_number(context_why),
        }
    } else {
        put9(out, 19, 0, 0, 0, 0, 0, 0, 0, 0, 0);
        TwoEnds {
            first: 0,
            second: 0,
        }
    }
}

fn put_lead_at(out: &mut [u64], s: &[u8], o: Outline) -> TwoEnds
    requires { (37 ≤ length out.old) × (o.place + 42 ≤ length s.now) }
    ensures { (out.new ≡ over out.old 0 (lead_numbers (stored_at s.now o.place) (standard_at o.header_type o.length s.now (o.place + 16)))) × (result.first ≡ stored_end_of (stored_at s.now o.place)) × (result.second ≡ text_end_of (standard_at o.header_type o.length s.now (o.place + 16)).ecu_id) }
{
    let n = payload_length(o.header_type, o.length);
    put2(out, 0, 0, n as u64);
    let first = put_stored_at(out, s, o.place);
    let second = put_standard_at(out, s, o.place + 16, o.header_type, o.length);
    TwoEnds { first, second }
}

// An item whose headers stand where an outline says. Where they don't all lie within the bytes, or the slice is too short, it is left as it is.
pub fn put_outlined(out: &mut [u64], s: &[u8], o: Outline, content: PayloadContent)
    ensures { out.new ≡ outlined_laid out.old s.now o content }
{
    let rest = wire::left(s, o.place);
    if 42 <= rest {
        if 37 <= out.len() {
            let at = extended_place(o.header_type, o.place + 16);
            let ecus = put_lead_at(out, s, o);
            let names = put_extended_at(out, s, at, o.header_type / 1 % 2 == 1);
            put_payload(out, content);
            put4(out, 33, ecus.first, ecus.second, names.first, names.second);
        }
    }
}

// A message that the filter dropped: its payload length alone.
pub fn put_filtered(out: &mut [u64], n: u16)
    ensures { out.new ≡ message_laid out.old (ParsedMessage.FilteredOut n) }
{
    let room = out.len();
    if 37 <= room {
        put2(out, 0, 1, n as u64);
    }
}

// ---- numbers of an argument's enums

// A signed number by two's complement of 64 bits.
fn signed_bits(n: i64) -> u64
    ensures { result ≡ signed_bits_of n }
{
    if n >= 0 {
        return n as u64;
    }
    18446744073709551615 - ((-1 - n) as u64)
}

fn bits_of_i8(n: i8) -> u64
    ensures { result ≡ signed_bits_of n }
{
    signed_bits(n as i64)
}

fn bits_of_i16(n: i16) -> u64
    ensures { result ≡ signed_bits_of n }
{
    signed_bits(n as i64)
}

fn bits_of_i32(n: i32) -> u64
    ensures { result ≡ signed_bits_of n }
{
    signed_bits(n as i64)
}

// A float's pattern.
fn bits_of_f32(x: f32) -> u64
    ensures { result ≡ to_bits binary32 x }
{
    reals::bits32(Real32::Number(x)) as u64
}

fn bits_of_f64(x: f64) -> u64
    ensures { result ≡ to_bits binary64 x }
{
    reals::bits64(Real64::Number(x))
}

fn length_bits(l: TypeLength) -> u64
    ensures { result ≡ length_bits_of l }
{
    match l {
        TypeLength::BitLength8 => 8,
        TypeLength::BitLength16 => 16,
        TypeLength::BitLength32 => 32,
        TypeLength::BitLength64 => 64,
        TypeLength::BitLength128 => 128,
    }
}

fn width_bits(w: FloatWidth) -> u64
    ensures { result ≡ width_bits w }
{
    match w {
        FloatWidth::Width32 => 32,
        FloatWidth::Width64 => 64,
    }
}

fn kind_number(k: TypeInfoKind) -> u64
    ensures { result ≡ kind_number_of k }
{
    match k {
        TypeInfoKind::Bool => 0,
        TypeInfoKind::Signed(_) => 1,
        TypeInfoKind::SignedFixedPoint(_) => 2,
        TypeInfoKind::Unsigned(_) => 3,
        TypeInfoKind::UnsignedFixedPoint(_) => 4,
        TypeInfoKind::Float(_) => 5,
        TypeInfoKind::StringType => 6,
        TypeInfoKind::Raw => 7,
    }
}

fn kind_bits(k: TypeInfoKind) -> u64
    ensures { result ≡ kind_bits_of k }
{
    match k {
        TypeInfoKind::Bool => 0,
        TypeInfoKind::Signed(whole) => length_bits(whole),
        TypeInfoKind::SignedFixedPoint(real) => width_bits(real),
        TypeInfoKind::Unsigned(natural) => length_bits(natural),
        TypeInfoKind::UnsignedFixedPoint(scaled) => width_bits(scaled),
        TypeInfoKind::Float(float) => width_bits(float),
        TypeInfoKind::StringType => 0,
        TypeInfoKind::Raw => 0,
    }
}

fn coding_number(c: StringCoding) -> u64
    ensures { result ≡ coding_number_of c }
{
    match c {
        StringCoding::ASCII => 0,
        StringCoding::UTF8 => 1,
        StringCoding::Reserved(n) => n as u64,
    }
}

fn value_number(v: Value) -> u64
    ensures { result ≡ value_number_of v }
{
    match v {
        Value::Bool(_) => 0,
        Value::U8(_) => 1,
        Value::U16(_) => 2,
        Value::U32(_) => 3,
        Value::U64(_) => 4,
        Value::U128 { high, low } => 5,
        Value::I8(_) => 6,
        Value::I16(_) => 7,
        Value::I32(_) => 8,
        Value::I64(_) => 9,
        Value::I128 { high, low } => 10,
        Value::F32(_) => 11,
        Value::F64(_) => 12,
        Value::F32NotANumber(_) => 11,
        Value::F64NotANumber(_) => 12,
        Value::StringVal(_) => 13,
        Value::Raw(_) => 14,
    }
}

fn value_first(v: Value) -> u64
    ensures { result ≡ value_first_of v }
{
    match v {
        Value::Bool(n) => n as u64,
        Value::U8(n) => n as u64,
        Value::U16(n) => n as u64,
        Value::U32(n) => n as u64,
        Value::U64(n) => n,
        Value::U128 { high, low } => high,
        Value::I8(n) => bits_of_i8(n),
        Value::I16(n) => bits_of_i16(n),
        Value::I32(n) => bits_of_i32(n),
        Value::I64(n) => signed_bits(n),
        Value::I128 { high, low } => signed_bits(high),
        Value::F32(x) => bits_of_f32(x),
        Value::F64(x) => bits_of_f64(x),
        Value::F32NotANumber(pattern) => pattern as u64,
        Value::F64NotANumber(pattern) => pattern,
        Value::StringVal(text) => text.place.start as u64,
        Value::Raw(run) => run.start as u64,
    }
}

fn value_second(v: Value) -> u64
    ensures { result ≡ value_second_of v }
{
    match v {
        Value::Bool(_) => 0,
        Value::U8(_) => 0,
        Value::U16(_) => 0,
        Value::U32(_) => 0,
        Value::U64(_) => 0,
        Value::U128 { high, low } => low,
        Value::I8(_) => 0,
        Value::I16(_) => 0,
        Value::I32(_) => 0,
        Value::I64(_) => 0,
        Value::I128 { high, low } => low,
        Value::F32(_) => 0,
        Value::F64(_) => 0,
        Value::F32NotANumber(_) => 0,
        Value::F64NotANumber(_) => 0,
        Value::StringVal(text) => text.place.len as u64,
        Value::Raw(run) => run.len as u64,
    }
}

fn value_end(v: Value) -> u64
    ensures { result ≡ value_end_of v }
{
    match v {
        Value::Bool(_) => 0,
        Value::U8(_) => 0,
        Value::U16(_) => 0,
        Value::U32(_) => 0,
        Value::U64(_) => 0,
        Value::U128 { high, low } => 0,
        Value::I8(_) => 0,
        Value::I16(_) => 0,
        Value::I32(_) => 0,
        Value::I64(_) => 0,
        Value::I128 { high, low } => 0,
        Value::F32(_) => 0,
        Value::F64(_) => 0,
        Value::F32NotANumber(_) => 0,
        Value::F64NotANumber(_) => 0,
        Value::StringVal(text) => {
            let why = text.ended;
            ended_number(why)
        }
        Value::Raw(_) => 0,
    }
}

fn offset_width(o: FixedPointValue) -> u64
    ensures { result ≡ offset_width_of o }
{
    match o {
        FixedPointValue::I32(_) => 32,
        FixedPointValue::I64(_) => 64,
    }
}

fn offset_bits(o: FixedPointValue) -> u64
    ensures { result ≡ offset_bits_of o }
{
    match o {
        FixedPointValue::I32(n) => bits_of_i32(n),
        FixedPointValue::I64(m) => signed_bits(m),
    }
}

// ---- the groups of an argument's numbers, each at its place

fn put_kind(out: &mut [u64], k: TypeInfoKind)
    requires { 26 ≤ length out.old }
    ensures { out.new ≡ over out.old 5 (kind_numbers k) }
{
    let kind = kind_number(k);
    let bits = kind_bits(k);
    put2(out, 5, kind, bits);
}

fn put_coding(out: &mut [u64], t: TypeInfo)
    requires { 26 ≤ length out.old }
    ensures { out.new ≡ over out.old 7 (coding_numbers t) }
{
    let its_coding = t.coding;
    let coding = coding_number(its_coding);
    let variable = flag(t.has_variable_info);
    let trace = flag(t.has_trace_info);
    put3(out, 7, coding, variable, trace);
}

fn put_point(out: &mut [u64], o: Option<FixedPoint>)
    requires { 26 ≤ length out.old }
    ensures { out.new ≡ over out.old 16 (point_numbers o) }
{
    match o {
        Some(p) => {
            let offset = p.offset;
            let width = offset_width(offset);
            let bits = offset_bits(offset);
            put4(out, 16, 1, p.pattern as u64, width, bits);
        }
        None => put4(out, 16, 0, 0, 0, 0),
    }
}

fn put_value(out: &mut [u64], v: Value)
    requires { 26 ≤ length out.old }
    ensures { out.new ≡ over out.old 20 (value_numbers v) }
{
    let kind = value_number(v);
    let first = value_first(v);
    let second = value_second(v);
    put3(out, 20, kind, first, second);
}

// Where an argument stands, and its type info.
fn put_type(out: &mut [u64], a: Argument)
    requires { 26 ≤ length out.old }
    ensures { out.new ≡ over out.old 3 (type_numbers a) }
{
    let info = a.type_info;
    let kind = info.kind;
    put2(out, 3, a.start as u64, a.end as u64);
    put_kind(out, kind);
    put_coding(out, info);
}

fn put_names(out: &mut [u64], name: Option<Text>, unit: Option<Text>)
    requires { 26 ≤ length out.old }
    ensures { out.new ≡ over out.old 10 (name_numbers name unit) }
{
    put_text(out, 10, name);
    put_text(out, 13, unit);
}

// Its names, its fixed point and its value.
fn put_content(out: &mut [u64], a: Argument)
    requires { 26 ≤ length out.old }
    ensures { out.new ≡ over out.old 10 (content_numbers a) }
{
    let name = a.name;
    let unit = a.unit;
    let point = a.fixed_point;
    let value = a.value;
    put_names(out, name, unit);
    put_point(out, point);
    put_value(out, value);
}

// Why its name, its unit and its value ended.
fn put_argument_ends(out: &mut [u64], a: Argument)
    requires { 26 ≤ length out.old }
    ensures { out.new ≡ over out.old 23 (argument_ends a) }
{
    let name = a.name;
    let unit = a.unit;
    let value = a.value;
    put3(out, 23, text_end(name), text_end(unit), value_end(value));
}

// The cursor behind it: where the next stands, how many are left or which word is next, and the byte order.
fn put_cursor(out: &mut [u64], at: usize, left: usize, big: bool)
    requires { 26 ≤ length out.old }
    ensures { out.new ≡ over out.old 0 (at ∷ left ∷ one_if_of big ∷ []) }
{
    let order = flag(big);
    put3(out, 0, at as u64, left as u64, order);
}

// The numbers of an argument and of the cursor behind it, from the first place on, if there are places for all.
pub fn put_argument(out: &mut [u64], at: usize, left: usize, big: bool, a: Argument)
    ensures { out.new ≡ argument_laid out.old at left big a }
{
    if 26 <= out.len() {
        put_cursor(out, at, left, big);
        put_type(out, a);
        put_content(out, a);
        put_argument_ends(out, a);
    }
}

// The same of a signal, whose cursor counts words. Each of the two has one caller, which it is copied into (docs/DECISIONS.md).
pub fn put_signal(out: &mut [u64], at: usize, word: usize, big: bool, a: Argument)
    ensures { out.new ≡ argument_laid out.old at word big a }
{
    if 26 <= out.len() {
        put_cursor(out, at, word, big);
        put_type(out, a);
        put_content(out, a);
        put_argument_ends(out, a);
    }
}

// The numbers of a raw value of a network trace and of the cursor behind it, likewise.
pub fn put_raw(out: &mut [u64], rest: RawCursor, value: Range)
    ensures { out.new ≡ raw_laid out.old rest value }
{
    if 5 <= out.len() {
        let order = flag(rest.big);
        put5(
            out,
            0,
            rest.at as u64,
            rest.left as u64,
            order,
            value.start as u64,
            value.len as u64,
        );
    }
}
