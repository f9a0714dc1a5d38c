// `msg STORAGE FILTER BYTES`: one message, dlt_message; behind `why` with why its texts ended. `conf STORAGE FILTER BYTES`: the confined reading of it.
use crate::writer::Out;
use crate::{conf, digits, message};
use parse::{ParsedMessage, Refusal};
use wire::Got;

// Which reading is asked for.
#[derive(Clone, Copy)]
pub enum Asked {
    Message,
    Reasons,
    Confined,
}

// The answer to the words behind the kind.
pub fn answer(words: &[&[u8]], asked: Asked, body: &mut [u8], out: &mut Out) -> Option<()> {
    let [mode, chosen, bytes] = words else {
        return None;
    };
    let (s, room) = digits::hex_bytes(bytes, body)?;
    let (f, _) = digits::hex_bytes(chosen, room)?;
    let with_storage_header = digits::storage(mode)?;
    match asked {
        Asked::Message => shown(s, f, with_storage_header, false, out),
        Asked::Reasons => shown(s, f, with_storage_header, true, out),
        Asked::Confined => conf::shown(s, f, with_storage_header, out),
    }
    Some(())
}

fn shown(s: &[u8], f: &[u8], with_storage_header: bool, why: bool, out: &mut Out) {
    match parse::dlt_message(s, f, with_storage_header) {
        Ok(got) => parsed(s, got, why, out),
        Err(refusal) => refused(refusal, out),
    }
}

// Why there is no message.
pub fn refused(refusal: Refusal, out: &mut Out) {
    match refusal {
        Refusal::BadFilter => out.byte(b'1'),
        Refusal::RetiredTag => out.literal(b"13"),
        Refusal::Need(n) => out.need(n),
        Refusal::Hickup(reason) => out.hickup(reason),
        Refusal::Broken => out.byte(b'4'),
    }
}

// A message that was read, or that the filter drops.
fn parsed(s: &[u8], got: Got<ParsedMessage>, why: bool, out: &mut Out) {
    let end = got.next;
    match got.v {
        ParsedMessage::Item(m) => {
            out.labelled(b"0 item used=", end);
            message::message(out, s, m, end, why);
        }
        ParsedMessage::FilteredOut(n) => unread(out, b"0 filtered used=", end, n),
    }
}

// A message of whose payload only the length `n` is told.
pub fn unread(out: &mut Out, label: &[u8], end: usize, n: u16) {
    out.labelled(label, end);
    out.labelled(b" plen=", n);
}
