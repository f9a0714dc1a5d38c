// The confined reading of one message, as `conf` shows it.
use crate::writer::Out;
use crate::{contents, message, msg};
use confined::ConfinedMessage;
use wire::Got;

pub fn shown(s: &[u8], f: &[u8], with_storage_header: bool, out: &mut Out) {
    match confined::confined_message(s, f, with_storage_header) {
        Ok(got) => read(s, got, out),
        Err(why) => msg::refused(why, out),
    }
}

// A message that was read, that the filter drops, or whose arguments don't fit. Its bytes end where it says, its arguments where they do.
fn read(s: &[u8], got: Got<ConfinedMessage>, out: &mut Out) {
    let end = got.next;
    match got.v {
        ConfinedMessage::Item(m) => {
            out.labelled(b"0 item used=", end);
            let contents_end = contents::end_of(s, m.payload, end);
            message::message(out, s, m, contents_end, false);
        }
        ConfinedMessage::FilteredOut(n) => msg::unread(out, b"0 filtered used=", end, n),
        ConfinedMessage::Overrun(n) => msg::unread(out, b"0 overrun used=", end, n),
    }
}
