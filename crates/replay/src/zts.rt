// `zts SIZE BYTES`: a string of a size, dlt_zero_terminated_string; behind `why` with why it ended.
use crate::digits;
use crate::writer::Out;
use wire::{Ended, Need, Text};

// The answer to the words behind the kind, with the reason if `why`.
pub fn answer(words: &[&[u8]], why: bool, body: &mut [u8], out: &mut Out) -> Option<()> {
    let [size, bytes] = words else {
        return None;
    };
    let (s, _) = digits::hex_bytes(bytes, body)?;
    let size = digits::decimal(size)?;
    shown(s, size as usize, why, out);
    Some(())
}

fn shown(s: &[u8], size: usize, why: bool, out: &mut Out) {
    match strings::dlt_zero_terminated_string(s, size) {
        Ok(got) => {
            let Text { place, ended } = got.v;
            out.used(got.next);
            out.literal(b" .");
            out.text(s, place.start, place.len);
            if why {
                reason(out, ended);
            }
        }
        Err(Need(need)) => out.need(need),
    }
}

// ` end=E`, with the letters that pattern has.
fn reason(out: &mut Out, ended: Ended) {
    match ended {
        Ended::Zero => out.literal(b" end=z"),
        Ended::Size => out.literal(b" end=s"),
        Ended::Invalid => out.literal(b" end=u"),
    }
}
