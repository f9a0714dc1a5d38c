// `args L|B WORDS BYTES`: arguments from signal data, construct_arguments; behind `why` with why their texts ended.
use crate::writer::Out;
use crate::{contents, digits};
use signals::SignalCursor;
use wire::Got;

// The answer to the words behind the kind, with reasons if `why`. `room` is room for the type info words.
pub fn answer(
    words: &[&[u8]],
    why: bool,
    body: &mut [u8],
    room: &mut [u32],
    out: &mut Out,
) -> Option<()> {
    let [order, list, bytes] = words else {
        return None;
    };
    let (s, _) = digits::hex_bytes(bytes, body)?;
    let infos = digits::hex_words(list, room)?;
    let big = digits::big_endian(order)?;
    shown(big, infos, s, why, out);
    Some(())
}

fn shown(big: bool, infos: &[u32], s: &[u8], why: bool, out: &mut Out) {
    match signals::construct_arguments(big, infos, s) {
        Ok(all) => {
            out.used(all.used);
            out.byte(b' ');
            every_signal(out, infos, s, big, why);
        }
        Err(reason) => out.hickup(reason),
    }
}

// All arguments, one behind the other. Arguments that were read have none that cannot be read again: one would be their end.
fn every_signal(out: &mut Out, infos: &[u32], s: &[u8], big: bool, why: bool) {
    let mut list = SignalCursor {
        at: 0,
        word: 0,
        big,
    };
    for _ in infos {
        let Ok(Got { v: Some(item), .. }) = list.next(infos, s) else {
            break;
        };
        contents::argument(out, s, item.argument, why);
        list = item.rest;
    }
}
