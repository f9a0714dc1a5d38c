// The answer to one request, by its kind. A further kind is one more arm here, and a module like zts: its function `answer` is given the
// words behind the kind, and answers `None`, before it writes anything, where one of them is wrong. A kind with type info words takes `infos` too.
// One that has bytes alone is an arm in `by_bytes`, and a module like fwd, which is given the bytes.
use crate::msg::Asked;
use crate::writer::Out;
use crate::{args, consume, digits, fields, fwd, indexed, len, mi, msg, retire, skip, ti, zts};

// How many characters a line has at most.
pub const LONGEST: usize = 300000;

// The answer to a request that has one word alone behind its kind: bytes, which are `s`.
fn by_bytes(kind: &[u8], s: &[u8], out: &mut Out) -> Option<()> {
    match kind {
        b"fwd" => fwd::answer(s, out),
        b"skip" => skip::answer(s, out),
        b"consume" => consume::answer(s, out),
        b"len" => len::answer(s, out),
        b"mi" => mi::answer(s, out)?,
        b"retire" => retire::answer(s, out),
        _ => return None,
    }
    Some(())
}

// The answer to the words of a request, `None` where they are no request. `body` and `infos` are room for its bytes and its type info words.
fn by_kind(words: &[&[u8]], body: &mut [u8], infos: &mut [u32], out: &mut Out) -> Option<()> {
    match words {
        [b"msg", rest @ ..] => msg::answer(rest, Asked::Message, body, out),
        [b"conf", rest @ ..] => msg::answer(rest, Asked::Confined, body, out),
        [b"args", rest @ ..] => args::answer(rest, false, body, infos, out),
        [b"index", rest @ ..] => indexed::answer(rest, body, out),
        [b"zts", rest @ ..] => zts::answer(rest, false, body, out),
        [b"ti", rest @ ..] => ti::answer(rest, out),
        [b"why", b"msg", rest @ ..] => msg::answer(rest, Asked::Reasons, body, out),
        [b"why", b"args", rest @ ..] => args::answer(rest, true, body, infos, out),
        [b"why", b"zts", rest @ ..] => zts::answer(rest, true, body, out),
        [kind, bytes] => {
            let (s, _) = digits::hex_bytes(bytes, body)?;
            by_bytes(kind, s, out)
        }
        _ => None,
    }
}

// The answer line to a line. The end of a line that was too long is `dropped`: the line has its answer.
pub fn line(line: &[u8], dropped: bool, body: &mut [u8], infos: &mut [u32], out: &mut Out) {
    if dropped {
        return;
    }
    if LONGEST < line.len() {
        bad(out);
        return;
    }
    let mut room: [&[u8]; fields::MOST] = [&[]; fields::MOST];
    let words = fields::words(line, &mut room);
    match by_kind(words, body, infos, out) {
        Some(()) => out.byte(b'\n'),
        None => bad(out),
    }
}

// The answer line to a line that is no request.
pub fn bad(out: &mut Out) {
    out.literal(b"bad request\n");
}
