// `len BYTES`: the declared length of a standard header, parse_length.
use crate::writer::Out;
use wire::Need;

// The answer to the bytes of a request.
pub fn answer(s: &[u8], out: &mut Out) {
    match headers::parse_length(s, 0) {
        Ok(got) => {
            out.used(got.next);
            out.labelled(b" len=", got.v);
        }
        Err(Need(need)) => out.need(need),
    }
}
