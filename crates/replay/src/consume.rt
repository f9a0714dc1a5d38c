// `consume BYTES`: passing a message with its storage header, dlt_consume_msg.
use crate::writer::Out;

// The answer to the bytes of a request.
pub fn answer(s: &[u8], out: &mut Out) {
    match storage::dlt_consume_msg(s, 0) {
        Ok(got) => {
            out.used(got.next);
            count(got.v, out);
        }
        Err(stop) => out.stopped(stop),
    }
}

// How many bytes the message had: `-` where there was none.
fn count(bytes: Option<u64>, out: &mut Out) {
    out.literal(b" count=");
    match bytes {
        Some(n) => out.decimal(n),
        None => out.byte(b'-'),
    }
}
