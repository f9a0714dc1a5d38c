// `skip BYTES`: passing a storage header, skip_storage_header.
use crate::writer::Out;

// The answer to the bytes of a request.
pub fn answer(s: &[u8], out: &mut Out) {
    match storage::skip_storage_header(s, 0) {
        Ok(got) => {
            out.used(got.next);
            out.labelled(b" count=", got.v);
        }
        Err(stop) => out.stopped(stop),
    }
}
