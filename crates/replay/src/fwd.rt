// `fwd BYTES`: the search for the storage pattern, forward_to_next_storage_header.
use crate::writer::Out;

// The answer to the bytes of a request.
pub fn answer(s: &[u8], out: &mut Out) {
    match mark::forward_to_next_storage_header(s, 0) {
        Some(dropped) => out.labelled(b"0 drop=", dropped),
        None => out.literal(b"0 none"),
    }
}
