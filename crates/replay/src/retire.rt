// `retire FILTER`: an old filter without its counts, retired::without_counts, and what was removed.
use crate::writer::Out;
use filter::Counts;

// The answer to the bytes of a request.
pub fn answer(s: &[u8], out: &mut Out) {
    match retired::without_counts(s) {
        Ok(cut) => {
            bytes(s, cut.kept, out);
            removed(cut.counts, cut.kept, out);
        }
        Err(_) => out.byte(b'1'),
    }
}

// The bytes that are kept: `-` where there are none.
fn bytes(s: &[u8], kept: usize, out: &mut Out) {
    out.literal(b"0 ");
    if kept == 0 {
        out.byte(b'-');
    } else {
        out.hex_bytes(s, 0, kept);
    }
}

// The counts that were there, in order; the first stood behind the `kept` bytes.
fn removed(counts: Counts, kept: usize, out: &mut Out) {
    match counts.apps {
        Some(n) => {
            count(b" app count ", kept, n, out);
            last(counts.contexts, kept.wrapping_add(11), out);
        }
        None => last(counts.contexts, kept, out),
    }
}

fn last(contexts: Option<i64>, place: usize, out: &mut Out) {
    if let Some(n) = contexts {
        count(b" context count ", place, n, out);
    }
}

// ` (removed POSITION 11 NAME count N)`.
fn count(name: &[u8], place: usize, n: i64, out: &mut Out) {
    out.labelled(b" (removed ", place);
    out.literal(b" 11");
    out.literal(name);
    out.decimal(n);
    out.byte(b')');
}
