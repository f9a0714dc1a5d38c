// `index CAP RESUME USED FILTER BYTES`: the trace index, over a table of CAP entries. `index CAP RESUME USED FILTER BYTES LIMIT`: the same, and it stops
// after LIMIT entries; then the answer tells how many it took.
ghost use Rattle.std.specs.Prelude.{◌≡◌, ◌≤◌, length};

use crate::writer::Out;
use crate::{digits, pattern};
use index::{End, State};

// How many entries a table has at most.
const MOST: u64 = 4096;

// Room for the numbers of so many entries.
fn table_room() -> [u64; 16384]
    ensures { 16384 ≡ length result }
{
    [0; 16384]
}

// The answer to the words behind the kind.
pub fn answer(words: &[&[u8]], body: &mut [u8], out: &mut Out) -> Option<()> {
    let [cap, resume, used, chosen, bytes, more @ ..] = words else {
        return None;
    };
    let limit = match more {
        [] => None,
        [word] => Some(digits::decimal(word)?),
        _ => return None,
    };
    let (s, room) = digits::hex_bytes(bytes, body)?;
    let (f, _) = digits::hex_bytes(chosen, room)?;
    let cap = digits::decimal(cap)?;
    let state = State {
        at: digits::decimal(resume)? as usize,
        used: digits::decimal(used)? as usize,
    };
    if MOST < cap {
        return None;
    }
    let mut cells = table_room();
    let table = cells.get_mut(..4 * cap as usize)?;
    called(s, f, state, table, limit, out);
    Some(())
}

// The call over a table. Without a limit it takes as many entries as the table holds.
fn called(s: &[u8], f: &[u8], state: State, table: &mut [u64], limit: Option<u64>, out: &mut Out) {
    let most = limit.unwrap_or(u64::MAX) as usize;
    let got = index::index(s, f, state, table, most);
    ending(out, got.end, got.state);
    if limit.is_some() {
        out.labelled(b" taken=", got.taken);
    }
    entries(out, table, state.used, got.state.used);
}

// The number of an end.
fn end_number(end: End) -> u64 {
    match end {
        End::Waits(_) => 0,
        End::BadFilter => 1,
        End::RetiredTag => 13,
        End::BadState => 5,
        End::TooLong => 6,
        End::Full => 7,
        End::Paused => 8,
    }
}

// The number, the state and how many bytes are missing: `-` where the call does not wait for any.
fn ending(out: &mut Out, end: End, state: State) {
    out.decimal(end_number(end));
    out.labelled(b" resume=", state.at);
    out.labelled(b" used=", state.used);
    out.literal(b" need=");
    match end {
        End::Waits(n) => out.decimal(n),
        _ => out.byte(b'-'),
    }
}

// The entries from `from` up to `to`.
fn entries(out: &mut Out, table: &[u64], from: usize, to: usize) {
    let (all, _) = table.as_chunks::<4>();
    for e in all.iter().take(to).skip(from) {
        entry(out, e);
    }
}

// An entry: its start, how many bytes were skipped, its length and its kind.
fn entry(out: &mut Out, e: &[u64; 4]) {
    let [_, _, _, its_kind] = e;
    pattern::fill(out, b" (# # # ", e, 0, b"");
    kind(out, *its_kind);
}

fn kind(out: &mut Out, kind: u64) {
    match kind {
        0 => out.literal(b"item)"),
        1 => out.literal(b"filtered)"),
        2 => out.literal(b"hickup)"),
        3 => out.literal(b"unrecoverable)"),
        _ => out.literal(b"overrun)"),
    }
}
