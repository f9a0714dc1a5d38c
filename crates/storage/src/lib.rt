// Storage mode: port of `dlt_storage_header`, `skip_storage_header` and `dlt_consume_msg` in parse.rs of dlt-core 0.20.2 (Apache-2.0, NOTICE).
#![tactic(auto)]

ghost use Rattle.std.specs.Prelude.{◌≡◌, ◌+◌, ◌≤◌, take, drop};
ghost use Rattle.mark.specs.First.{pattern};
ghost use Rattle.storage.specs.Storage.{owned, stored, storage};
ghost use Rattle.storage.specs.Consume.{tagged, skip, whole, consume};
ghost use Rattle.wire.specs.Answers.{need_ans, passed_ans, stop_ans};

use headertype::{DltTimeStamp, StorageHeader};
use wire::{Got, Need, Reason, Stop};

// A storage header, and how many bytes were skipped to reach its pattern.
#[derive(Clone, Copy)]
pub struct Stored {
    pub header: StorageHeader,
    pub skipped: usize,
}

// The storage pattern.
const PATTERN: [u8; 4] = *b"DLT\x01";

// The identifier of a storage header.
fn owned_fields(
    s: &[u8],
    at: usize,
    skipped: usize,
    seconds: u32,
    micros: u32,
) -> Result<Got<Option<Stored>>, Need>
    ensures { need_ans result ≡ owned skipped seconds micros s.now at }
{
    let ecu = strings::identifier(s, at)?;
    let ecu_id = ecu.v;
    Ok(Got {
        v: Some(Stored {
            header: StorageHeader {
                timestamp: DltTimeStamp {
                    seconds: seconds,
                    microseconds: micros,
                },
                ecu_id: ecu_id,
            },
            skipped: skipped,
        }),
        next: ecu.next,
    })
}

// The storage header whose pattern stands at `at`.
fn stored_fields(s: &[u8], at: usize, skipped: usize) -> Result<Got<Option<Stored>>, Need>
    ensures { need_ans result ≡ stored skipped s.now at }
{
    let mark = wire::take(s, at, 4)?;
    let seconds = wire::parse_u32(s, mark.next, false)?;
    let micros = wire::parse_u32(s, seconds.next, false)?;
    owned_fields(s, micros.next, skipped, seconds.v, micros.v)
}

// The first storage header from `at` on.
pub fn dlt_storage_header(s: &[u8], at: usize) -> Result<Got<Option<Stored>>, Need>
    ensures { need_ans result ≡ storage s.now at }
{
    let rest = wire::left(s, at);
    if rest < 16 {
        return Err(Need(0));
    }
    match mark::forward_to_next_storage_header(s, at) {
        Some(i) => stored_fields(s, i, i - at),
        None => Ok(Got {
            v: None,
            next: s.len(),
        }),
    }
}

// The `size` bytes of the pattern from its byte `first` on, which must stand at `at`.
fn tag(s: &[u8], at: usize, first: usize, size: usize) -> Result<usize, Stop>
    requires { first + size ≤ 4 }
    ensures { passed_ans result ≡ tagged (take size (drop first pattern)) s.now at }
{
    let rest = wire::left(s, at);
    for k in 0..size {
        if rest <= k {
            return Err(Stop::Need(size - k));
        }
        if s[at + k] != PATTERN[first + k] {
            return Err(Stop::Hickup(Reason::Pattern));
        }
    }
    Ok(at + size)
}

// Passes the storage header that stands at `at`.
pub fn skip_storage_header(s: &[u8], at: usize) -> Result<Got<u64>, Stop>
    ensures { stop_ans result ≡ skip s.now at }
{
    let letters = tag(s, at, 0, 3)?;
    let one = tag(s, letters, 3, 1)?;
    let rest = wire::take(s, one, 12)?;
    Ok(Got {
        v: 16,
        next: rest.next,
    })
}

// The message behind a storage header.
fn whole_message(s: &[u8], at: usize) -> Result<Got<Option<u64>>, Stop>
    ensures { stop_ans result ≡ whole s.now at }
{
    let standard = headers::dlt_standard_header(s, at)?;
    let header = standard.v;
    let length = header.overall_length();
    let message = wire::take(s, at, length as usize)?;
    Ok(Got {
        v: Some(16 + length as u64),
        next: message.next,
    })
}

// Passes one message whose storage header stands at `at`.
pub fn dlt_consume_msg(s: &[u8], at: usize) -> Result<Got<Option<u64>>, Stop>
    ensures { stop_ans result ≡ consume s.now at }
{
    let rest = wire::left(s, at);
    if rest < 1 {
        return Ok(Got { v: None, next: at });
    }
    let lead = skip_storage_header(s, at)?;
    whole_message(s, lead.next)
}
