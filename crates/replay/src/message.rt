// A message as answers show it: its headers field by field, and its payload. `-` stands for a field that is absent. What is shown are the numbers
// that a host is handed, by their places (crate numbers, specs/Layout.antt).
use crate::writer::Out;
use crate::{contents, pattern};
use parse::{Headers, Message};

// What stands behind `used`, of a message that was read from `s` and ends at `end`; and why its texts ended, if `why`.
pub fn message(out: &mut Out, s: &[u8], m: Message, end: usize, why: bool) {
    let mut numbers = [0u64; 37];
    let its_payload = m.payload;
    put(&mut numbers, m);
    headers(out, s, &numbers);
    contents::payload(out, s, its_payload, &numbers, end, why);
    if why {
        pattern::fill(out, b" ends=:,:,:,:", &numbers, 33, s);
    }
}

fn put(numbers: &mut [u64], m: Message) {
    let heads = Headers {
        storage_header: m.storage_header,
        header: m.header,
        extended_header: m.extended_header,
        filtered: false,
    };
    numbers::put_item(numbers, heads, m.payload);
}

// `sh=SECS,MICROS,.ID,skipN ver=N end=L ctr=N plen=N ecu=.ID ses=N ts=N ext=vV,nCOUNT,TYPE,.APP,.CTX pay=`
fn headers(out: &mut Out, s: &[u8], m: &[u64]) {
    if_flag(out, b" sh=#,#,.@,skip#", b" sh=-", m, 2, s);
    pattern::fill(out, b" ver=# end=!~ ctr=#", m, 8, s);
    pattern::fill(out, b" plen=#", m, 1, s);
    pattern::fill(out, b" ecu=? ses=% ts=%", m, 12, s);
    if_flag(out, b" ext=v#,n#,&,.@,.@", b" ext=-", m, 19, s);
    out.literal(b" pay=");
}

// A pattern with the numbers behind a flag, or else another text.
fn if_flag(out: &mut Out, text: &[u8], other: &[u8], m: &[u64], flag: usize, s: &[u8]) {
    match m.get(flag) {
        Some(1) => pattern::fill(out, text, m, flag + 1, s),
        _ => out.literal(other),
    }
}
