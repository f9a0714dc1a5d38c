// A payload as answers show it: its kind, and what it holds; and an argument.
use crate::pattern;
use crate::writer::Out;
use cursor::{Cursor, RawCursor};
use dlt::Argument;
use payload::PayloadContent;
use wire::{Got, Range};

// The payload of a message that was read from `s` and ends at `end`, and whose numbers are `m`.
pub fn payload(out: &mut Out, s: &[u8], p: PayloadContent, m: &[u64], end: usize, why: bool) {
    match p {
        PayloadContent::Verbose(list) => {
            span(out, b'V', list.at, end);
            every_argument(out, s, list, why);
        }
        PayloadContent::NonVerbose(_, _) => pattern::fill(out, b"N(#)@", m, 29, s),
        PayloadContent::ControlMsg(_, _) => pattern::fill(out, b"C(#)@", m, 29, s),
        PayloadContent::NetworkTrace(trace) => {
            span(out, b'T', trace.at, end);
            every_raw(out, s, trace);
        }
    }
}

// Where the payload of a message that ends at `end` ends: a list ends at its last argument.
pub fn end_of(s: &[u8], p: PayloadContent, end: usize) -> usize {
    match p {
        PayloadContent::Verbose(list) => list_end(s, list.at, list.left, list.big, end),
        PayloadContent::NetworkTrace(trace) => list_end(s, trace.at, trace.left, trace.big, end),
        PayloadContent::NonVerbose(_, _) | PayloadContent::ControlMsg(_, _) => end,
    }
}

fn list_end(s: &[u8], at: usize, count: usize, big: bool, end: usize) -> usize {
    cursor::pass_arguments(s, at, count, big).unwrap_or(end)
}

// A kind of list, and where it stands: `V(FROM-TO)`.
fn span(out: &mut Out, letter: u8, from: usize, to: usize) {
    out.byte(letter);
    out.marked(b'(', from);
    out.marked(b'-', to);
    out.byte(b')');
}

// `[FROM-TO KIND,CODING,VARINFO,TRACEINFO name=.TEXT unit=.TEXT fp=QQQQQQQQ,i32:N VALUE]`, of an argument that was read from `s`; and `{NAME,UNIT,VALUE}`, why
// its texts ended, if `why`.
pub fn argument(out: &mut Out, s: &[u8], a: Argument, why: bool) {
    let mut numbers = [0u64; 26];
    numbers::put_argument(&mut numbers, 0, 0, false, a);
    pattern::fill(out, b"[#-# $,#,#,# name=? unit=? fp=^ *]", &numbers, 3, s);
    if why {
        pattern::fill(out, b"{:,:,:}", &numbers, 23, s);
    }
}

// All arguments, one behind the other. A list that was read has no argument that cannot be read again: one would be its end.
fn every_argument(out: &mut Out, s: &[u8], list: Cursor, why: bool) {
    let mut rest = list;
    for _ in 0..list.left {
        let Ok(Got { v: Some(item), .. }) = rest.next(s) else {
            break;
        };
        argument(out, s, item.argument, why);
        rest = item.rest;
    }
}

// All raw values, likewise.
fn every_raw(out: &mut Out, s: &[u8], trace: RawCursor) {
    let mut rest = trace;
    for _ in 0..trace.left {
        let Ok(Got { v: Some(item), .. }) = rest.next(s) else {
            break;
        };
        raw(out, s, item.range);
        rest = item.rest;
    }
}

// A raw value, as `[TEXT]`.
fn raw(out: &mut Out, s: &[u8], place: Range) {
    out.byte(b'[');
    out.text(s, place.start, place.len);
    out.byte(b']');
}
