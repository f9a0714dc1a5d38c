// The trace index: the call over a lent flat table, four numbers to an entry. The caller owns the bytes and the table; the call is given the bytes
// from the resume position on, stops after n entries if it doesn't end before, and hands back where the next call goes on.
#![tactic(auto)]

ghost use Rattle.std.specs.Prelude.{◌≡◌, [], ◌∷◌, ◌+◌, ◌*◌, ◌/◌, ◌≤◌, length, drop, ltb};
ghost use Rattle.table.specs.Over.{over};
ghost use Rattle.step.specs.Step.{asked, step_of};
ghost use Rattle.index.specs.declared.End.{End};
ghost use Rattle.index.specs.Index.{limit, Outcome, stopped, flat_form, ahead, checked, outcome};

use filter::{Filter, FilterError};
use step::Heard;

// Where the next call goes on, and how many entries of the table are used. Both are 0 when fresh.
#[derive(Clone, Copy)]
pub struct State {
    pub at: usize,
    pub used: usize,
}

// How a call ended: refused, or its walk is at a full table, or has taken as many entries as it may, or waits for so many bytes (0 for unknown).
#[derive(Clone, Copy)]
pub enum End {
    BadFilter,
    RetiredTag,
    BadState,
    TooLong,
    Full,
    Paused,
    Waits(usize),
}

// The state behind a call, the number of entries taken in it, and how it ended.
#[derive(Clone, Copy)]
pub struct Indexed {
    pub state: State,
    pub taken: usize,
    pub end: End,
}

// What the confined reading says of the bytes from `at` on.
fn ask_at(s: &[u8], at: usize, f: &[u8], filter: Filter) -> Heard
    requires { at ≤ length s.now }
    ensures { step_of result ≡ asked f.now filter (drop at s.now) }
{
    step::ask(&s[at..], f, filter)
}

// Writes an entry's four numbers at its place.
fn put(table: &mut [u64], used: usize, start: usize, skipped: usize, len: usize, kind: u64)
    requires { 4 * used + 4 ≤ length table.old }
    ensures { table.new ≡ over table.old (4 * used) (start ∷ skipped ∷ len ∷ kind ∷ []) }
{
    let i = 4 * used;
    table[i] = start as u64;
    table[i + 1] = skipped as u64;
    table[i + 2] = len as u64;
    table[i + 3] = kind;
}

// Whether a trace of `n` bytes behind `from` is over the limit.
pub fn too_long(from: usize, n: usize) -> bool
    ensures { result ≡ ltb limit (from + n) }
{
    if 4294967295 < from {
        return true;
    }
    4294967295 - from < n
}

// Where a walk stops for want of bytes.
fn waiting(at: usize, used: usize, taken: usize, need: usize) -> Indexed
    ensures { result ≡ stopped at used taken (End.Waits need) }
{
    Indexed {
        state: State { at, used },
        taken,
        end: End::Waits(need),
    }
}

// Where it stops for want of a place.
fn full(at: usize, used: usize, taken: usize) -> Indexed
    ensures { result ≡ stopped at used taken End.Full }
{
    Indexed {
        state: State { at, used },
        taken,
        end: End::Full,
    }
}

// Where it gives way.
fn paused(at: usize, used: usize, taken: usize) -> Indexed
    ensures { result ≡ stopped at used taken End.Paused }
{
    Indexed {
        state: State { at, used },
        taken,
        end: End::Paused,
    }
}

// A refusal hands back the state that the call was given.
fn refuse(state: State, end: End) -> Indexed
    ensures { result ≡ record { state = state; taken = 0; end = end } }
{
    Indexed {
        state,
        taken: 0,
        end,
    }
}

// The walk, from a state that fits the table and over bytes that are not too many.
fn walk_on(s: &[u8], f: &[u8], filter: Filter, state: State, table: &mut [u64], n: usize) -> Indexed
    requires { (state.used ≤ length table.old / 4) × (state.at + length s.now ≤ limit) }
    ensures { ahead flat_form f.now filter n s.now state table.old ≡ record { answer = result; table = table.new } }
{
    let size = table.len() / 4;
    let from = state.at;
    let mut used = state.used;
    let mut at = 0;
    for taken in 0..n {
        match ask_at(s, at, f, filter) {
            Heard::Wait(need) => return waiting(from + at, used, taken, need),
            Heard::Take { skipped, len, kind } => {
                if size <= used {
                    return full(from + at, used, taken);
                }
                put(table, used, from + at + skipped, skipped, len, kind);
                used += 1;
                at += skipped + len;
            }
        }
    }
    paused(from + at, used, n)
}

// The state is checked, then the length, and then it walks.
fn index_with(
    s: &[u8],
    f: &[u8],
    filter: Filter,
    state: State,
    table: &mut [u64],
    n: usize,
) -> Indexed
    ensures { checked flat_form f.now filter n s.now state table.old ≡ record { answer = result; table = table.new } }
{
    if table.len() / 4 < state.used {
        return refuse(state, End::BadState);
    }
    if too_long(state.at, s.len()) {
        return refuse(state, End::TooLong);
    }
    walk_on(s, f, filter, state, table, n)
}

// The index call. `s` is given from the resume position on; an entry is start, bytes skipped, length, kind; what is left of the table behind its last
// whole entry is never written. After n entries it stops without looking further; the largest usize is no limit.
pub fn index(s: &[u8], f: &[u8], state: State, table: &mut [u64], n: usize) -> Indexed
    ensures { outcome f.now n s.now state table.old ≡ record { answer = result; table = table.new } }
{
    match filter::read_filter(f) {
        Ok(filter) => index_with(s, f, filter, state, table, n),
        Err(FilterError::Retired) => refuse(state, End::RetiredTag),
        Err(FilterError::Bad) => refuse(state, End::BadFilter),
    }
}
