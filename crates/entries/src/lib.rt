// The trace index over a lent slice of entry structs.
//
// All that is decided is decided in functions over values: `first` and `next` say what is due, as a `Turn`. The loop of `index_entries`
// tests one bool, stores one entry and asks for the next turn.
#![tactic(auto)]

ghost use Rattle.std.specs.Prelude.{◌≡◌, ◌+◌, ◌≤◌, length, drop};
ghost use Rattle.step.specs.Step.{asked};
ghost use Rattle.index.specs.Index.{limit, call};
ghost use Rattle.entries.specs.Form.{entry_form};
ghost use Rattle.entries.specs.Turn.{stop_of, write_of, turn_of, first_of_lem, next_of_lem, Apt};

use filter::{Filter, FilterError};
use index::{End, Indexed, State};
use step::Heard;

// An entry of the table. The kinds: 0 item, 1 filtered, 2 hickup, 3 unrecoverable, 4 overrun.
#[derive(Clone, Copy)]
pub struct Entry {
    pub start: u64,
    pub skipped: u64,
    pub length: u64,
    pub kind: u64,
}

// One turn of the call. Where `go` is true, `entry` is due at `place`. Where it is false, `answer` is the call's answer. These four the loop reads;
// the others only `next` does: how far the bytes are passed with the entry, the resume position given, the table's places, the filter, and how many
// entries the call may take.
#[derive(Clone, Copy)]
pub struct Turn {
    pub go: bool,
    pub place: usize,
    pub entry: Entry,
    pub answer: Indexed,
    pub at: usize,
    pub from: usize,
    pub cap: usize,
    pub filter: Filter,
    pub most: usize,
}

// The call ends, with this answer.
fn stop(state: State, taken: usize, end: End) -> Turn
    ensures { result ≡ stop_of state taken end }
{
    Turn {
        go: false,
        place: 0,
        entry: Entry {
            start: 0,
            skipped: 0,
            length: 0,
            kind: 0,
        },
        answer: Indexed { state, taken, end },
        at: 0,
        from: 0,
        cap: 0,
        filter: Filter {
            min_log_level: None,
            app_ids: None,
            ecu_ids: None,
            context_ids: None,
        },
        most: 0,
    }
}

// An entry is due at the first free place, and the next turn is past it.
fn write(
    filter: Filter,
    from: usize,
    cap: usize,
    used: usize,
    at: usize,
    most: usize,
    taken: usize,
    skipped: usize,
    len: usize,
    kind: u64,
) -> Turn
    requires { from + (at + (skipped + len)) ≤ limit }
    ensures { result ≡ write_of filter from cap used at most taken skipped len kind }
{
    let here = from + at;
    let start = here + skipped;
    let state = State { at: here, used };
    Turn {
        go: true,
        place: used,
        entry: Entry {
            start: start as u64,
            skipped: skipped as u64,
            length: len as u64,
            kind,
        },
        answer: Indexed {
            state,
            taken,
            end: End::Full,
        },
        at: at + (skipped + len),
        from,
        cap,
        filter,
        most,
    }
}

// What is due past `at` of the bytes, with `used` entries in the table, of which this call wrote `taken` and may write `most`.
fn due(
    s: &[u8],
    f: &[u8],
    filter: Filter,
    from: usize,
    cap: usize,
    used: usize,
    at: usize,
    most: usize,
    taken: usize,
) -> Turn
    requires { (at ≤ length s.now) × (from + length s.now ≤ limit) }
    ensures { result ≡ turn_of filter from cap used at most taken (asked f.now filter (drop at s.now)) }
{
    let here = from + at;
    let state = State { at: here, used };
    if most <= taken {
        return stop(state, taken, End::Paused);
    }
    match step::ask(&s[at..], f, filter) {
        Heard::Wait(need) => stop(state, taken, End::Waits(need)),
        Heard::Take { skipped, len, kind } => {
            if cap <= used {
                return stop(state, taken, End::Full);
            }
            write(filter, from, cap, used, at, most, taken, skipped, len, kind)
        }
    }
}

// The first turn of a call with a table of `cap` places, which may take n entries: the refusals in their order, and then what is due.
fn first(s: &[u8], f: &[u8], state: State, cap: usize, n: usize) -> Turn
    ensures { result ≡ first_of_lem f.now s.now state cap n }
{
    match filter::read_filter(f) {
        Ok(filter) => {
            if cap < state.used {
                return stop(state, 0, End::BadState);
            }
            if index::too_long(state.at, s.len()) {
                return stop(state, 0, End::TooLong);
            }
            due(s, f, filter, state.at, cap, state.used, 0, n, 0)
        }
        Err(FilterError::Retired) => stop(state, 0, End::RetiredTag),
        Err(FilterError::Bad) => stop(state, 0, End::BadFilter),
    }
}

// The turn after `t`, whose entry was stored.
fn next(s: &[u8], f: &[u8], t: Turn) -> Turn
    requires { Apt s.now t }
    ensures { result ≡ next_of_lem f.now s.now t }
{
    let filter = t.filter;
    due(
        s,
        f,
        filter,
        t.from,
        t.cap,
        t.place + 1,
        t.at,
        t.most,
        t.answer.taken + 1,
    )
}

// The index call. `s` is given from the resume position on. After n entries it stops without looking further; the largest usize is no limit.
pub fn index_entries(s: &[u8], f: &[u8], state: State, table: &mut [Entry], n: usize) -> Indexed
    ensures { call entry_form f.now n s.now state table.old ≡ record { answer = result; table = table.new } }
{
    let mut t = first(s, f, state, table.len(), n);
    while t.go {
        table[t.place] = t.entry;
        t = next(s, f, t);
    }
    t.answer
}
