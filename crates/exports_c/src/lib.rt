// The calls of the crate exports under their C names: each calls the function of its name there, and its clauses are that function's. The header is
// crates/exports/include/dlt.h.
#![tactic(auto)]

ghost use Rattle.std.specs.Prelude.{◌≡◌};
ghost use Rattle.mark.specs.First.{pattern, find};
ghost use Rattle.storage.specs.Consume.{consume};
ghost use Rattle.cursor.specs.Cursor.{cursor};
ghost use Rattle.cursor.specs.Raw.{raw_cursor};
ghost use Rattle.signals.specs.Signals as signals;
ghost use Rattle.signals.specs.Signals.{constructed};
ghost use Rattle.exports.specs.Calls.{index_call, message_call, argument_call, raw_call, signal_call, found_answer, consume_answer, construct_answer};

use exports::{Answer, IndexAnswer};

// One message at the front of the bytes: `out` gets its numbers.
#[unsafe(no_mangle)]
pub extern "C" fn dlt_message(
    s: &[u8],
    f: &[u8],
    with_storage_header: bool,
    out: &mut [u64],
) -> Answer
    ensures { message_call f.now with_storage_header s.now out.old ≡ record { answer = result; out = out.new } }
{
    exports::dlt_message(s, f, with_storage_header, out)
}

// The first place from `at` on where the storage pattern stands: `value` is 1 and `used` the place, or both are 0.
#[unsafe(no_mangle)]
pub extern "C" fn dlt_forward_to_next_storage_header(s: &[u8], at: usize) -> Answer
    ensures { result ≡ found_answer (find pattern s.now at) }
{
    exports::dlt_forward_to_next_storage_header(s, at)
}

// Passes one message whose storage header stands at the front: `value` is how many bytes it had, 0 where there is none.
#[unsafe(no_mangle)]
pub extern "C" fn dlt_consume_msg(s: &[u8]) -> Answer
    ensures { result ≡ consume_answer (consume s.now 0) }
{
    exports::dlt_consume_msg(s)
}

// An argument for each word: `value` is how many there are.
#[unsafe(no_mangle)]
pub extern "C" fn dlt_construct_arguments(big: bool, words: &[u32], data: &[u8]) -> Answer
    ensures { result ≡ construct_answer (constructed big words.now «data».now 0) }
{
    exports::dlt_construct_arguments(big, words, data)
}

// The next argument of a list by its cursor: `value` is 1 where there is one, and `out` gets its numbers and the cursor behind it; at the
// end of the list `value` is 0.
#[unsafe(no_mangle)]
pub extern "C" fn dlt_argument(
    s: &[u8],
    at: usize,
    left: usize,
    big: bool,
    out: &mut [u64],
) -> Answer
    ensures { argument_call (cursor at left big) s.now out.old ≡ record { answer = result; out = out.new } }
{
    exports::dlt_argument(s, at, left, big, out)
}

// The next raw value of a network trace by its cursor, likewise: of its arguments only raw values are kept.
#[unsafe(no_mangle)]
pub extern "C" fn dlt_raw_value(
    s: &[u8],
    at: usize,
    left: usize,
    big: bool,
    out: &mut [u64],
) -> Answer
    ensures { raw_call (raw_cursor at left big) s.now out.old ≡ record { answer = result; out = out.new } }
{
    exports::dlt_raw_value(s, at, left, big, out)
}

// The next argument of signal data by its cursor, whose second number is the word's.
#[unsafe(no_mangle)]
pub extern "C" fn dlt_signal(
    words: &[u32],
    data: &[u8],
    at: usize,
    word: usize,
    big: bool,
    out: &mut [u64],
) -> Answer
    ensures { signal_call words.now (signals.cursor at word big) «data».now out.old ≡ record { answer = result; out = out.new } }
{
    exports::dlt_signal(words, data, at, word, big, out)
}

// The index call: `s` is the bytes from the resume position `at` on, `table` has four numbers to an entry (start, bytes skipped, length, kind), of
// which `used` are used. After `n` entries it stops without looking further; the largest number is no limit.
#[unsafe(no_mangle)]
pub extern "C" fn dlt_index(
    s: &[u8],
    f: &[u8],
    at: usize,
    used: usize,
    table: &mut [u64],
    n: usize,
) -> IndexAnswer
    ensures { index_call f.now n s.now at used table.old ≡ record { answer = result; table = table.new } }
{
    exports::dlt_index(s, f, at, used, table, n)
}
