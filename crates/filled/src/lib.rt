// The index call over a table of entry structs that is handed over and handed back by value, and over a fresh one.
//
// All that `index_own` does is lend the table to `entries::index_entries`.
#![tactic(auto)]

ghost use Rattle.std.specs.Prelude.{◌≡◌, replicate};
ghost use Rattle.index.specs.Index.{call};
ghost use Rattle.entries.specs.Form.{entry_form};
ghost use Rattle.filled.specs.Filled.{empty};

use entries::Entry;
use index::{Indexed, State};

// A table of 1,024 places, and what the call that filled it answered.
#[derive(Drop)]
pub struct Filled {
    pub answer: Indexed,
    pub table: [Entry; 1024],
}

// A table in which nothing stands yet.
fn fresh() -> [Entry; 1024]
    ensures { result ≡ replicate 1024 empty }
{
    let none = Entry {
        start: 0,
        skipped: 0,
        length: 0,
        kind: 0,
    };
    [none; 1024]
}

// The index call over this table.
fn index_own(s: &[u8], f: &[u8], state: State, mut table: [Entry; 1024], n: usize) -> Filled
    ensures { call entry_form f.now n s.now state table ≡ record { answer = result.answer; table = result.table } }
{
    let answer = entries::index_entries(s, f, state, &mut table, n);
    Filled { answer, table }
}

// The index call over a fresh table.
pub fn fill(s: &[u8], f: &[u8], state: State, n: usize) -> Filled
    ensures { call entry_form f.now n s.now state (replicate 1024 empty) ≡ record { answer = result.answer; table = result.table } }
{
    let table = fresh();
    index_own(s, f, state, table, n)
}
