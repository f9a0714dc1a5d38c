// As many arguments as are counted, passed in one call or handed out one a call by a cursor, all of them or the raw values alone: port of what
// `dlt_payload` in parse.rs of dlt-core 0.20.2 does by nom's `count` (Apache-2.0, NOTICE).
#![tactic(auto)]

ghost use Rattle.std.specs.Prelude.{◌≡◌};
ghost use Rattle.cursor.specs.Cursor.{arguments, turn};
ghost use Rattle.cursor.specs.Raw.{raw_of_lem, raw_turn};
ghost use Rattle.wire.specs.Answers.{passed_ans, stop_ans};

use dlt::{Argument, Value};
use wire::{Got, Range, Stop};

// `count` arguments, whose values are not kept.
pub fn pass_arguments(s: &[u8], at: usize, count: usize, big: bool) -> Result<usize, Stop>
    ensures { passed_ans result ≡ arguments big count s.now at }
{
    let mut pos = at;
    for _ in 0..count {
        pos = skim::skim_argument(s, pos, big)?;
    }
    Ok(pos)
}

// Where the next argument stands, and how many are left.
#[derive(Clone, Copy)]
pub struct Cursor {
    pub at: usize,
    pub left: usize,
    pub big: bool,
}

#[derive(Clone, Copy)]
pub struct Handed {
    pub argument: Argument,
    pub rest: Cursor,
}

impl Cursor {
    // The next argument and the cursor behind it, or the end.
    pub fn next(self, s: &[u8]) -> Result<Got<Option<Handed>>, Stop>
        ensures { stop_ans result ≡ turn self s.now self.at }
    {
        if 1 <= self.left {
            let item = arguments::dlt_argument(s, self.at, self.big)?;
            let argument = item.v;
            Ok(Got {
                v: Some(Handed {
                    argument,
                    rest: Cursor {
                        at: item.next,
                        left: self.left - 1,
                        big: self.big,
                    },
                }),
                next: item.next,
            })
        } else {
            Ok(Got {
                v: None,
                next: self.at,
            })
        }
    }
}

// The same over a network trace's arguments, of which only raw values are kept.
// A type of its own: a network trace can't be asked for its arguments (docs/DECISIONS.md).
#[derive(Clone, Copy)]
pub struct RawCursor {
    pub at: usize,
    pub left: usize,
    pub big: bool,
}

#[derive(Clone, Copy)]
pub struct HandedRaw {
    pub range: Range,
    pub rest: RawCursor,
}

fn raw_of(v: Value) -> Option<Range>
    ensures { result ≡ raw_of_lem v }
{
    match v {
        Value::Raw(range) => Some(range),
        _ => None,
    }
}

impl RawCursor {
    // The next raw value and the cursor behind it, or the end. Arguments that aren't raw are read and passed over.
    pub fn next(self, s: &[u8]) -> Result<Got<Option<HandedRaw>>, Stop>
        ensures { stop_ans result ≡ raw_turn self s.now self.at }
    {
        let big = self.big;
        let mut at = self.at;
        let mut left = self.left;
        while 1 <= left {
            let item = arguments::dlt_argument(s, at, big)?;
            let argument = item.v;
            let value = argument.value;
            at = item.next;
            left -= 1;
            match raw_of(value) {
                Some(range) => {
                    return Ok(Got {
                        v: Some(HandedRaw {
                            range,
                            rest: RawCursor { at, left, big },
                        }),
                        next: at,
                    });
                }
                None => {}
            }
        }
        Ok(Got { v: None, next: at })
    }
}
