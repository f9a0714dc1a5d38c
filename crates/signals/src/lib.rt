// Arguments from signal data, by a list of type info words: port of `construct_arguments` in parse.rs of dlt-core 0.20.2 (Apache-2.0,
// NOTICE). The words are decoded one by one, as they are reached.
#![tactic(auto)]

ghost use Rattle.std.specs.Prelude.{◌≡◌};
ghost use Rattle.dlt.specs.declared.TypeInfoKind.{TypeInfoKind};
ghost use Rattle.values.specs.Value.{value};
ghost use Rattle.signals.specs.Signal.{utf8, content, in_data_of, signal, fixed_width};
ghost use Rattle.signals.specs.Signals.{constructed, signal_turn, construct_ans};
ghost use Rattle.wire.specs.Answers.{reason_ans, stop_ans};

use dlt::{Argument, FloatWidth, TypeInfo, TypeInfoKind, Value};
use values::Numeric;
use wire::{Ended, Got, Range, Reason, Stop, Text};

// A string of a size, all of which must be UTF-8: it ends at its size, zero bytes and all.
fn whole_string(s: &[u8], at: usize, size: u16) -> Result<Got<Value>, Stop>
    ensures { stop_ans result ≡ utf8 size s.now at }
{
    let n = size as usize;
    let rest = wire::left(s, at);
    if rest < n {
        return Err(Stop::Need(n - rest));
    }
    let valid = strings::valid_up_to(s, at, n);
    if n <= valid {
        Ok(Got {
            v: Value::StringVal(Text {
                place: Range { start: at, len: n },
                ended: Ended::Size,
            }),
            next: at + n,
        })
    } else {
        Err(Stop::Hickup(Reason::SignalText))
    }
}

// A string: its size, and its content.
fn string_content(s: &[u8], at: usize, big: bool) -> Result<Got<Value>, Stop>
    ensures { stop_ans result ≡ content big TypeInfoKind.StringType s.now at }
{
    let size = wire::parse_u16(s, at, big)?;
    whole_string(s, size.next, size.v)
}

// Raw bytes: their size, and the bytes.
fn raw_content(s: &[u8], at: usize, big: bool) -> Result<Got<Value>, Stop>
    ensures { stop_ans result ≡ content big TypeInfoKind.Raw s.now at }
{
    let size = wire::parse_u16(s, at, big)?;
    let run = wire::take(s, size.next, size.v as usize)?;
    let range = run.v;
    Ok(Got {
        v: Value::Raw(range),
        next: run.next,
    })
}

// A bool.
fn bool_content(s: &[u8], at: usize, big: bool) -> Result<Got<Value>, Stop>
    ensures { stop_ans result ≡ content big TypeInfoKind.Bool s.now at }
{
    let byte = wire::parse_u8(s, at)?;
    Ok(Got {
        v: Value::Bool(byte.v),
        next: byte.next,
    })
}

// An integer or a float.
fn number_content(s: &[u8], at: usize, sort: Numeric, big: bool) -> Result<Got<Value>, Stop>
    ensures { stop_ans result ≡ value big sort s.now at }
{
    Ok(values::number_value(s, at, sort, big)?)
}

// A fixed-point kind gets no value, whatever stands there.
fn fixed_point_content(s: &[u8], at: usize, width: FloatWidth) -> Result<Got<Value>, Stop>
    ensures { stop_ans result ≡ fixed_width width s.now at }
{
    let n = width.width_in_bytes();
    let rest = wire::left(s, at);
    if rest < n {
        return Err(Stop::Need(n - rest));
    }
    Err(Stop::Hickup(Reason::SignalFixedPoint))
}

// The value, by its kind.
fn content_of(s: &[u8], at: usize, kind: TypeInfoKind, big: bool) -> Result<Got<Value>, Stop>
    ensures { stop_ans result ≡ content big kind s.now at }
{
    match kind {
        TypeInfoKind::StringType => string_content(s, at, big),
        TypeInfoKind::Raw => raw_content(s, at, big),
        TypeInfoKind::Bool => bool_content(s, at, big),
        TypeInfoKind::Float(real) => number_content(s, at, Numeric::Float(real), big),
        TypeInfoKind::Signed(whole) => number_content(s, at, Numeric::Signed(whole), big),
        TypeInfoKind::SignedFixedPoint(real) => fixed_point_content(s, at, real),
        TypeInfoKind::Unsigned(whole) => number_content(s, at, Numeric::Unsigned(whole), big),
        TypeInfoKind::UnsignedFixedPoint(real) => fixed_point_content(s, at, real),
    }
}

// The argument of a type info, without names.
fn in_data(s: &[u8], at: usize, info: TypeInfo, big: bool) -> Result<Got<Argument>, Stop>
    ensures { stop_ans result ≡ in_data_of big info s.now at }
{
    let kind = info.kind;
    let content = content_of(s, at, kind, big)?;
    let value = content.v;
    Ok(Got {
        v: Argument {
            type_info: info,
            name: None,
            unit: None,
            fixed_point: None,
            value,
            start: at,
            end: content.next,
        },
        next: content.next,
    })
}

// One signal: data that is too short is Hickup 5.
fn signal_at(s: &[u8], at: usize, word: u32, big: bool) -> Result<Got<Argument>, Reason>
    ensures { reason_ans result ≡ signal big word s.now at }
{
    let info = TypeInfo::try_from(word)?;
    match in_data(s, at, info, big) {
        Ok(item) => Ok(item),
        Err(Stop::Need(_)) => Err(Reason::SignalShort),
        Err(Stop::Hickup(reason)) => Err(reason),
    }
}

// How many arguments there are, and how many bytes they use.
#[derive(Clone, Copy)]
pub struct Constructed {
    pub count: usize,
    pub used: usize,
}

// An argument for each word.
pub fn construct_arguments(big: bool, words: &[u32], data: &[u8]) -> Result<Constructed, Reason>
    ensures { construct_ans result ≡ constructed big words.now «data».now 0 }
{
    let mut at = 0;
    for word in words {
        at = signal_at(data, at, *word, big)?.next;
    }
    Ok(Constructed {
        count: words.len(),
        used: at,
    })
}

// Where the next signal stands, and the number of its word.
#[derive(Clone, Copy)]
pub struct SignalCursor {
    pub at: usize,
    pub word: usize,
    pub big: bool,
}

#[derive(Clone, Copy)]
pub struct HandedSignal {
    pub argument: Argument,
    pub rest: SignalCursor,
}

impl SignalCursor {
    // The next argument and the cursor behind it, or the end.
    pub fn next(self, words: &[u32], data: &[u8]) -> Result<Got<Option<HandedSignal>>, Reason>
        ensures { reason_ans result ≡ signal_turn words.now self «data».now self.at }
    {
        let i = self.word;
        if i < words.len() {
            let item = signal_at(data, self.at, words[i], self.big)?;
            let argument = item.v;
            Ok(Got {
                v: Some(HandedSignal {
                    argument,
                    rest: SignalCursor {
                        at: item.next,
                        word: i + 1,
                        big: self.big,
                    },
                }),
                next: item.next,
            })
        } else {
            Ok(Got {
                v: None,
                next: self.at,
            })
        }
    }
}
