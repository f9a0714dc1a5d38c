// One argument of a verbose payload, of any kind: port of `dlt_type_info` and `dlt_argument` in parse.rs of dlt-core 0.20.2 (Apache-2.0,
// NOTICE). Signed, unsigned and float numbers share a function, and so do both fixed-point kinds, and strings and raw bytes.
#![tactic(auto)]

ghost use Rattle.std.specs.Prelude.{◌≡◌};
ghost use Rattle.arguments.specs.Argument.{type_info_of, boolean, plain, scaled, content, sized, kinded, argument};
ghost use Rattle.wire.specs.Answers.{need_ans, stop_ans};

use dlt::{Argument, FloatWidth, TypeInfo, TypeInfoKind, Value};
use values::Numeric;
use wire::{Got, Need, Stop};

// The type info word.
pub fn dlt_type_info(s: &[u8], at: usize, big: bool) -> Result<Got<TypeInfo>, Stop>
    ensures { stop_ans result ≡ type_info_of big s.now at }
{
    let word = wire::parse_u32(s, at, big)?;
    let info = TypeInfo::try_from(word.v)?;
    Ok(Got {
        v: info,
        next: word.next,
    })
}

// A bool: name, value.
fn bool_argument(
    s: &[u8],
    at: usize,
    start: usize,
    info: TypeInfo,
    big: bool,
) -> Result<Got<Argument>, Stop>
    ensures { stop_ans result ≡ boolean big start info s.now at }
{
    let name = names::maybe_variable_name(s, at, info.has_variable_info, big)?;
    let byte = wire::parse_u8(s, name.next)?;
    let named = name.v;
    Ok(Got {
        v: Argument {
            type_info: info,
            name: named,
            unit: None,
            fixed_point: None,
            value: Value::Bool(byte.v),
            start,
            end: byte.next,
        },
        next: byte.next,
    })
}

// An integer or a float: name and unit, value.
fn plain_argument(
    s: &[u8],
    at: usize,
    start: usize,
    info: TypeInfo,
    sort: Numeric,
    big: bool,
) -> Result<Got<Argument>, Stop>
    ensures { stop_ans result ≡ plain big start info sort s.now at }
{
    let names = names::dlt_variable_name_and_unit(s, at, info.has_variable_info, big)?;
    let number = values::number_value(s, names.next, sort, big)?;
    let both = names.v;
    let name = both.name;
    let unit = both.unit;
    let value = number.v;
    Ok(Got {
        v: Argument {
            type_info: info,
            name,
            unit,
            fixed_point: None,
            value,
            start,
            end: number.next,
        },
        next: number.next,
    })
}

// A fixed-point number: name and unit, quantization and offset, value.
fn scaled_argument(
    s: &[u8],
    at: usize,
    start: usize,
    info: TypeInfo,
    width: FloatWidth,
    sort: Numeric,
    big: bool,
) -> Result<Got<Argument>, Stop>
    ensures { stop_ans result ≡ scaled big start info width sort s.now at }
{
    let names = names::dlt_variable_name_and_unit(s, at, info.has_variable_info, big)?;
    let scale = values::dlt_fixed_point(s, names.next, width, big)?;
    let number = values::number_value(s, scale.next, sort, big)?;
    let both = names.v;
    let name = both.name;
    let unit = both.unit;
    let point = scale.v;
    let value = number.v;
    Ok(Got {
        v: Argument {
            type_info: info,
            name,
            unit,
            fixed_point: Some(point),
            value,
            start,
            end: number.next,
        },
        next: number.next,
    })
}

// A value of `n` bytes: raw, or a string.
fn sized_value(s: &[u8], at: usize, n: usize, raw: bool) -> Result<Got<Value>, Need>
    ensures { need_ans result ≡ content raw n s.now at }
{
    if raw {
        let run = wire::take(s, at, n)?;
        let range = run.v;
        Ok(Got {
            v: Value::Raw(range),
            next: run.next,
        })
    } else {
        let text = strings::dlt_zero_terminated_string_intern(s, at, n)?;
        let told = text.v;
        Ok(Got {
            v: Value::StringVal(told),
            next: text.next,
        })
    }
}

// A string or raw bytes: value size, name, value.
fn sized_argument(
    s: &[u8],
    at: usize,
    start: usize,
    info: TypeInfo,
    raw: bool,
    big: bool,
) -> Result<Got<Argument>, Stop>
    ensures { stop_ans result ≡ sized raw big start info s.now at }
{
    let size = wire::parse_u16(s, at, big)?;
    let name = names::maybe_variable_name(s, size.next, info.has_variable_info, big)?;
    let content = sized_value(s, name.next, size.v as usize, raw)?;
    let named = name.v;
    let value = content.v;
    Ok(Got {
        v: Argument {
            type_info: info,
            name: named,
            unit: None,
            fixed_point: None,
            value,
            start,
            end: content.next,
        },
        next: content.next,
    })
}

// What follows the type info, by its kind. A fixed point's answer has a name of its own, so that the others are written in place (docs/DECISIONS.md).
fn argument_of(
    s: &[u8],
    at: usize,
    start: usize,
    info: TypeInfo,
    big: bool,
) -> Result<Got<Argument>, Stop>
    ensures { stop_ans result ≡ kinded big start info info.kind s.now at }
{
    let kind = info.kind;
    match kind {
        TypeInfoKind::Signed(whole) => {
            plain_argument(s, at, start, info, Numeric::Signed(whole), big)
        }
        TypeInfoKind::SignedFixedPoint(real) => {
            let whole = dlt::float_width_to_type_length(real);
            let answer = scaled_argument(s, at, start, info, real, Numeric::Signed(whole), big);
            answer
        }
        TypeInfoKind::Unsigned(whole) => {
            plain_argument(s, at, start, info, Numeric::Unsigned(whole), big)
        }
        TypeInfoKind::UnsignedFixedPoint(real) => {
            let whole = dlt::float_width_to_type_length(real);
            let answer = scaled_argument(s, at, start, info, real, Numeric::Unsigned(whole), big);
            answer
        }
        TypeInfoKind::Float(real) => plain_argument(s, at, start, info, Numeric::Float(real), big),
        TypeInfoKind::Raw => sized_argument(s, at, start, info, true, big),
        TypeInfoKind::Bool => bool_argument(s, at, start, info, big),
        TypeInfoKind::StringType => sized_argument(s, at, start, info, false, big),
    }
}

// One argument.
pub fn dlt_argument(s: &[u8], at: usize, big: bool) -> Result<Got<Argument>, Stop>
    ensures { stop_ans result ≡ argument big s.now at }
{
    let info = dlt_type_info(s, at, big)?;
    let type_info = info.v;
    argument_of(s, info.next, at, type_info, big)
}
