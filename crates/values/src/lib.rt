// Numbers as values, and a fixed point's quantization and offset: port of `dlt_uint`, `dlt_sint`, `dlt_fint` and `dlt_fixed_point` in
// parse.rs of dlt-core 0.20.2 (Apache-2.0, NOTICE). Width and byte order are values here, not function pointers and traits.
#![tactic(auto)]

ghost use Rattle.std.specs.Prelude.{◌≡◌};
ghost use Rattle.dlt.specs.declared.TypeLength.{TypeLength};
ghost use Rattle.values.specs.Value.{uint, sint, fint, value, fixed_point_of, carry32, carry64};
ghost use Rattle.wire.specs.Answers.{need_ans};

use dlt::{FixedPoint, FixedPointValue, FloatWidth, TypeLength, Value};
use reals::{Real32, Real64};
use wire::{Got, Need};

// Which number some bytes are.
#[derive(Clone, Copy)]
pub enum Numeric {
    Unsigned(TypeLength),
    Signed(TypeLength),
    Float(FloatWidth),
}

// An unsigned number of 128 bits.
fn wide_uint(s: &[u8], at: usize, big: bool) -> Result<Got<Value>, Need>
    ensures { need_ans result ≡ uint big TypeLength.BitLength128 s.now at }
{
    let whole = wire::parse_u128(s, at, big)?;
    Ok(Got {
        v: Value::U128 {
            high: whole.v.high,
            low: whole.v.low,
        },
        next: whole.next,
    })
}

// An unsigned number.
pub fn dlt_uint(s: &[u8], at: usize, width: TypeLength, big: bool) -> Result<Got<Value>, Need>
    ensures { need_ans result ≡ uint big width s.now at }
{
    match width {
        TypeLength::BitLength8 => {
            let num = wire::parse_u8(s, at)?;
            Ok(Got {
                v: Value::U8(num.v),
                next: num.next,
            })
        }
        TypeLength::BitLength16 => {
            let num = wire::parse_u16(s, at, big)?;
            Ok(Got {
                v: Value::U16(num.v),
                next: num.next,
            })
        }
        TypeLength::BitLength32 => {
            let num = wire::parse_u32(s, at, big)?;
            Ok(Got {
                v: Value::U32(num.v),
                next: num.next,
            })
        }
        TypeLength::BitLength64 => {
            let num = wire::parse_u64(s, at, big)?;
            Ok(Got {
                v: Value::U64(num.v),
                next: num.next,
            })
        }
        TypeLength::BitLength128 => wide_uint(s, at, big),
    }
}

// A signed number of 128 bits.
fn wide_sint(s: &[u8], at: usize, big: bool) -> Result<Got<Value>, Need>
    ensures { need_ans result ≡ sint big TypeLength.BitLength128 s.now at }
{
    let num = signed::parse_i128(s, at, big)?;
    Ok(Got {
        v: Value::I128 {
            high: num.v.high,
            low: num.v.low,
        },
        next: num.next,
    })
}

// A signed number.
pub fn dlt_sint(s: &[u8], at: usize, width: TypeLength, big: bool) -> Result<Got<Value>, Need>
    ensures { need_ans result ≡ sint big width s.now at }
{
    match width {
        TypeLength::BitLength8 => {
            let num = signed::parse_i8(s, at)?;
            Ok(Got {
                v: Value::I8(num.v),
                next: num.next,
            })
        }
        TypeLength::BitLength16 => {
            let num = signed::parse_i16(s, at, big)?;
            Ok(Got {
                v: Value::I16(num.v),
                next: num.next,
            })
        }
        TypeLength::BitLength32 => {
            let num = signed::parse_i32(s, at, big)?;
            Ok(Got {
                v: Value::I32(num.v),
                next: num.next,
            })
        }
        TypeLength::BitLength64 => {
            let num = signed::parse_i64(s, at, big)?;
            Ok(Got {
                v: Value::I64(num.v),
                next: num.next,
            })
        }
        TypeLength::BitLength128 => wide_sint(s, at, big),
    }
}

// A float, or the pattern of one that is no number.
fn real32(r: Real32) -> Value
    ensures { result ≡ carry32 r }
{
    match r {
        Real32::Number(x) => Value::F32(x),
        Real32::NotANumber(pattern) => Value::F32NotANumber(pattern),
    }
}

// A float, or the pattern of one that is no number.
fn real64(r: Real64) -> Value
    ensures { result ≡ carry64 r }
{
    match r {
        Real64::Number(x) => Value::F64(x),
        Real64::NotANumber(pattern) => Value::F64NotANumber(pattern),
    }
}

// A float.
pub fn dlt_fint(s: &[u8], at: usize, width: FloatWidth, big: bool) -> Result<Got<Value>, Need>
    ensures { need_ans result ≡ fint big width s.now at }
{
    match width {
        FloatWidth::Width32 => {
            let num = reals::parse_f32(s, at, big)?;
            let real = num.v;
            Ok(Got {
                v: real32(real),
                next: num.next,
            })
        }
        FloatWidth::Width64 => {
            let num = reals::parse_f64(s, at, big)?;
            let real = num.v;
            Ok(Got {
                v: real64(real),
                next: num.next,
            })
        }
    }
}

// An integer or a float.
pub fn number_value(s: &[u8], at: usize, sort: Numeric, big: bool) -> Result<Got<Value>, Need>
    ensures { need_ans result ≡ value big sort s.now at }
{
    match sort {
        Numeric::Unsigned(whole) => dlt_uint(s, at, whole, big),
        Numeric::Signed(whole) => dlt_sint(s, at, whole, big),
        Numeric::Float(real) => dlt_fint(s, at, real, big),
    }
}

// A quantization, and an offset of the value's width.
pub fn dlt_fixed_point(
    s: &[u8],
    at: usize,
    width: FloatWidth,
    big: bool,
) -> Result<Got<FixedPoint>, Need>
    ensures { need_ans result ≡ fixed_point_of big width s.now at }
{
    let bits = wire::parse_u32(s, at, big)?;
    let quantization = reals::float_of(bits.v);
    match width {
        FloatWidth::Width32 => {
            let offset = signed::parse_i32(s, bits.next, big)?;
            Ok(Got {
                v: FixedPoint {
                    quantization,
                    pattern: bits.v,
                    offset: FixedPointValue::I32(offset.v),
                },
                next: offset.next,
            })
        }
        FloatWidth::Width64 => {
            let offset = signed::parse_i64(s, bits.next, big)?;
            Ok(Got {
                v: FixedPoint {
                    quantization,
                    pattern: bits.v,
                    offset: FixedPointValue::I64(offset.v),
                },
                next: offset.next,
            })
        }
    }
}
