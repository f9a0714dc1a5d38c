// Floats kept to the bit, not-a-number included, in either byte order: the float half of `NomByteOrder` in parse.rs of dlt-core 0.20.2
// (Apache-2.0, NOTICE). `f32::from_bits` is undefined at the pattern of a NaN, and the logic has one NaN only, so such a pattern is kept as
// the number that it is. Both widths cite one law, over the format.
#![tactic(auto)]

ghost use Rattle.std.specs.Prelude.{◌≡◌};
ghost use Rattle.std.specs.Float.{binary32};
ghost use Rattle.std.specs.Float.Ieee.{of_bits};
ghost use Rattle.reals.specs.Real.{real32_of, real64_of, float32, float64, pattern32, pattern64};
ghost use Rattle.wire.specs.Answers.{need_ans};

use wire::{Got, Need};

// A 32-bit float as it was read.
#[derive(Clone, Copy)]
pub enum Real32 {
    Number(f32),
    NotANumber(u32),
}

// A 64-bit float as it was read.
#[derive(Clone, Copy)]
pub enum Real64 {
    Number(f64),
    NotANumber(u64),
}

// What is kept of a pattern: the float that has it, or the pattern of a NaN.
fn kept32(bits: u32) -> Real32
    ensures { result ≡ real32_of bits }
{
    if bits % 0x8000_0000 > 0x7F80_0000 {
        return Real32::NotANumber(bits);
    }
    Real32::Number(f32::from_bits(bits))
}

// What is kept of a pattern: the float that has it, or the pattern of a NaN.
fn kept64(bits: u64) -> Real64
    ensures { result ≡ real64_of bits }
{
    if bits % 0x8000_0000_0000_0000 > 0x7FF0_0000_0000_0000 {
        return Real64::NotANumber(bits);
    }
    Real64::Number(f64::from_bits(bits))
}

pub fn parse_f32(s: &[u8], at: usize, big: bool) -> Result<Got<Real32>, Need>
    ensures { need_ans result ≡ float32 big s.now at }
{
    let bits = wire::parse_u32(s, at, big)?;
    Ok(Got {
        v: kept32(bits.v),
        next: bits.next,
    })
}

pub fn parse_f64(s: &[u8], at: usize, big: bool) -> Result<Got<Real64>, Need>
    ensures { need_ans result ≡ float64 big s.now at }
{
    let bits = wire::parse_u64(s, at, big)?;
    Ok(Got {
        v: kept64(bits.v),
        next: bits.next,
    })
}

// The float alone, at every pattern: whatever pattern a NaN has, the logic has one NaN.
pub fn float_of(bits: u32) -> f32
    ensures { result ≡ of_bits binary32 bits }
{
    if bits % 0x8000_0000 > 0x7F80_0000 {
        return 0.0 / 0.0;
    }
    f32::from_bits(bits)
}

// The pattern of a float that was read.
pub fn bits32(r: Real32) -> u32
    ensures { result ≡ pattern32 r }
{
    match r {
        Real32::Number(x) => {
            if x != x {
                return 0x7FC0_0000;
            }
            f32::to_bits(x)
        }
        Real32::NotANumber(b) => b,
    }
}

// The pattern of a float that was read.
pub fn bits64(r: Real64) -> u64
    ensures { result ≡ pattern64 r }
{
    match r {
        Real64::Number(x) => {
            if x != x {
                return 0x7FF8_0000_0000_0000;
            }
            f64::to_bits(x)
        }
        Real64::NotANumber(b) => b,
    }
}
