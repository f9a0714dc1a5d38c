// Signed numbers by two's complement, in either byte order: the signed half of `NomByteOrder` in parse.rs of dlt-core 0.20.2 (Apache-2.0,
// NOTICE). Four widths and one law over the width; 128 bits in two halves.
#![tactic(auto)]

ghost use Rattle.std.specs.Prelude.{◌≡◌, true};
ghost use Rattle.wire.specs.Number.{numeric};
ghost use Rattle.signed.specs.Twos.{twos, signed, signed_halves};
ghost use Rattle.wire.specs.Answers.{need_ans};

use wire::{Got, Need};

// 128 bits in two halves, the sign in the high one.
#[derive(Clone, Copy)]
pub struct SignedWide {
    pub high: i64,
    pub low: u64,
}

fn signed8(b: u8) -> i8
    ensures { result ≡ twos 8 b }
{
    if b < 0x80 {
        return b as i8;
    }
    -1 - ((0xFF - b) as i8)
}

fn signed16(b: u16) -> i16
    ensures { result ≡ twos 16 b }
{
    if b < 0x8000 {
        return b as i16;
    }
    -1 - ((0xFFFF - b) as i16)
}

fn signed32(b: u32) -> i32
    ensures { result ≡ twos 32 b }
{
    if b < 0x8000_0000 {
        return b as i32;
    }
    -1 - ((0xFFFF_FFFF - b) as i32)
}

fn signed64(b: u64) -> i64
    ensures { result ≡ twos 64 b }
{
    if b < 0x8000_0000_0000_0000 {
        return b as i64;
    }
    -1 - ((0xFFFF_FFFF_FFFF_FFFF - b) as i64)
}

pub fn parse_i8(s: &[u8], at: usize) -> Result<Got<i8>, Need>
    ensures { need_ans result ≡ signed true 1 s.now at }
{
    let bits = wire::parse_u8(s, at)?;
    Ok(Got {
        v: signed8(bits.v),
        next: bits.next,
    })
}

pub fn parse_i16(s: &[u8], at: usize, big: bool) -> Result<Got<i16>, Need>
    ensures { need_ans result ≡ signed big 2 s.now at }
{
    let bits = wire::parse_u16(s, at, big)?;
    Ok(Got {
        v: signed16(bits.v),
        next: bits.next,
    })
}

pub fn parse_i32(s: &[u8], at: usize, big: bool) -> Result<Got<i32>, Need>
    ensures { need_ans result ≡ signed big 4 s.now at }
{
    let bits = wire::parse_u32(s, at, big)?;
    Ok(Got {
        v: signed32(bits.v),
        next: bits.next,
    })
}

pub fn parse_i64(s: &[u8], at: usize, big: bool) -> Result<Got<i64>, Need>
    ensures { need_ans result ≡ signed big 8 s.now at }
{
    let bits = wire::parse_u64(s, at, big)?;
    Ok(Got {
        v: signed64(bits.v),
        next: bits.next,
    })
}

pub fn parse_i128(s: &[u8], at: usize, big: bool) -> Result<Got<SignedWide>, Need>
    ensures { need_ans result ≡ numeric signed_halves big 16 s.now at }
{
    let bits = wire::parse_u128(s, at, big)?;
    Ok(Got {
        v: SignedWide {
            high: signed64(bits.v.high),
            low: bits.v.low,
        },
        next: bits.next,
    })
}
