// One argument passed: where it ends, or why it can't be read, as `dlt_argument` of the crate arguments has it, but nothing of it is kept. A string's
// bytes are not looked at where all of them are there: only their number matters. `dlt_message` goes by this, and hands out a cursor.
//
// What stands in functions of their own (`inline(never)`) is kept out of the loop over a message's arguments, which all else here is copied into:
// numbers, and what is told where bytes lack (docs/DESIGN-PASS.md, "Speed"). No contract here depends on that.
#![tactic(auto)]

ghost use Rattle.std.specs.Prelude.{◌≡◌, ◌-◌, ◌<◌, length};
ghost use Rattle.arguments.specs.Argument.{argument};
ghost use Rattle.skim.specs.Skim.{skim_ans, run, skim_text_of, skim_name_of, skim_texts_of, skim_names_of, skim_plain_of, skim_point_of, skim_scaled_of, skim_bool_of, skim_string_of, skim_raw_of, bytes_of, skim_whole_of, skim_float_of, skim_fixed_of, skim_number_of, skim_word_of, passed};
ghost use Rattle.wire.specs.Answer.Ans.{need};
ghost use Rattle.wire.specs.Answers.{passed_ans};

use wire::{Need, Reason, Stop};

// `n` bytes, whatever they are.
fn skim_run(s: &[u8], at: usize, n: usize) -> Result<usize, Need>
    ensures { skim_ans result ≡ run n s.now at }
{
    let rest = wire::left(s, at);
    if n <= rest {
        Ok(at + n)
    } else {
        Err(run_need(n, rest))
    }
}

// What they need where no more than `rest` are left.
#[cold]
#[inline(never)]
fn run_need(n: usize, rest: usize) -> Need
    requires { rest < n }
    ensures { result.0 ≡ n - rest }
{
    Need(n - rest)
}

// A string of a size: only where bytes lack does it matter which they are.
fn skim_text(s: &[u8], at: usize, size: usize) -> Result<usize, Need>
    ensures { skim_ans result ≡ skim_text_of size s.now at }
{
    if size <= wire::left(s, at) {
        Ok(at + size)
    } else {
        Err(text_need(s, at, size))
    }
}

// What a string needs whose bytes aren't all there, as the reading of its text tells.
#[cold]
#[inline(never)]
fn text_need(s: &[u8], at: usize, size: usize) -> Need
    requires { length s.now - at < size }
    ensures { need result.0 ≡ skim_text_of size s.now at }
{
    match strings::dlt_zero_terminated_string_intern(s, at, size) {
        Ok(_) => unreachable!(),
        Err(lack) => lack,
    }
}

// A name with its size, if there is variable info.
fn skim_name(s: &[u8], at: usize, info: bool, big: bool) -> Result<usize, Need>
    ensures { skim_ans result ≡ skim_name_of info big s.now at }
{
    if info {
        let size = wire::parse_u16(s, at, big)?;
        skim_text(s, size.next, size.v as usize)
    } else {
        Ok(at)
    }
}

// A name and a unit of these sizes.
fn skim_texts(s: &[u8], at: usize, name: usize, unit: usize) -> Result<usize, Need>
    ensures { skim_ans result ≡ skim_texts_of name unit s.now at }
{
    let next = skim_text(s, at, name)?;
    skim_text(s, next, unit)
}

// Name size, unit size, name, unit, if there is variable info.
fn skim_names(s: &[u8], at: usize, info: bool, big: bool) -> Result<usize, Need>
    ensures { skim_ans result ≡ skim_names_of info big s.now at }
{
    if info {
        let name = wire::parse_u16(s, at, big)?;
        let unit = wire::parse_u16(s, name.next, big)?;
        skim_texts(s, unit.next, name.v as usize, unit.v as usize)
    } else {
        Ok(at)
    }
}

// An integer or a float of `n` bytes: name and unit, value.
#[inline(never)]
fn skim_plain(s: &[u8], at: usize, info: bool, n: usize, big: bool) -> Result<usize, Need>
    ensures { skim_ans result ≡ skim_plain_of info n big s.now at }
{
    let next = skim_names(s, at, info, big)?;
    skim_run(s, next, n)
}

// A quantization, and an offset of `n` bytes.
fn skim_point(s: &[u8], at: usize, n: usize) -> Result<usize, Need>
    ensures { skim_ans result ≡ skim_point_of n s.now at }
{
    let next = skim_run(s, at, 4)?;
    skim_run(s, next, n)
}

// A fixed-point number: name and unit, quantization and offset, value.
#[inline(never)]
fn skim_scaled(s: &[u8], at: usize, info: bool, n: usize, big: bool) -> Result<usize, Need>
    ensures { skim_ans result ≡ skim_scaled_of info n big s.now at }
{
    let names = skim_names(s, at, info, big)?;
    let next = skim_point(s, names, n)?;
    skim_run(s, next, n)
}

// A bool: name, value.
fn skim_bool(s: &[u8], at: usize, info: bool, big: bool) -> Result<usize, Need>
    ensures { skim_ans result ≡ skim_bool_of info big s.now at }
{
    let next = skim_name(s, at, info, big)?;
    skim_run(s, next, 1)
}

// A string: value size, name, value.
fn skim_string(s: &[u8], at: usize, info: bool, big: bool) -> Result<usize, Need>
    ensures { skim_ans result ≡ skim_string_of info big s.now at }
{
    let size = wire::parse_u16(s, at, big)?;
    let next = skim_name(s, size.next, info, big)?;
    skim_text(s, next, size.v as usize)
}

// Raw bytes: value size, name, value.
fn skim_raw(s: &[u8], at: usize, info: bool, big: bool) -> Result<usize, Need>
    ensures { skim_ans result ≡ skim_raw_of info big s.now at }
{
    let size = wire::parse_u16(s, at, big)?;
    let next = skim_name(s, size.next, info, big)?;
    skim_run(s, next, size.v as usize)
}

// The bytes of a value by the number of its length; 0 where the number is none.
fn bytes_of(length: u32) -> usize
    ensures { result ≡ bytes_of length }
{
    match length {
        1 => 1,
        2 => 2,
        3 => 4,
        4 => 8,
        5 => 16,
        _ => 0,
    }
}

// An integer of `n` bytes.
fn skim_whole(s: &[u8], at: usize, info: bool, n: usize, big: bool) -> Result<usize, Stop>
    ensures { passed_ans result ≡ skim_whole_of info n big s.now at }
{
    match n {
        0 => Err(Stop::Hickup(Reason::TypeInfo)),
        _ => Ok(skim_plain(s, at, info, n, big)?),
    }
}

// A float of `n` bytes.
fn skim_float(s: &[u8], at: usize, info: bool, n: usize, big: bool) -> Result<usize, Stop>
    ensures { passed_ans result ≡ skim_float_of info n big s.now at }
{
    match n {
        4 | 8 => Ok(skim_plain(s, at, info, n, big)?),
        _ => Err(Stop::Hickup(Reason::TypeInfo)),
    }
}

// A fixed-point number of `n` bytes.
fn skim_fixed(s: &[u8], at: usize, info: bool, n: usize, big: bool) -> Result<usize, Stop>
    ensures { passed_ans result ≡ skim_fixed_of info n big s.now at }
{
    match n {
        4 | 8 => Ok(skim_scaled(s, at, info, n, big)?),
        _ => Err(Stop::Hickup(Reason::TypeInfo)),
    }
}

// A signed or an unsigned number of `n` bytes: fixed-point, or an integer.
fn skim_number(
    s: &[u8],
    at: usize,
    info: bool,
    fixed: bool,
    n: usize,
    big: bool,
) -> Result<usize, Stop>
    ensures { passed_ans result ≡ skim_number_of info fixed n big s.now at }
{
    if fixed {
        skim_fixed(s, at, info, n, big)
    } else {
        skim_whole(s, at, info, n, big)
    }
}

// What follows a type info word: bits 4 to 10 choose the kind, bit 11 is variable info, bit 12 fixed point, bits 0 to 3 are the length.
fn skim_word(s: &[u8], at: usize, word: u32, big: bool) -> Result<usize, Stop>
    ensures { passed_ans result ≡ skim_word_of big word s.now at }
{
    let info = word / 2048 % 2 == 1;
    match word / 16 % 128 {
        1 => Ok(skim_bool(s, at, info, big)?),
        2 | 4 => skim_number(s, at, info, word / 4096 % 2 == 1, bytes_of(word % 16), big),
        8 => skim_float(s, at, info, bytes_of(word % 16), big),
        32 => Ok(skim_string(s, at, info, big)?),
        64 => Ok(skim_raw(s, at, info, big)?),
        _ => Err(Stop::Hickup(Reason::TypeInfo)),
    }
}

// One argument.
pub fn skim_argument(s: &[u8], at: usize, big: bool) -> Result<usize, Stop>
    ensures { passed_ans result ≡ passed (argument big s.now at) }
{
    let word = wire::parse_u32(s, at, big)?;
    skim_word(s, word.next, word.v, big)
}
