// The names of an argument with variable info: port of `dlt_variable_name` and `dlt_variable_name_and_unit` in parse.rs of dlt-core 0.20.2
// (Apache-2.0, NOTICE). A name of size 0 is present and empty.
#![tactic(auto)]

ghost use Rattle.std.specs.Prelude.{◌≡◌};
ghost use Rattle.names.specs.Names.{name, maybe_name, texts, name_and_unit_of, maybe_names};
ghost use Rattle.wire.specs.Answers.{need_ans};

use wire::{Got, Need, Text};

#[derive(Clone, Copy)]
pub struct Names {
    pub name: Option<Text>,
    pub unit: Option<Text>,
}

// A name with its size.
pub fn dlt_variable_name(s: &[u8], at: usize, big: bool) -> Result<Got<Text>, Need>
    ensures { need_ans result ≡ name big s.now at }
{
    let size = wire::parse_u16(s, at, big)?;
    strings::dlt_zero_terminated_string_intern(s, size.next, size.v as usize)
}

// A name with its size, if there is variable info.
pub fn maybe_variable_name(
    s: &[u8],
    at: usize,
    has_variable_info: bool,
    big: bool,
) -> Result<Got<Option<Text>>, Need>
    ensures { need_ans result ≡ maybe_name has_variable_info big s.now at }
{
    if has_variable_info {
        let name = dlt_variable_name(s, at, big)?;
        let text = name.v;
        Ok(Got {
            v: Some(text),
            next: name.next,
        })
    } else {
        Ok(Got { v: None, next: at })
    }
}

// A name and a unit of these sizes.
fn two_texts(s: &[u8], at: usize, name_size: u16, unit_size: u16) -> Result<Got<Names>, Need>
    ensures { need_ans result ≡ texts name_size unit_size s.now at }
{
    let name = strings::dlt_zero_terminated_string_intern(s, at, name_size as usize)?;
    let unit = strings::dlt_zero_terminated_string_intern(s, name.next, unit_size as usize)?;
    let named = name.v;
    let measured = unit.v;
    Ok(Got {
        v: Names {
            name: Some(named),
            unit: Some(measured),
        },
        next: unit.next,
    })
}

// Name size, unit size, name, unit.
fn name_and_unit(s: &[u8], at: usize, big: bool) -> Result<Got<Names>, Need>
    ensures { need_ans result ≡ name_and_unit_of big s.now at }
{
    let name_size = wire::parse_u16(s, at, big)?;
    let unit_size = wire::parse_u16(s, name_size.next, big)?;
    two_texts(s, unit_size.next, name_size.v, unit_size.v)
}

// Name size, unit size, name, unit, if there is variable info.
pub fn dlt_variable_name_and_unit(
    s: &[u8],
    at: usize,
    has_variable_info: bool,
    big: bool,
) -> Result<Got<Names>, Need>
    ensures { need_ans result ≡ maybe_names has_variable_info big s.now at }
{
    if has_variable_info {
        name_and_unit(s, at, big)
    } else {
        Ok(Got {
            v: Names {
                name: None,
                unit: None,
            },
            next: at,
        })
    }
}
