// The part of src/dlt.rs of dlt-core 0.20.2 that its parser uses: here type info, values and arguments, TypeInfo::try_from and what it calls. The
// headers' types stand in the crates headertype and messageinfo and are handed on, so that a user of this crate has them all.
// Copyright 2021 by Accenture ESR. Ported under the Apache License 2.0: see NOTICE.
//
// A String or a Vec is a range of the caller's bytes; a String says why it ended. A bit is read by `/` and `%`.
#![tactic(auto)]

ghost use Rattle.std.specs.Prelude.{◌≡◌, ◌%◌};
ghost use Rattle.dlt.specs.TypeInfoWord.{type_length_of, float_width_of, wide_length, length_bytes, float_bytes, signed_of, unsigned_of, float_of, kind_of, coding_of_lem, type_info_of_lem};
ghost use Rattle.wire.specs.declared.Reason.{Reason};
ghost use Rattle.wire.specs.declared.Stop.{Stop};

pub use headertype::{
    BIG_ENDIAN_FLAG, DltTimeStamp, Endianness, STORAGE_HEADER_LENGTH, StandardHeader,
    StorageHeader, WITH_ECU_ID_FLAG, WITH_EXTENDED_HEADER_FLAG, WITH_SESSION_ID_FLAG,
    WITH_TIMESTAMP_FLAG, calculate_all_headers_length,
};
pub use messageinfo::{
    ApplicationTraceType, ControlType, ExtendedHeader, LogLevel, MessageType, NetworkTraceType,
    VERBOSE_FLAG, u8_to_log_level,
};
use wire::{Range, Reason, Stop, Text};

// ---- values, and the parts of type info

#[derive(Clone, Copy)]
pub enum FixedPointValue {
    I32(i32),
    I64(i64),
}

// A number of 128 bits is its two halves. A float that is no number has a case of its own, with its pattern.
#[derive(Clone, Copy)]
pub enum Value {
    Bool(u8),
    U8(u8),
    U16(u16),
    U32(u32),
    U64(u64),
    U128 { high: u64, low: u64 },
    I8(i8),
    I16(i16),
    I32(i32),
    I64(i64),
    I128 { high: i64, low: u64 },
    F32(f32),
    F64(f64),
    F32NotANumber(u32),
    F64NotANumber(u64),
    StringVal(Text),
    Raw(Range),
}

#[derive(Clone, Copy)]
pub enum StringCoding {
    ASCII,
    UTF8,
    Reserved(u8),
}

#[derive(Clone, Copy)]
pub enum FloatWidth {
    Width32,
    Width64,
}

pub fn float_width_to_type_length(width: FloatWidth) -> TypeLength
    ensures { result ≡ wide_length width }
{
    match width {
        FloatWidth::Width32 => TypeLength::BitLength32,
        FloatWidth::Width64 => TypeLength::BitLength64,
    }
}

#[derive(Clone, Copy)]
pub enum TypeLength {
    BitLength8,
    BitLength16,
    BitLength32,
    BitLength64,
    BitLength128,
}

impl FloatWidth {
    pub fn width_in_bytes(self) -> usize
        ensures { result ≡ float_bytes self }
    {
        match self {
            FloatWidth::Width32 => 4,
            FloatWidth::Width64 => 8,
        }
    }
}

impl TypeLength {
    pub fn width_in_bytes(self) -> usize
        ensures { result ≡ length_bytes self }
    {
        match self {
            TypeLength::BitLength8 => 1,
            TypeLength::BitLength16 => 2,
            TypeLength::BitLength32 => 4,
            TypeLength::BitLength64 => 8,
            TypeLength::BitLength128 => 16,
        }
    }
}

#[derive(Clone, Copy)]
pub enum TypeInfoKind {
    Bool,
    Signed(TypeLength),
    SignedFixedPoint(FloatWidth),
    Unsigned(TypeLength),
    UnsignedFixedPoint(FloatWidth),
    Float(FloatWidth),
    StringType,
    Raw,
}

#[derive(Clone, Copy)]
pub struct TypeInfo {
    pub kind: TypeInfoKind,
    pub coding: StringCoding,
    pub has_variable_info: bool,
    pub has_trace_info: bool,
}

// A word that stands for no type info: Hickup 2 where one is read.
#[derive(Clone, Copy)]
pub struct NoTypeInfo;

impl From<NoTypeInfo> for Reason {
    ghost from_gives = { λ n r. r ≡ Reason.TypeInfo };

    fn from(_n: NoTypeInfo) -> Reason {
        Reason::TypeInfo
    }
}

impl From<NoTypeInfo> for Stop {
    ghost from_gives = { λ n e. e ≡ Stop.Hickup Reason.TypeInfo };

    fn from(_n: NoTypeInfo) -> Stop {
        Stop::Hickup(Reason::TypeInfo)
    }
}

// ---- the type info word

fn type_len(info: u32) -> Option<TypeLength>
    ensures { result ≡ type_length_of (info % 16) }
{
    match info % 16 {
        1 => Some(TypeLength::BitLength8),
        2 => Some(TypeLength::BitLength16),
        3 => Some(TypeLength::BitLength32),
        4 => Some(TypeLength::BitLength64),
        5 => Some(TypeLength::BitLength128),
        _ => None,
    }
}

fn type_len_float(info: u32) -> Option<FloatWidth>
    ensures { result ≡ float_width_of (info % 16) }
{
    match info % 16 {
        3 => Some(FloatWidth::Width32),
        4 => Some(FloatWidth::Width64),
        _ => None,
    }
}

fn signed_kind(info: u32, fixed: bool) -> Option<TypeInfoKind>
    ensures { result ≡ signed_of (info % 16) fixed }
{
    if fixed {
        return match type_len_float(info) {
            Some(width) => { Some(TypeInfoKind::SignedFixedPoint(width)) }
            None => None
        };
    }
    match type_len(info) {
        Some(length) => Some(TypeInfoKind::Signed(length)),
        None => None,
    }
}

fn unsigned_kind(info: u32, fixed: bool) -> Option<TypeInfoKind>
    ensures { result ≡ unsigned_of (info % 16) fixed }
{
    if fixed {
        return match type_len_float(info) {
            Some(width) => { Some(TypeInfoKind::UnsignedFixedPoint(width)) }
            None => None
        };
    }
    match type_len(info) {
        Some(length) => Some(TypeInfoKind::Unsigned(length)),
        None => None,
    }
}

fn float_kind(info: u32) -> Option<TypeInfoKind>
    ensures { result ≡ float_of (info % 16) }
{
    match type_len_float(info) {
        Some(width) => Some(TypeInfoKind::Float(width)),
        None => None,
    }
}

// Bits 4 to 10 choose the kind.
fn kind_of(info: u32) -> Option<TypeInfoKind>
    ensures { result ≡ kind_of info }
{
    match info / 16 % 128 {
        1 => Some(TypeInfoKind::Bool),
        2 => signed_kind(info, info / TYPE_INFO_FIXED_POINT_FLAG % 2 == 1),
        4 => unsigned_kind(info, info / TYPE_INFO_FIXED_POINT_FLAG % 2 == 1),
        8 => float_kind(info),
        32 => Some(TypeInfoKind::StringType),
        64 => Some(TypeInfoKind::Raw),
        _ => None,
    }
}

// Bits 15 to 17.
fn coding_of(n: u8) -> StringCoding
    ensures { result ≡ coding_of_lem n }
{
    match n {
        0 => StringCoding::ASCII,
        1 => StringCoding::UTF8,
        _ => StringCoding::Reserved(n),
    }
}

impl TypeInfo {
    // The type info that a word stands for, or that it stands for none.
    pub fn try_from(info: u32) -> Result<TypeInfo, NoTypeInfo>
        ensures { result ≡ type_info_of_lem info }
    {
        match kind_of(info) {
            Some(kind) => {
                let coding = coding_of((info / 32768 % 8) as u8);
                Ok(TypeInfo {
                    kind,
                    coding,
                    has_variable_info: info / TYPE_INFO_VARIABLE_INFO % 2 == 1,
                    has_trace_info: info / TYPE_INFO_TRACE_INFO_FLAG % 2 == 1,
                })
            }
            None => Err(NoTypeInfo),
        }
    }
}

// ---- arguments

// The quantization as a float, and its pattern beside it: of a NaN only the pattern says which.
#[derive(Clone, Copy)]
pub struct FixedPoint {
    pub quantization: f32,
    pub pattern: u32,
    pub offset: FixedPointValue,
}

// An argument, and where it stands in the bytes.
#[derive(Clone, Copy)]
pub struct Argument {
    pub type_info: TypeInfo,
    pub name: Option<Text>,
    pub unit: Option<Text>,
    pub fixed_point: Option<FixedPoint>,
    pub value: Value,
    pub start: usize,
    pub end: usize,
}

// The weights of a type info word's flags.
const TYPE_INFO_VARIABLE_INFO: u32 = 2048;

const TYPE_INFO_FIXED_POINT_FLAG: u32 = 4096;

const TYPE_INFO_TRACE_INFO_FLAG: u32 = 8192;
