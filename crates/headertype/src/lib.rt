// The part of src/dlt.rs of dlt-core 0.20.2 on the storage and the standard header: their types, the header type byte, the lengths of the headers.
// Copyright 2021 by Accenture ESR. Ported under the Apache License 2.0: see NOTICE.
//
// An identifier is a range of the caller's bytes, and why it ended. A bit is read by `/` and `%`.
#![tactic(auto)]

ghost use Rattle.std.specs.Prelude.{◌≡◌, ◌≤◌};
ghost use Rattle.headertype.specs.Bits.{one_if_of};
ghost use Rattle.headertype.specs.HeaderType.{big_bit_of, text_bit_of, num_bit_of, standard_length, all_headers, header_type_byte_of, overall_length_of};

use wire::{Range, Text};

#[derive(Clone, Copy)]
pub enum Endianness {
    Little,
    Big,
}

#[derive(Clone, Copy)]
pub struct StorageHeader {
    pub timestamp: DltTimeStamp,
    pub ecu_id: Text,
}

#[derive(Clone, Copy)]
pub struct StandardHeader {
    pub version: u8,
    pub endianness: Endianness,
    pub has_extended_header: bool,
    pub message_counter: u8,
    pub ecu_id: Option<Text>,
    pub session_id: Option<u32>,
    pub timestamp: Option<u32>,
    pub payload_length: u16,
}

#[derive(Clone, Copy)]
pub struct DltTimeStamp {
    pub seconds: u32,
    pub microseconds: u32,
}

fn one_if(b: bool) -> u8
    ensures { (result ≡ one_if_of b) × (result ≤ 1) }
{
    if b { 1 } else { 0 }
}

fn big_bit(e: Endianness) -> u8
    ensures { (result ≡ big_bit_of e) × (result ≤ 1) }
{
    match e {
        Endianness::Little => 0,
        Endianness::Big => 1,
    }
}

fn text_bit(o: Option<Text>) -> u8
    ensures { (result ≡ text_bit_of o) × (result ≤ 1) }
{
    match o {
        Some(_) => 1,
        None => 0,
    }
}

fn num_bit(o: Option<u32>) -> u8
    ensures { (result ≡ num_bit_of o) × (result ≤ 1) }
{
    match o {
        Some(_) => 1,
        None => 0,
    }
}

impl StandardHeader {
    // The type byte that announces this header.
    pub fn header_type_byte(self) -> u8
        ensures { result ≡ header_type_byte_of self }
    {
        let endianness = self.endianness;
        let ecu_id = self.ecu_id;
        let session_id = self.session_id;
        let timestamp = self.timestamp;
        let extended = one_if(self.has_extended_header);
        let big = big_bit(endianness);
        let ecu = text_bit(ecu_id);
        let session = num_bit(session_id);
        let time = num_bit(timestamp);
        extended * WITH_EXTENDED_HEADER_FLAG
            + big * BIG_ENDIAN_FLAG
            + ecu * WITH_ECU_ID_FLAG
            + session * WITH_SESSION_ID_FLAG
            + time * WITH_TIMESTAMP_FLAG
            + self.version % 8 * 32
    }

    // The length of the message without its storage header. The source's u16 may overflow on a header that no bytes give; this has the sum.
    pub fn overall_length(self) -> u32
        ensures { result ≡ overall_length_of self }
    {
        let payload_length = self.payload_length;
        let typ = self.header_type_byte();
        calculate_all_headers_length(typ) as u32 + payload_length as u32
    }
}

pub const STORAGE_HEADER_LENGTH: usize = 16;

// The weights of the header type byte's flags.
pub const WITH_EXTENDED_HEADER_FLAG: u8 = 1;

pub const BIG_ENDIAN_FLAG: u8 = 2;

pub const WITH_ECU_ID_FLAG: u8 = 4;

pub const WITH_SESSION_ID_FLAG: u8 = 8;

pub const WITH_TIMESTAMP_FLAG: u8 = 16;

const HEADER_MIN_LENGTH: u16 = 4;

const EXTENDED_HEADER_LENGTH: u16 = 10;

// The length of the standard header that a type byte announces.
fn calculate_standard_header_length(typ: u8) -> u16
    ensures { (result ≡ standard_length typ) × (result ≤ 16) }
{
    let ecu = (typ / WITH_ECU_ID_FLAG % 2) as u16;
    let session = (typ / WITH_SESSION_ID_FLAG % 2) as u16;
    let time = (typ / WITH_TIMESTAMP_FLAG % 2) as u16;
    HEADER_MIN_LENGTH + ecu * 4 + session * 4 + time * 4
}

// The length of all headers that a type byte announces.
pub fn calculate_all_headers_length(typ: u8) -> u16
    ensures { result ≡ all_headers typ }
{
    let extended = (typ / WITH_EXTENDED_HEADER_FLAG % 2) as u16;
    calculate_standard_header_length(typ) + extended * EXTENDED_HEADER_LENGTH
}
