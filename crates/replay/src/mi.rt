// `mi BYTE`: the message type of a message info byte, MessageType::try_from.
use crate::pattern;
use crate::writer::Out;
use headertype::{Endianness, StandardHeader};
use messageinfo::{ExtendedHeader, MessageType};
use parse::Headers;
use payload::PayloadContent;
use wire::{Ended, Range, Text};

// The answer to the bytes of a request: it has exactly one.
pub fn answer(s: &[u8], out: &mut Out) -> Option<()> {
    let [info] = s else {
        return None;
    };
    let mut numbers = [0u64; 37];
    put(&mut numbers, MessageType::try_from(*info));
    pattern::fill(out, b"0 &", &numbers, 22, s);
    Some(())
}

// The numbers of a message that has nothing but a type.
fn put(numbers: &mut [u64], its_type: MessageType) {
    let nowhere = Range { start: 0, len: 0 };
    let nothing = Text {
        place: nowhere,
        ended: Ended::Size,
    };
    let extended = ExtendedHeader {
        verbose: false,
        argument_count: 0,
        message_type: its_type,
        application_id: nothing,
        context_id: nothing,
    };
    let heads = Headers {
        storage_header: None,
        header: no_header(),
        extended_header: Some(extended),
        filtered: false,
    };
    numbers::put_item(numbers, heads, PayloadContent::NonVerbose(0, nowhere));
}

fn no_header() -> StandardHeader {
    StandardHeader {
        version: 0,
        endianness: Endianness::Little,
        has_extended_header: false,
        message_counter: 0,
        ecu_id: None,
        session_id: None,
        timestamp: None,
        payload_length: 0,
    }
}
