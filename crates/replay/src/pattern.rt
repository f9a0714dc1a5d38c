// Numbers as answers show them, by a pattern: its signs stand for one or more of the numbers, in their order, and all else for itself.
//
//     #  a number                                        ~  nothing: passes one
//     @  TEXT: start, length                             ?  `.TEXT` or `-`: flag, start, length
//     %  a number or `-`: flag, number                   !  a byte order's letter: flag
//     :  a reason's letter: why a text ended
//     &  a message type: type, subtype                   $  a type info's kind: kind, bits
//     ^  a fixed point or `-`: flag, pattern, bits, offset
//     *  a value: which, first, second
//
// What each number means is said where the numbers are made: crate numbers, specs/Layout.antt and specs/Arguments.antt.
use crate::writer::Out;

// The k-th number from a place on, 0 where there is none.
fn nth(numbers: &[u64], place: usize, k: usize) -> u64 {
    numbers.get(place.wrapping_add(k)).copied().unwrap_or(0)
}

// How many numbers a sign takes.
fn takes(sign: u8) -> usize {
    match sign {
        b'#' | b'~' | b'!' | b':' => 1,
        b'@' | b'%' | b'&' | b'$' => 2,
        b'?' | b'*' => 3,
        b'^' => 4,
        _ => 0,
    }
}

// A text with the numbers from a place on. What is shown of a text or a run of bytes stands in `s`.
pub fn fill(out: &mut Out, text: &[u8], numbers: &[u64], from: usize, s: &[u8]) {
    let mut place = from;
    for sign in text {
        one(out, *sign, numbers, place, s);
        place = place.wrapping_add(takes(*sign));
    }
}

// What stands for a sign.
fn one(out: &mut Out, sign: u8, numbers: &[u64], place: usize, s: &[u8]) {
    let first = nth(numbers, place, 0);
    let second = nth(numbers, place, 1);
    match sign {
        b'#' => out.decimal(first),
        b'~' => {}
        b'@' => out.text(s, first as usize, second as usize),
        b'%' => maybe_number(out, first, second),
        b'!' => out.byte(order(first)),
        b':' => out.byte(reason(first)),
        b'&' => message_type(out, first, second),
        b'$' => kind(out, first, second),
        _ => longer(out, sign, numbers, place, s),
    }
}

// What stands for a sign that takes more than two numbers; any other character stands for itself.
fn longer(out: &mut Out, sign: u8, numbers: &[u64], place: usize, s: &[u8]) {
    let first = nth(numbers, place, 0);
    let second = nth(numbers, place, 1);
    let third = nth(numbers, place, 2);
    match sign {
        b'?' => maybe_text(out, first, s, second as usize, third as usize),
        b'^' => fixed_point(out, first, second, third, nth(numbers, place, 3)),
        b'*' => value(out, first, second, third, s),
        _ => out.byte(sign),
    }
}

fn maybe_number(out: &mut Out, flag: u64, n: u64) {
    if flag == 0 {
        out.byte(b'-');
    } else {
        out.decimal(n);
    }
}

fn maybe_text(out: &mut Out, flag: u64, s: &[u8], start: usize, len: usize) {
    if flag == 0 {
        out.byte(b'-');
    } else {
        out.byte(b'.');
        out.text(s, start, len);
    }
}

// The letter of a byte order.
fn order(big: u64) -> u8 {
    if big == 0 { b'L' } else { b'B' }
}

// The letter of a reason: a zero byte, the size, no UTF-8; `-` where there is no text.
fn reason(ended: u64) -> u8 {
    match ended {
        1 => b'z',
        2 => b's',
        3 => b'u',
        _ => b'-',
    }
}

// `log:4`; a type that has no name is its number: `unk:5:4`.
fn message_type(out: &mut Out, its_type: u64, subtype: u64) {
    match its_type {
        0 => out.labelled(b"log:", subtype),
        1 => out.labelled(b"app:", subtype),
        2 => out.labelled(b"net:", subtype),
        3 => out.labelled(b"ctl:", subtype),
        _ => {
            out.labelled(b"unk:", its_type);
            out.marked(b':', subtype);
        }
    }
}

// `Bool`, `Str`, `Raw`, or the kind of a number.
fn kind(out: &mut Out, its_kind: u64, bits: u64) {
    match its_kind {
        0 => out.literal(b"Bool"),
        6 => out.literal(b"Str"),
        7 => out.literal(b"Raw"),
        _ => number_kind(out, its_kind, bits),
    }
}

// A letter, an X where it is a fixed point number, and how many bits it has: `S8`, `UX32`, `F64`.
fn number_kind(out: &mut Out, its_kind: u64, bits: u64) {
    let letter = match its_kind {
        1 | 2 => b'S',
        3 | 4 => b'U',
        _ => b'F'
    };
    out.byte(letter);
    match its_kind {
        2 | 4 => out.marked(b'X', bits),
        _ => out.decimal(bits),
    }
}

// The quantization's pattern and the offset: `3f800000,i32:-5`.
fn fixed_point(out: &mut Out, flag: u64, quantization: u64, bits: u64, offset: u64) {
    if flag == 0 {
        out.byte(b'-');
    } else {
        out.hex_number(quantization, 8);
        out.byte(b',');
        signed(out, bits, offset);
    }
}

// A number with a sign, by two's complement of 64 bits: `i8:-5`.
fn signed(out: &mut Out, bits: u64, n: u64) {
    out.marked(b'i', bits);
    out.byte(b':');
    out.decimal(n.cast_signed());
}

// A value, by which it is: a text, raw bytes, a float's pattern, 128 bits as two halves, or a number of up to 64 bits.
fn value(out: &mut Out, which: u64, first: u64, second: u64, s: &[u8]) {
    match which {
        13 => text(out, b's', s, first as usize, second as usize),
        14 => text(out, b'r', s, first as usize, second as usize),
        5 => halves(out, b'u', first, second),
        10 => halves(out, b'i', first, second),
        11 => float(out, 32, first, 8),
        12 => float(out, 64, first, 16),
        _ => whole_number(out, which, first),
    }
}

// `s:TEXT`
fn text(out: &mut Out, letter: u8, s: &[u8], start: usize, len: usize) {
    out.byte(letter);
    out.byte(b':');
    out.text(s, start, len);
}

// `u128:` and 16 digits for each half.
fn halves(out: &mut Out, letter: u8, high: u64, low: u64) {
    out.marked(letter, 128u8);
    out.byte(b':');
    out.hex_number(high, 16);
    out.hex_number(low, 16);
}

// `f32:` and the pattern.
fn float(out: &mut Out, bits: u64, n: u64, digits: usize) {
    out.marked(b'f', bits);
    out.byte(b':');
    out.hex_number(n, digits);
}

// A bool, 0; or a number of 8 to 64 bits, 1 to 4 without a sign and 6 to 9 with one: `b:1`, `u8:5`.
fn whole_number(out: &mut Out, which: u64, n: u64) {
    if which == 0 {
        out.labelled(b"b:", n);
    } else if which < 5 {
        out.marked(b'u', width(which));
        out.marked(b':', n);
    } else {
        signed(out, width(which - 5), n);
    }
}

// How many bits the numbers have that count as 1 to 4.
fn width(n: u64) -> u64 {
    match n {
        1 => 8,
        2 => 16,
        3 => 32,
        _ => 64,
    }
}
