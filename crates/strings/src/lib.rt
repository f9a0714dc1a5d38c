// Strings of a size, as ranges of the caller's bytes, and why each ended, which the source does not say: port of `dlt_zero_terminated_string`,
// `dlt_zero_terminated_string_intern` and `parse_ecu_id` in parse.rs of dlt-core 0.20.2 (Apache-2.0, NOTICE). `str::from_utf8` and its `valid_up_to` are written out by the
// Unicode standard's table. Only the size's bytes are looked at.
#![tactic(auto)]

ghost use Rattle.std.specs.Prelude.{◌≡◌, [], ◌∷◌, ◌+◌, ◌-◌, ◌≤◌, ◌<◌, length, get_or};
ghost use Rattle.wire.specs.Answer.Ans.{done};
ghost use Rattle.wire.specs.Run.{range};
ghost use Rattle.strings.specs.Utf8.{span, tail, inside, formed, sequence, least, valid_up_to_of};
ghost use Rattle.strings.specs.Text.{before0, letter, Letters, text_need, text_of, ended_of, text, identified, id_length_of};
ghost use Rattle.wire.specs.Answers.{need_ans};

use wire::{Ended, Got, Need, Range, Text};

// Whether the byte at `at` is from `low` to `high`.
fn stands(s: &[u8], at: usize, low: u8, high: u8) -> bool
    requires { at < length s.now }
    ensures { result ≡ inside (span low high) (get_or s.now at 0) }
{
    low <= s[at] && s[at] <= high
}

// A lead byte with one byte behind it.
fn two_bytes(s: &[u8], at: usize, n: usize) -> usize
    requires { n ≤ length s.now - at }
    ensures { result ≡ formed (tail ∷ []) n s.now at }
{
    if n < 2 {
        return 0;
    }
    if stands(s, at + 1, 0x80, 0xBF) { 2 } else { 0 }
}

// A lead byte with two bytes behind it, the first of them from `low` to `high`.
fn three_bytes(s: &[u8], at: usize, n: usize, low: u8, high: u8) -> usize
    requires { n ≤ length s.now - at }
    ensures { result ≡ formed (span low high ∷ tail ∷ []) n s.now at }
{
    if n < 3 {
        return 0;
    }
    let second = stands(s, at + 1, low, high);
    let third = stands(s, at + 2, 0x80, 0xBF);
    if second {
        if third {
            return 3;
        }
    }
    0
}

// A lead byte with three bytes behind it, the first of them from `low` to `high`.
fn four_bytes(s: &[u8], at: usize, n: usize, low: u8, high: u8) -> usize
    requires { n ≤ length s.now - at }
    ensures { result ≡ formed (span low high ∷ tail ∷ tail ∷ []) n s.now at }
{
    if n < 4 {
        return 0;
    }
    let second = stands(s, at + 1, low, high);
    let third = stands(s, at + 2, 0x80, 0xBF);
    let fourth = stands(s, at + 3, 0x80, 0xBF);
    if second {
        if third {
            if fourth {
                return 4;
            }
        }
    }
    0
}

// The same as `sequence_at`, of a lead byte from 80 to EF: by the row that it is in, of those of two and three bytes.
fn two_or_three_at(s: &[u8], at: usize, n: usize) -> usize
    requires { (0 < n) × (n ≤ length s.now - at) × (0x7F < get_or s.now at 0) × (get_or s.now at 0 ≤ 0xEF) }
    ensures { result ≡ sequence n s.now at }
{
    let lead = s[at];
    if lead <= 0xC1 {
        return 0;
    }
    if lead <= 0xDF {
        return two_bytes(s, at, n);
    }
    if lead <= 0xE0 {
        return three_bytes(s, at, n, 0xA0, 0xBF);
    }
    if lead <= 0xEC {
        return three_bytes(s, at, n, 0x80, 0xBF);
    }
    if lead <= 0xED {
        return three_bytes(s, at, n, 0x80, 0x9F);
    }
    three_bytes(s, at, n, 0x80, 0xBF)
}

// The same of one above EF: by the row that it is in, of those of four bytes.
fn four_at(s: &[u8], at: usize, n: usize) -> usize
    requires { (0 < n) × (n ≤ length s.now - at) × (0xEF < get_or s.now at 0) }
    ensures { result ≡ sequence n s.now at }
{
    let lead = s[at];
    if lead <= 0xF0 {
        return four_bytes(s, at, n, 0x90, 0xBF);
    }
    if lead <= 0xF3 {
        return four_bytes(s, at, n, 0x80, 0xBF);
    }
    if lead <= 0xF4 {
        return four_bytes(s, at, n, 0x80, 0x8F);
    }
    0
}

// The same of any above 7F.
fn longer_at(s: &[u8], at: usize, n: usize) -> usize
    requires { (0 < n) × (n ≤ length s.now - at) × (0x7F < get_or s.now at 0) }
    ensures { result ≡ sequence n s.now at }
{
    if s[at] <= 0xEF {
        return two_or_three_at(s, at, n);
    }
    four_at(s, at, n)
}

// The length of the well-formed sequence at `at` within `n` bytes, 0 where there is none.
fn sequence_at(s: &[u8], at: usize, n: usize) -> usize
    requires { (0 < n) × (n ≤ length s.now - at) }
    ensures { result ≡ sequence n s.now at }
{
    if s[at] <= 0x7F {
        return 1;
    }
    longer_at(s, at, n)
}

// The lesser of two numbers.
pub fn fewer(a: usize, b: usize) -> usize
    ensures { result ≡ least a b }
{
    if a <= b { a } else { b }
}

// The length of the longest valid UTF-8 prefix of the `n` bytes at `at`, or of as many as there are.
pub fn valid_up_to(s: &[u8], at: usize, n: usize) -> usize
    ensures { result ≡ valid_up_to_of (least n (length s.now - at)) s.now at }
{
    let rest = wire::left(s, at);
    let end = fewer(n, rest);
    let mut k: usize = 0;
    while k < end {
        let w = sequence_at(s, at + k, end - k);
        if w == 0 {
            return k;
        }
        k += w;
    }
    k
}

// How many of the `n` bytes at `at` stand before the first zero byte.
fn before_zero(s: &[u8], at: usize, n: usize) -> usize
    requires { n ≤ length s.now - at }
    ensures { result ≡ before0 n s.now at }
{
    for k in 0..n {
        if s[at + k] == 0 {
            return k;
        }
    }
    n
}

// How many of the `n` bytes at `at` are letters, bytes from 1 to 7F, up to the first that is none.
fn letters(s: &[u8], at: usize, n: usize) -> usize
    requires { n ≤ length s.now - at }
    ensures { Letters s.now at n result }
{
    for k in 0..n {
        if s[at + k] == 0 {
            return k;
        }
        if 0x7F < s[at + k] {
            return k;
        }
    }
    n
}

// The length of a string's value, where its `n` bytes are there.
fn content(s: &[u8], at: usize, n: usize) -> usize
    requires { n ≤ length s.now - at }
    ensures { result ≡ (text_of n s.now at).len }
{
    let plain = letters(s, at, n);
    if plain == n {
        return n;
    }
    if s[at + plain] == 0 {
        return plain;
    }
    let before = before_zero(s, at, n);
    valid_up_to(s, at, before)
}

// Why a string of `n` bytes ended whose value has `len` of them: at its size, if the value fills it; else the byte behind the value tells.
fn why_ended(s: &[u8], at: usize, n: usize, len: usize) -> Ended
    requires { (n ≤ length s.now - at) × (len ≡ (text_of n s.now at).len) × (len ≤ n) }
    ensures { result ≡ ended_of n s.now at }
{
    if len == n {
        return Ended::Size;
    }
    if s[at + len] == 0 {
        Ended::Zero
    } else {
        Ended::Invalid
    }
}

// A string of a size at the front of the bytes.
pub fn dlt_zero_terminated_string(s: &[u8], size: usize) -> Result<Got<Text>, Need>
    ensures { need_ans result ≡ text size s.now 0 }
{
    dlt_zero_terminated_string_intern(s, 0, size)
}

// A string of a size at a position: the longest valid UTF-8 prefix of what stands before its first zero byte, and why it ended.
pub fn dlt_zero_terminated_string_intern(
    s: &[u8],
    at: usize,
    size: usize,
) -> Result<Got<Text>, Need>
    ensures { need_ans result ≡ text size s.now at }
{
    let rest = wire::left(s, at);
    if rest < size {
        if before_zero(s, at, rest) < rest {
            return Err(Need(size - rest));
        }
        return Err(Need(1));
    }
    let len = content(s, at, size);
    let ended = why_ended(s, at, size, len);
    Ok(Got {
        v: Text {
            place: Range { start: at, len },
            ended,
        },
        next: at + size,
    })
}

// ---- an identifier, byte by byte: its four bytes stand at `at`, each step looks at one of them, and the answer is how many bytes the value
// has. A letter is passed. A zero byte ends it. A longer sequence of UTF-8 is passed whole, if all of it is within the four bytes. Anything
// else ends it.

// Whether a letter stands at `at`: a byte from 01 to 7F.
fn letter_at(s: &[u8], at: usize) -> bool
    requires { at < length s.now }
    ensures { result ≡ letter (get_or s.now at 0) }
{
    stands(s, at, 0x01, 0x7F)
}

// From the fourth byte on: a letter is the last of four.
fn from_fourth(s: &[u8], at: usize) -> usize
    requires { 4 ≤ length s.now - at }
    ensures { result ≡ 3 + (text_of 1 s.now (at + 3)).len }
{
    if letter_at(s, at + 3) { 4 } else { 3 }
}

// From the third on: behind a letter the fourth is next; a sequence of two is the rest.
fn from_third(s: &[u8], at: usize) -> usize
    requires { 4 ≤ length s.now - at }
    ensures { result ≡ 2 + (text_of 2 s.now (at + 2)).len }
{
    if letter_at(s, at + 2) {
        return from_fourth(s, at);
    }
    if s[at + 2] == 0 {
        return 2;
    }
    2 + longer_at(s, at + 2, 2)
}

// From the second on: behind a letter the third is next, behind a sequence of two the fourth; one of three is the rest.
fn from_second(s: &[u8], at: usize) -> usize
    requires { 4 ≤ length s.now - at }
    ensures { result ≡ 1 + (text_of 3 s.now (at + 1)).len }
{
    if letter_at(s, at + 1) {
        return from_third(s, at);
    }
    if s[at + 1] == 0 {
        return 1;
    }
    match longer_at(s, at + 1, 3) {
        2 => from_fourth(s, at),
        rest => 1 + rest,
    }
}

// From the first on: behind a letter the second is next, behind a sequence of two the third, behind one of three the fourth; one of four is
// all there is.
fn from_first(s: &[u8], at: usize) -> usize
    requires { 4 ≤ length s.now - at }
    ensures { result ≡ (text_of 4 s.now at).len }
{
    if letter_at(s, at) {
        return from_second(s, at);
    }
    if s[at] == 0 {
        return 0;
    }
    if 0xEF < s[at] {
        return four_at(s, at, 4);
    }
    match two_or_three_at(s, at, 4) {
        2 => from_third(s, at),
        3 => from_fourth(s, at),
        none => none,
    }
}

// How many bytes an identifier's value has, none where its four bytes aren't there: all that is asked of an id that is compared.
pub fn id_length(s: &[u8], at: usize) -> usize
    ensures { result ≡ id_length_of s.now at }
{
    let rest = wire::left(s, at);
    if 4 <= rest { from_first(s, at) } else { 0 }
}

// An identifier that was read: where its value stands, why it ended, and all four bytes are used.
fn read_identifier(at: usize, len: usize, ended: Ended) -> Result<Got<Text>, Need>
    requires { at + 4 < 18446744073709551616 }
    ensures { need_ans result ≡ done (record { place = range at len; ended = ended }) (at + 4) }
{
    Ok(Got {
        v: Text {
            place: Range { start: at, len },
            ended,
        },
        next: at + 4,
    })
}

// What an identifier needs where fewer than four bytes are left: those that are missing if a zero byte is among them, else one.
fn id_need(s: &[u8], at: usize, rest: usize) -> usize
    requires { (rest ≡ length s.now - at) × (rest < 4) }
    ensures { result ≡ text_need 4 s.now at }
{
    match rest {
        1 => if s[at] == 0 { 3 } else { 1 },
        2 => if s[at] == 0 {
            2
        } else if s[at + 1] == 0 {
            2
        } else {
            1
        },
        _ => 1,
    }
}

// An identifier: a string of size 4. Most values have all four bytes, and are answered by themselves (docs/DECISIONS.md).
pub fn identifier(s: &[u8], at: usize) -> Result<Got<Text>, Need>
    ensures { need_ans result ≡ identified s.now at }
{
    let rest = wire::left(s, at);
    if rest < 4 {
        return Err(Need(id_need(s, at, rest)));
    }
    let len = id_length(s, at);
    if len == 4 {
        return read_identifier(at, 4, Ended::Size);
    }
    let ended = why_ended(s, at, 4, len);
    read_identifier(at, len, ended)
}
