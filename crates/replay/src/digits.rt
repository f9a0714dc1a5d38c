// Numbers and bytes of a word: `None` where the word is none of what is asked for.

// STORAGE: whether there is a storage header, 1 or 0.
pub fn storage(word: &[u8]) -> Option<bool> {
    match word {
        b"1" => Some(true),
        b"0" => Some(false),
        _ => None,
    }
}

// The byte order: whether it is big-endian, B, or little-endian, L.
pub fn big_endian(word: &[u8]) -> Option<bool> {
    match word {
        b"B" | b"b" => Some(true),
        b"L" | b"l" => Some(false),
        _ => None,
    }
}

// A decimal number of 1 to 20 digits that fits 64 bits.
pub fn decimal(word: &[u8]) -> Option<u64> {
    if word.is_empty() || 20 < word.len() {
        return None;
    }
    let mut n: u64 = 0;
    for c in word {
        let digit = char::from(*c).to_digit(10)?;
        n = n.checked_mul(10)?.checked_add(u64::from(digit))?;
    }
    Some(n)
}

// The worth of a hex digit.
fn hex_worth(c: u8) -> Option<u8> {
    match c {
        b'0'..=b'9' => Some(c - b'0'),
        b'a'..=b'f' => Some(c - b'a' + 10),
        b'A'..=b'F' => Some(c - b'A' + 10),
        _ => None,
    }
}

// A hex number of 1 to 8 digits.
pub fn hex_word(word: &[u8]) -> Option<u32> {
    if word.is_empty() || 8 < word.len() {
        return None;
    }
    let mut n: u32 = 0;
    for c in word {
        n = n << 4 | u32::from(hex_worth(*c)?);
    }
    Some(n)
}

// The hex numbers that commas join in a word, or none for `-`, at the front of `room`.
pub fn hex_words<'r>(list: &[u8], room: &'r mut [u32]) -> Option<&'r [u32]> {
    if let b"-" = list {
        return Some(&[]);
    }
    let mut n: usize = 0;
    for word in list.split(|c| *c == b',') {
        *room.get_mut(n)? = hex_word(word)?;
        n += 1;
    }
    room.get(..n)
}

// The bytes that a word spells in hex, or none for `-`, at the front of `room`; and the room behind them.
pub fn hex_bytes<'r>(word: &[u8], room: &'r mut [u8]) -> Option<(&'r [u8], &'r mut [u8])> {
    if let b"-" = word {
        return Some((&[], room));
    }
    let (pairs, odd) = word.as_chunks::<2>();
    if pairs.is_empty() || !odd.is_empty() || room.len() < pairs.len() {
        return None;
    }
    let (front, behind) = room.split_at_mut(pairs.len());
    for (place, pair) in front.iter_mut().zip(pairs) {
        let [high, low] = pair;
        *place = hex_worth(*high)? << 4 | hex_worth(*low)?;
    }
    Some((front, behind))
}
