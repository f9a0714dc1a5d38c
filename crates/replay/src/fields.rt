// The words of a line, which single spaces part. A word between two spaces is empty: no request has such a word.

// How many words of a line are told apart: one more than a request has.
pub const MOST: usize = 8;

// The words of a line, in `room`. The last that there is room for has the rest of the line.
pub fn words<'a, 'r>(line: &'a [u8], room: &'r mut [&'a [u8]; MOST]) -> &'r [&'a [u8]] {
    let mut parts = line.splitn(MOST, |c| *c == b' ');
    for i in 0..MOST {
        match parts.next() {
            Some(word) => room[i] = word,
            None => return &room[..i],
        }
    }
    &room[..]
}
