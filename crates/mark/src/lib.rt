// The search for the storage pattern: port of `forward_to_next_storage_header` in parse.rs of dlt-core 0.20.2 (Apache-2.0, NOTICE), with a
// search of our own in memchr's place. In a trace the pattern mostly stands at the first place, so that one is tried at once. Most junk is short,
// so a few places are then tried one by one. After these come blocks of places: a block where the pattern doesn't stand is skipped as a whole, and
// the plain search tells the place in the first block that isn't. docs/DECISIONS.md has the reasons ("The search for the pattern").
#![tactic(auto)]

ghost use Rattle.std.specs.Prelude.{◌≡◌, Bool, true, false, ◌+◌, ◌*◌, ◌≤◌, length};
ghost use Rattle.wire.specs.Parser.{pick};
ghost use Rattle.mark.specs.First.{pattern, find};
ghost use Rattle.mark.specs.Block.{is_end_of, is_mark};

// The storage pattern.
const PATTERN: [u8; 4] = *b"DLT\x01";

// Whether two bytes are the pattern's last two.
fn is_end(c: u8, d: u8) -> bool
    ensures { result ≡ is_end_of pattern c d }
{
    if c == PATTERN[2] {
        return d == PATTERN[3];
    }
    false
}

// Whether four bytes are the pattern.
fn same_bytes(a: u8, b: u8, c: u8, d: u8) -> bool
    ensures { result ≡ is_mark pattern a b c d }
{
    if a == PATTERN[0] {
        if b == PATTERN[1] {
            if c == PATTERN[2] {
                return d == PATTERN[3];
            }
        }
    }
    false
}

// The number that four bytes make, the first one the lowest.
fn joined(a: u8, b: u8, c: u8, d: u8) -> u32
    ensures { result ≡ (d * 256 + c) * 65536 + (b * 256 + a) }
{
    let low = b as u32 * 256 + a as u32;
    let high = d as u32 * 256 + c as u32;
    high * 65536 + low
}

// Whether four bytes are the pattern, by one comparison of numbers.
fn same_number(a: u8, b: u8, c: u8, d: u8) -> bool
    ensures { result ≡ is_mark pattern a b c d }
{
    let here = joined(a, b, c, d);
    let wanted = joined(PATTERN[0], PATTERN[1], PATTERN[2], PATTERN[3]);
    if here == wanted {
        return true;
    }
    false
}

// Whether there was none so far, and is none here.
fn still_none(none: bool, here: bool) -> bool
    ensures { result ≡ pick here false none }
{
    if here { false } else { none }
}

// Whether the pattern's last two bytes stand at none of `n` places. Every place is looked at, whatever the ones before it told.
fn ends_nowhere(s: &[u8], at: usize, n: usize) -> bool
    requires { at + n + 3 ≤ length s.now }
    ensures { result ≡ true → find pattern s.now at ≡ find pattern s.now (at + n) }
{
    let mut none = true;
    let mut j: usize = 0;
    while j < n {
        let i = at + j;
        let here = is_end(s[i + 2], s[i + 3]);
        none = still_none(none, here);
        j += 1;
    }
    none
}

// Whether the whole pattern stands at none of `n` places. Every place is looked at here too.
fn stands_nowhere(s: &[u8], at: usize, n: usize) -> bool
    requires { at + n + 3 ≤ length s.now }
    ensures { result ≡ true → find pattern s.now at ≡ find pattern s.now (at + n) }
{
    let mut none = true;
    let mut k: usize = 0;
    while k < n {
        let i = at + k;
        let here = same_bytes(s[i], s[i + 1], s[i + 2], s[i + 3]);
        none = still_none(none, here);
        k += 1;
    }
    none
}

// Whether the pattern stands at none of `n` places. In a long block its last two bytes are mostly enough to tell.
fn is_free(s: &[u8], at: usize, n: usize) -> bool
    requires { at + n + 3 ≤ length s.now }
    ensures { result ≡ true → find pattern s.now at ≡ find pattern s.now (at + n) }
{
    if 64 <= n {
        if ends_nowhere(s, at, n) {
            return true;
        }
    }
    stands_nowhere(s, at, n)
}

// Skips free blocks of `n` places, up to `end`. Where it stops earlier, the pattern stands at one of the next `n` places, or fewer are left.
fn skip_blocks(s: &[u8], at: usize, n: usize, end: usize) -> usize
    requires { (1 ≤ n) × (n ≤ 64) }
    ensures { find pattern s.now at ≡ find pattern s.now result }
{
    let mut place = at;
    while n + 3 <= wire::left(s, place) {
        if end <= place {
            break;
        }
        if !is_free(s, place, n) {
            return place;
        }
        place += n;
    }
    place
}

// The first place from `at` on where the four bytes of the pattern stand: over positions, and over the pattern's bytes at each.
fn plain_search(s: &[u8], at: usize) -> Option<usize>
    ensures { result ≡ find pattern s.now at }
{
    let rest = wire::left(s, at);
    if rest < 4 {
        return None;
    }
    let last = s.len() - 4;
    let mut i = at;
    let found = 'places: loop {
        if last < i {
            break 'places None;
        }
        let mut j = 0;
        while s[i + j] == PATTERN[j] {
            j += 1;
            if j == 4 {
                break 'places Some(i);
            }
        }
        i += 1;
    };
    found
}

// The first place after longer junk: four short blocks, then long ones, then short ones again. What is left to the plain search is the short block
// where the pattern stands, or the fewer places at the end.
fn search_far(s: &[u8], at: usize) -> Option<usize>
    requires { at ≤ length s.now }
    ensures { result ≡ find pattern s.now at }
{
    let end = at + 64;
    let few = skip_blocks(s, at, 16, end);
    if few < end {
        return plain_search(s, few);
    }
    let far = skip_blocks(s, few, 64, s.len());
    let near = skip_blocks(s, far, 16, s.len());
    plain_search(s, near)
}

// The first place after junk. Most junk is short, so sixteen places are tried one by one: those that begin and end within 19 bytes.
fn search_near(s: &[u8], at: usize) -> Option<usize>
    ensures { result ≡ find pattern s.now at }
{
    if 19 <= wire::left(s, at) {
        let end = at + 19;
        let part = &s[..end];
        match plain_search(part, at) {
            Some(i) => return Some(i),
            None => return search_far(s, at + 16),
        }
    }
    plain_search(s, at)
}

// The first place after junk, as a number: the length where there is none.
fn next_place(s: &[u8], at: usize) -> usize
    ensures { (result + 1 ≤ length s.now → find pattern s.now at ≡ Some result) × (length s.now ≤ result → find pattern s.now at ≡ None) }
{
    match search_near(s, at) {
        Some(i) => i,
        None => s.len(),
    }
}

// The first place where the storage pattern stands.
pub fn first_storage_header(s: &[u8]) -> Option<usize>
    ensures { result ≡ find pattern s.now 0 }
{
    if s.len() < 4 {
        return None;
    }
    if same_number(s[0], s[1], s[2], s[3]) {
        return Some(0);
    }
    let i = next_place(s, 1);
    if i < s.len() { Some(i) } else { None }
}

// The first place from `at` on where the storage pattern stands.
pub fn forward_to_next_storage_header(s: &[u8], at: usize) -> Option<usize>
    ensures { result ≡ find pattern s.now at }
{
    if wire::left(s, at) < 4 {
        return None;
    }
    if same_number(s[at], s[at + 1], s[at + 2], s[at + 3]) {
        return Some(at);
    }
    let i = next_place(s, at + 1);
    if i < s.len() { Some(i) } else { None }
}
