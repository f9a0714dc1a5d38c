// The listing of a trace: what the program `listing` prints of its standard input, here of any reader. At most 65,536 bytes, into 1,024
// entries, with no filter. The buffer and the table stand on the stack. The table is one of numbers or one of structs, and the listing is the same.
//
// The listing goes to one writer, the line that says that a read failed to another. A write that fails ends the call with its error.
#![tactic(auto)]

ghost use Rattle.std.specs.Prelude.{◌≡◌, ◌≤◌, ◌++◌, length, take, replicate, decimal, codes, OnOk};
ghost use Rattle.std.specs.Io.KnownBytes.{Appends};
ghost use Rattle.listed.specs.Gathered.{Gathered, Probed};
ghost use Rattle.listed.specs.Listing.{kind_text, line_text, entry_lines, entries_in, ending_text, listing_text, Told, unreadable_line, Tells};

use entries::Entry;
use index::{End, Indexed, State};
use std::io;
use std::io::{Read, Write};

// As many entries as the table holds.
const NO_LIMIT: usize = 18446744073709551615;

// Room for the input.
fn room() -> [u8; 65536]
    ensures { 65536 ≡ length result }
{
    [0; 65536]
}

// The numbers of 1,024 entries.
fn table_room() -> [u64; 4096]
    ensures long { 4096 ≡ length result }
    ensures zeros { result ≡ replicate 4096 0 }
{
    [0; 4096]
}

// Whether the input has a byte more, once the buffer is full: the `n` bytes that were read, or none where there are more.
fn at_end<R: Read>(input: &mut R, n: usize) -> io::Result<Option<usize>>
    ensures { Probed (R.remaining input.old) n result }
{
    let mut one = [0u8; 1];
    match input.read(&mut one) {
        Ok(0) => Ok(Some(n)),
        Ok(_) => Ok(None),
        Err(error) => Err(error),
    }
}

// Reads until the input ends, the buffer is full or a read fails: how many bytes were read, or none where there are more than there is room for.
// A read that fails is not the end of the input.
fn gather<R: Read>(input: &mut R, buf: &mut [u8]) -> io::Result<Option<usize>>
    ensures { Gathered (R.remaining input.old) buf.new result }
{
    let mut done = 0;
    while done < buf.len() {
        match input.read(&mut buf[done..]) {
            Ok(0) => return Ok(Some(done)),
            Ok(n) => done += n,
            Err(error) => return Err(error),
        }
    }
    at_end(input, done)
}

// A number and what stands behind it.
fn number<W: Write>(out: &mut W, n: u64, behind: &[u8]) -> io::Result<()>
    ensures { OnOk result (Appends (W.contents out.old) (W.contents out.new) (decimal n ++ behind.now)) }
{
    write!(out, "{n}")?;
    out.write_all(behind)
}

fn kind<W: Write>(out: &mut W, k: u64) -> io::Result<()>
    ensures { OnOk result (Appends (W.contents out.old) (W.contents out.new) (kind_text k)) }
{
    match k {
        0 => out.write_all(b"item\n"),
        1 => out.write_all(b"filtered\n"),
        2 => out.write_all(b"hickup\n"),
        3 => out.write_all(b"unrecoverable\n"),
        _ => out.write_all(b"overrun\n"),
    }
}

// The line of one entry.
fn line<W: Write>(out: &mut W, start: u64, skipped: u64, length: u64, k: u64) -> io::Result<()>
    ensures { OnOk result (Appends (W.contents out.old) (W.contents out.new) (line_text start skipped length k)) }
{
    number(out, start, b" ")?;
    number(out, skipped, b" ")?;
    number(out, length, b" ")?;
    kind(out, k)
}

// The lines of the first `used` entries of a table of numbers.
fn lines<W: Write>(out: &mut W, table: &[u64], used: usize) -> io::Result<()>
    ensures { OnOk result (Appends (W.contents out.old) (W.contents out.new) (entry_lines (take used (entries_in table.now)))) }
{
    for e in table.chunks_exact(4).take(used) {
        line(out, e[0], e[1], e[2], e[3])?;
    }
    Ok(())
}

// The lines of the first `used` entries of a table of structs.
fn struct_lines<W: Write>(out: &mut W, table: [Entry; 1024], used: usize) -> io::Result<()>
    ensures { OnOk result (Appends (W.contents out.old) (W.contents out.new) (entry_lines (take used table))) }
{
    for e in table.iter().take(used) {
        line(out, e.start, e.skipped, e.length, e.kind)?;
    }
    Ok(())
}

// The last line.
fn ending<W: Write>(out: &mut W, end: End, state: State) -> io::Result<()>
    ensures { OnOk result (Appends (W.contents out.old) (W.contents out.new) (ending_text state end)) }
{
    match end {
        End::Waits(need) => {
            out.write_all(b"waits ")?;
            number(out, state.at as u64, b" ")?;
            number(out, need as u64, b"\n")
        }
        _ => {
            out.write_all(b"full ")?;
            number(out, state.at as u64, b"\n")
        }
    }
}

fn heading<W: Write>(out: &mut W) -> io::Result<()>
    ensures { OnOk result (Appends (W.contents out.old) (W.contents out.new) (codes "start skipped length kind\n")) }
{
    out.write_all(b"start skipped length kind\n")
}

// The listing, by the index call over a table of numbers.
fn show_numbers<W: Write>(out: &mut W, s: &[u8]) -> io::Result<()>
    ensures { OnOk result (Appends (W.contents out.old) (W.contents out.new) (listing_text s.now)) }
{
    let mut table = table_room();
    let fresh = State { at: 0, used: 0 };
    let got = index::index(s, b"", fresh, &mut table, NO_LIMIT);
    let state = got.state;
    let end = got.end;
    heading(out)?;
    lines(out, &table, state.used)?;
    ending(out, end, state)
}

// The listing, by the index call over a table of structs.
fn show_structs<W: Write>(out: &mut W, s: &[u8]) -> io::Result<()>
    ensures { OnOk result (Appends (W.contents out.old) (W.contents out.new) (listing_text s.now)) }
{
    let fresh = State { at: 0, used: 0 };
    let got = filled::fill(s, b"", fresh, NO_LIMIT);
    let answer = got.answer;
    let table = got.table;
    let state = answer.state;
    let end = answer.end;
    heading(out)?;
    struct_lines(out, table, state.used)?;
    ending(out, end, state)
}

fn show<W: Write>(out: &mut W, s: &[u8], structs: bool) -> io::Result<()>
    ensures { OnOk result (Appends (W.contents out.old) (W.contents out.new) (listing_text s.now)) }
{
    if structs {
        show_structs(out, s)
    } else {
        show_numbers(out, s)
    }
}

// The listing of the first `n` bytes.
fn show_first<W: Write>(out: &mut W, s: &[u8], n: usize, structs: bool) -> io::Result<()>
    ensures { n ≤ length s.now → OnOk result (Appends (W.contents out.old) (W.contents out.new) (listing_text (take n s.now))) }
{
    if n <= s.len() {
        show(out, &s[..n], structs)
    } else {
        Ok(())
    }
}

// Reads what `input` has, and writes its listing.
fn read_and_show<R: Read, W: Write, E: Write>(
    input: &mut R,
    out: &mut W,
    errors: &mut E,
    structs: bool,
) -> io::Result<()>
    ensures { OnOk result ((t : Told) × Tells (R.remaining input.old) t
        × Appends (W.contents out.old) (W.contents out.new) t.out
        × Appends (E.contents errors.old) (E.contents errors.new) t.errors) }
{
    let mut buf = room();
    match gather(input, &mut buf) {
        Ok(Some(n)) => show_first(out, &buf, n, structs),
        Ok(None) => out.write_all(b"refused: over 65536\n"),
        Err(_) => unreadable(errors),
    }
}

// Writes the line of an input that cannot be read.
pub fn unreadable<E: Write>(errors: &mut E) -> io::Result<()>
    ensures { OnOk result (Appends (E.contents errors.old) (E.contents errors.new) unreadable_line) }
{
    errors.write_all(b"listing: the input cannot be read\n")
}

// Writes the listing of what `input` has to `out`. Longer input has one line only; a read that fails has one line, which goes to `errors`.
pub fn list<R: Read, W: Write, E: Write>(
    input: &mut R,
    out: &mut W,
    errors: &mut E,
) -> io::Result<()>
    ensures { OnOk result ((t : Told) × Tells (R.remaining input.old) t
        × Appends (W.contents out.old) (W.contents out.new) t.out
        × Appends (E.contents errors.old) (E.contents errors.new) t.errors) }
{
    read_and_show(input, out, errors, false)
}

// The same listing, by way of a table of structs.
pub fn list_structs<R: Read, W: Write, E: Write>(
    input: &mut R,
    out: &mut W,
    errors: &mut E,
) -> io::Result<()>
    ensures { OnOk result ((t : Told) × Tells (R.remaining input.old) t
        × Appends (W.contents out.old) (W.contents out.new) t.out
        × Appends (E.contents errors.old) (E.contents errors.new) t.errors) }
{
    read_and_show(input, out, errors, true)
}
