// A filter without its retired fields: what the program `rewriter` makes of its standard input, here of any reader. The bytes that are kept
// go to one writer, the lines that say what was removed to another. A write that fails ends the call with its error.
//
// The buffer stands on the stack and holds 1,024 bytes. A good filter has at most 803, so bytes that fill the buffer are bad, whatever follows them.
#![tactic(auto)]

ghost use Rattle.std.specs.Prelude.{◌≡◌, ◌≤◌, length, take, OnOk};
ghost use Rattle.std.specs.Fmt.{signed_decimal};
ghost use Rattle.std.specs.Io.KnownBytes.{Appends};
ghost use Rattle.rewritten.specs.Gathered.{Gathered};
ghost use Rattle.rewritten.specs.Written.{line_of, context_line_of, removed_lines, Written, written, unreadable_line, Grow, IsOf};

use filter::Counts;
use std::io;
use std::io::{Read, Write};

// Room for the input.
fn room() -> [u8; 1024]
    ensures { 1024 ≡ length result }
{
    [0; 1024]
}

// Reads until the input ends, the buffer is full or a read fails: how many bytes were read. A read that fails is not the end of the input.
fn gather<R: Read>(input: &mut R, buf: &mut [u8]) -> io::Result<usize>
    ensures { Gathered (R.remaining input.old) buf.new result }
{
    let mut done = 0;
    while done < buf.len() {
        match input.read(&mut buf[done..]) {
            Ok(0) => return Ok(done),
            Ok(n) => done += n,
            Err(error) => return Err(error),
        }
    }
    Ok(done)
}

// A signed number in decimal.
fn print_signed<W: Write>(out: &mut W, n: i64) -> io::Result<()>
    ensures { OnOk result (Appends (W.contents out.old) (W.contents out.new) (signed_decimal n)) }
{
    if n < 0 {
        out.write_all(b"-")?;
    }
    let size = retired::magnitude(n);
    write!(out, "{size}")
}

// The line of a count whose field stood at `at`.
fn line<W: Write>(lines: &mut W, at: u64, name: &[u8], n: i64) -> io::Result<()>
    ensures { OnOk result (Appends (W.contents lines.old) (W.contents lines.new) (line_of at name.now n)) }
{
    write!(lines, "removed {at} 11 ")?;
    lines.write_all(name)?;
    lines.write_all(b" count ")?;
    print_signed(lines, n)?;
    lines.write_all(b"\n")
}

// The context count, if it was there.
fn context_line<W: Write>(lines: &mut W, at: u64, contexts: Option<i64>) -> io::Result<()>
    ensures { OnOk result (Appends (W.contents lines.old) (W.contents lines.new) (context_line_of at contexts)) }
{
    match contexts {
        Some(n) => line(lines, at, b"context", n),
        None => Ok(()),
    }
}

// The counts that were there, in order; the first stood behind the `kept` bytes.
fn removed<W: Write>(lines: &mut W, kept: usize, counts: Counts) -> io::Result<()>
    requires { kept ≤ 781 }
    ensures { OnOk result (Appends (W.contents lines.old) (W.contents lines.new) (removed_lines kept counts)) }
{
    let at = kept as u64;
    let apps = counts.apps;
    let contexts = counts.contexts;
    match apps {
        Some(n) => {
            line(lines, at, b"app", n)?;
            context_line(lines, at + 11, contexts)
        }
        None => context_line(lines, at, contexts),
    }
}

// Writes what is left of a filter, and what was removed.
fn show<W: Write, L: Write>(f: &[u8], bytes: &mut W, lines: &mut L) -> io::Result<()>
    ensures { OnOk result (Grow (W.contents bytes.old) (W.contents bytes.new) (L.contents lines.old) (L.contents lines.new) (written f.now)) }
{
    match retired::without_counts(f) {
        Ok(cut) => {
            let kept = cut.kept;
            let counts = cut.counts;
            bytes.write_all(&f[..kept])?;
            removed(lines, kept, counts)
        }
        Err(_) => lines.write_all(b"refused: bad filter\n"),
    }
}

// The same of the first `n` bytes.
fn show_first<W: Write, L: Write>(
    s: &[u8],
    n: usize,
    bytes: &mut W,
    lines: &mut L,
) -> io::Result<()>
    ensures { n ≤ length s.now → OnOk result (Grow (W.contents bytes.old) (W.contents bytes.new) (L.contents lines.old) (L.contents lines.new) (written (take n s.now))) }
{
    if n <= s.len() {
        show(&s[..n], bytes, lines)
    } else {
        Ok(())
    }
}

// Writes the line of an input that cannot be read.
pub fn unreadable<L: Write>(lines: &mut L) -> io::Result<()>
    ensures { OnOk result (Appends (L.contents lines.old) (L.contents lines.new) unreadable_line) }
{
    lines.write_all(b"rewriter: the input cannot be read\n")
}

// Reads what `input` has, and writes the filter that is left to `bytes` and a line for each field that was removed to `lines`. Bad bytes, and a read
// that fails, write one line to `lines` only.
pub fn rewrite<R: Read, W: Write, L: Write>(
    input: &mut R,
    bytes: &mut W,
    lines: &mut L,
) -> io::Result<()>
    ensures { OnOk result ((w : Written) × IsOf (R.remaining input.old) w
        × Grow (W.contents bytes.old) (W.contents bytes.new) (L.contents lines.old) (L.contents lines.new) w) }
{
    let mut buf = room();
    match gather(input, &mut buf) {
        Ok(n) => show_first(&buf, n, bytes, lines),
        Err(_) => unreadable(lines),
    }
}
