// The listing of stored inputs, one after another, each by way of a table of numbers and by way of a table of structs: the two are the same text.
//
// first30.dlt            document 01's first 30 bytes
// empty.dlt              no bytes
// full.dlt               a trace of one message more than the table holds
// ascii-mode.dlt         a recording sent as text, each 0A turned into 0D 0A: bytes skipped, a hickup, and it waits in the middle
// junk-between.dlt       the recording with 1 to 59 random bytes after every third message: they are skipped
// len-below-headers.dlt  the recording with a message whose declared length is below its headers': a hickup, and the next is found again
// strlen-big.dlt         the recording with a string whose size runs past its message: an overrun, and the next stands at the declared end
// over.dlt               one byte over the limit
// missing.dlt            a file that isn't there
//
// The recording: the first 60 messages that `dlt-receive -o` wrote while a program logged arguments of every kind.
#![tactic(auto)]

use std::io::Write;
use std::{fs, io};

// The line above a listing.
fn title<W: Write>(out: &mut W, path: &str, table: &str) -> io::Result<()> {
    out.write_all(path.as_bytes())?;
    out.write_all(table.as_bytes())
}

fn by_numbers(rt: &HostRuntime, path: &str) -> io::Result<()> {
    title(&mut rt.stdout(), path, " by a table of numbers\n")?;
    match fs::open(rt, path) {
        Ok(mut file) => listed::list(&mut file, &mut rt.stdout(), &mut rt.stderr()),
        Err(_) => listed::unreadable(&mut rt.stderr()),
    }
}

fn by_structs(rt: &HostRuntime, path: &str) -> io::Result<()> {
    title(&mut rt.stdout(), path, " by a table of structs\n")?;
    match fs::open(rt, path) {
        Ok(mut file) => listed::list_structs(&mut file, &mut rt.stdout(), &mut rt.stderr()),
        Err(_) => listed::unreadable(&mut rt.stderr()),
    }
}

fn both(rt: &HostRuntime, path: &str) -> io::Result<()> {
    by_numbers(rt, path)?;
    by_structs(rt, path)
}

fn main(rt: HostRuntime) -> io::Result<()> {
    both(&rt, "first30.dlt")?;
    both(&rt, "empty.dlt")?;
    both(&rt, "full.dlt")?;
    both(&rt, "ascii-mode.dlt")?;
    both(&rt, "junk-between.dlt")?;
    both(&rt, "len-below-headers.dlt")?;
    both(&rt, "strlen-big.dlt")?;
    both(&rt, "over.dlt")?;
    both(&rt, "missing.dlt")
}
