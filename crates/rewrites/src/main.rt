// The rewriting of stored filters, one after another: what is left, then the lines of what was removed, both on standard output.
//
// empty.filter     no bytes: nothing is left, nothing removed
// plain.filter     nothing to remove
// both.filter      both counts, 3 and 7
// apps.filter      an app count alone behind its set: 0
// contexts.filter  a context count alone: the least number
// counts.filter    counts and nothing else: no bytes are left
// order.filter     bad: the context count before the app count
// short.filter     bad: the app count lacks a byte
// most.filter      803 bytes, the most that a good filter has: a level, three sets of 64 ids and both counts
// over.filter      bad: one byte more
// full.filter      bad: as many bytes as the buffer holds
// large.filter     bad: 65,536 bytes
// missing.filter   a file that isn't there
#![tactic(auto)]

use std::io::Write;
use std::{fs, io};

// The name, what is left and what was removed, and a line's end.
fn stored(rt: &HostRuntime, path: &str) -> io::Result<()> {
    let mut out = rt.stdout();
    out.write_all(path.as_bytes())?;
    out.write_all(b"\n")?;
    match fs::open(rt, path) {
        Ok(mut file) => rewritten::rewrite(&mut file, &mut rt.stdout(), &mut out)?,
        Err(_) => rewritten::unreadable(&mut out)?,
    }
    out.write_all(b"\n")
}

fn main(rt: HostRuntime) -> io::Result<()> {
    stored(&rt, "empty.filter")?;
    stored(&rt, "plain.filter")?;
    stored(&rt, "both.filter")?;
    stored(&rt, "apps.filter")?;
    stored(&rt, "contexts.filter")?;
    stored(&rt, "counts.filter")?;
    stored(&rt, "order.filter")?;
    stored(&rt, "short.filter")?;
    stored(&rt, "most.filter")?;
    stored(&rt, "over.filter")?;
    stored(&rt, "full.filter")?;
    stored(&rt, "large.filter")?;
    stored(&rt, "missing.filter")
}
