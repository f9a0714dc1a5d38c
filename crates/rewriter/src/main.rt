// The rewriting program: writes the filter on standard input without its retired fields to standard output, and what it removed to standard error.
#![tactic(auto)]

use std::io;

fn main(rt: HostRuntime) -> io::Result<()> {
    rewritten::rewrite(&mut rt.stdin(), &mut rt.stdout(), &mut rt.stderr())
}
