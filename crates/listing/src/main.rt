// The listing program: prints the index of the trace on standard input.
#![tactic(auto)]

use std::io;

fn main(rt: HostRuntime) -> io::Result<()> {
    listed::list(&mut rt.stdin(), &mut rt.stdout(), &mut rt.stderr())
}
