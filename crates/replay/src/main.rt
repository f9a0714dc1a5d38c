// Answers requests, so that this code and the Rust crate can be held side by side on the same input: reads them from standard input, one to
// a line, and writes an answer line to each. A line that is no request is answered `bad request`.
//
// - lines: reads blocks and finds the lines. The only loop over the input.
// - answer: the line of one request, by its kind. zts, fwd, skip, consume, len, mi, ti, msg, conf, args, indexed, retire: the kinds. Behind `why` zts, msg and args say
//   why each text ended too.
// - message, contents: a message, its payload and an argument as answers show them; pattern: how numbers become text.
// - fields, digits: the words of a line, and the numbers and bytes in them.
// - writer: text, numbers and bytes into a buffer that is written out whenever it is full.
//
// All memory is three arrays of `main` and the buffer that `writer::Out` holds there: functions borrow them, and hand on numbers by value.
#![tactic(auto)]

ghost use Rattle.std.specs.Prelude.{◌≡◌, length};

mod answer;
mod args;
mod conf;
mod consume;
mod contents;
mod digits;
mod fields;
mod fwd;
mod indexed;
mod len;
mod lines;
mod message;
mod mi;
mod msg;
mod pattern;
mod retire;
mod skip;
mod ti;
mod writer;
mod zts;

use std::io;
use writer::Out;

// Room for a block of input: the longest line that is kept and three quarters of a megabyte more.
fn block_room() -> [u8; 1048576]
    ensures { 1048576 ≡ length result }
{
    [0; 1048576]
}

// Room for the bytes that a line of 300,000 characters spells, its filter's among them.
fn body_room() -> [u8; 150000]
    ensures { 150000 ≡ length result }
{
    [0; 150000]
}

// Room for the type info words of such a line: a digit and a comma for each.
fn words_room() -> [u32; 150000]
    ensures { 150000 ≡ length result }
{
    [0; 150000]
}

fn main(rt: HostRuntime) -> io::Result<()> {
    let mut input = block_room();
    let mut body = body_room();
    let mut words = words_room();
    let mut out = Out::new(rt.stdout());
    lines::serve(&mut rt.stdin(), &mut input, &mut body, &mut words, &mut out)
}
