// The lines of the input. Bytes are read in large blocks, behind what is kept at the front of the input buffer: the beginning of a line
// whose newline has not come yet. No byte is searched twice.
ghost use Rattle.std.specs.Prelude.{◌≤◌, length};
ghost use Rattle.std.specs.Io.{ReadsAtMost};

use crate::answer;
use crate::answer::LONGEST;
use crate::writer::Out;
use std::io;
use std::io::Read;

// Where the reading stands between two blocks: how many bytes are kept at the front of the input buffer, and whether what comes up to the next
// newline is dropped, since it is the end of a line that was too long and has its answer.
#[derive(Clone, Copy)]
struct Feed {
    kept: usize,
    dropping: bool,
}

// One read behind the bytes that are kept. Answers how many bytes stand in the buffer then.
fn read_more<R: Read>(from: &mut R, input: &mut [u8], kept: usize) -> io::Result<usize>
    ensures { ReadsAtMost result input.new }
{
    if input.len() <= kept {
        return Ok(0);
    }
    let n = from.read(&mut input[kept..])?;
    Ok(kept + n)
}

// Answers each line of a block that ends in a newline, and writes the answers out. The first `seen` bytes have no newline. What stands from
// `kept` on is the beginning of the next line.
fn answer_lines(
    block: &[u8],
    seen: usize,
    skip: bool,
    body: &mut [u8],
    words: &mut [u32],
    out: &mut Out,
) -> Feed {
    let mut start = 0;
    let mut dropping = skip;
    for end in seen..block.len() {
        if block[end] == b'\n' {
            answer::line(&block[start..end], dropping, body, words, out);
            dropping = false;
            start = end + 1;
        }
    }
    out.flush();
    Feed {
        kept: start,
        dropping,
    }
}

// Moves the bytes from `start` up to `end` to the front. Answers how many they are.
fn keep(input: &mut [u8], start: usize, end: usize) -> usize
    requires { end ≤ length input.old }
{
    let n = end.saturating_sub(start);
    for i in 0..n {
        input[i] = input[start + i];
    }
    n
}

// What is kept of a block that was answered: what stands behind its last newline, or nothing where that is too long already.
fn keep_rest(input: &mut [u8], end: usize, feed: Feed, out: &mut Out) -> Feed
    requires { end ≤ length input.old }
{
    let dropped = Feed {
        kept: 0,
        dropping: true,
    };
    if feed.dropping {
        return dropped;
    }
    let kept = keep(input, feed.kept, end);
    if kept <= LONGEST {
        return Feed {
            kept,
            dropping: false,
        };
    }
    answer::bad(out);
    out.flush();
    dropped
}

// The end of the input: a last line without a newline is answered too.
fn finish(line: &[u8], body: &mut [u8], words: &mut [u32], out: &mut Out) {
    if !line.is_empty() {
        answer::line(line, false, body, words, out);
        out.flush();
    }
}

// One block: reads once, and answers the lines that are whole then. `None` at the end of the input.
fn turn<R: Read>(
    from: &mut R,
    input: &mut [u8],
    feed: Feed,
    body: &mut [u8],
    words: &mut [u32],
    out: &mut Out,
) -> io::Result<Option<Feed>> {
    let end = read_more(from, input, feed.kept)?;
    if end <= feed.kept {
        finish(&input[..end], body, words, out);
        return Ok(None);
    }
    let rest = answer_lines(&input[..end], feed.kept, feed.dropping, body, words, out);
    Ok(Some(keep_rest(input, end, rest, out)))
}

// Answers every line that a reader has. Ends at the first read or write that fails, with its error. A proved loop has to end, and nothing says that
// an input does: so the loop has a number of turns that no run uses up.
pub fn serve<R: Read>(
    from: &mut R,
    input: &mut [u8],
    body: &mut [u8],
    words: &mut [u32],
    out: &mut Out,
) -> io::Result<()> {
    let mut feed = Feed {
        kept: 0,
        dropping: false,
    };
    for _ in 0..u64::MAX {
        let rest = turn(from, input, feed, body, words, out)?;
        out.result()?;
        match rest {
            Some(more) => feed = more,
            None => return Ok(()),
        }
    }
    Ok(())
}
