// A buffer that is written out whenever it is full, so an answer may be longer than it.
ghost use Rattle.std.specs.Prelude.{◌≡◌, ◌≤◌};

use itoa::{Buffer, Integer};
use std::io;
use std::io::{Stdout, Write};
use wire::{Reason, Stop};

// The buffer, of which the first `at` bytes wait to be written out, and where to. The error of the first write that failed is kept, and nothing is
// written out from there on.
#[derive(Drop)]
pub struct Out {
    waiting: [u8; 65536],
    at: usize,
    to: Stdout,
    error: Option<io::Error>,
    ghost room: { at ≤ 65536 },
}

impl Out {
    pub fn new(to: Stdout) -> Out {
        Out {
            waiting: [0; 65536],
            at: 0,
            to,
            error: None,
        }
    }

    // The error of the first write that failed, if one did.
    pub fn result(&self) -> io::Result<()> {
        match self.error {
            Some(error) => Err(error),
            None => Ok(()),
        }
    }

    // Writes out what waits.
    pub fn flush(&mut self)
        ensures { self.new.at ≡ 0 }
    {
        if self.error.is_none() {
            if let Err(error) = self.to.write_all(&self.waiting[..self.at]) {
                self.error = Some(error);
            }
        }
        self.at = 0;
    }

    pub fn byte(&mut self, b: u8) {
        if 65536 <= self.at {
            self.flush();
        }
        self.waiting[self.at] = b;
        self.at += 1;
    }

    pub fn literal(&mut self, text: &[u8]) {
        for b in text {
            self.byte(*b);
        }
    }

    // A number in decimal, with a `-` before it where it is negative.
    pub fn decimal<I: Integer>(&mut self, n: I) {
        let mut spelled = Buffer::new();
        self.literal(spelled.format(n).as_bytes());
    }

    // A character and a number in decimal.
    pub fn marked<I: Integer>(&mut self, mark: u8, n: I) {
        self.byte(mark);
        self.decimal(n);
    }

    // A label and a number in decimal.
    pub fn labelled<I: Integer>(&mut self, label: &[u8], n: I) {
        self.literal(label);
        self.decimal(n);
    }

    // A number in hex, with zeros in front up to `width` digits (16 at most).
    pub fn hex_number(&mut self, n: u64, width: usize) {
        for behind in (0..hex_len(n).max(width).min(16)).rev() {
            self.byte(hex_digit(n >> (4 * behind)));
        }
    }

    // The `len` bytes at `start` in hex, two digits each. What lies behind the end is left out.
    pub fn hex_bytes(&mut self, s: &[u8], start: usize, len: usize) {
        for b in part(s, start, len) {
            self.byte(hex_digit(u64::from(*b / 16)));
            self.byte(hex_digit(u64::from(*b)));
        }
    }

    // A part of the bytes as TEXT: in hex, and where it stands.
    pub fn text(&mut self, s: &[u8], start: usize, len: usize) {
        self.hex_bytes(s, start, len);
        self.marked(b'@', start);
        self.marked(b'+', len);
    }

    // The front of an answer with a value: how many bytes it used.
    pub fn used(&mut self, n: usize) {
        self.labelled(b"0 used=", n);
    }

    // The answer where bytes are missing: how many more are asked for.
    pub fn need(&mut self, n: usize) {
        self.labelled(b"2 ", n);
    }

    // The answer where a message cannot be read: why.
    pub fn hickup(&mut self, reason: Reason) {
        self.labelled(b"3 ", reason.number());
    }

    // The answer of a call that may say either.
    pub fn stopped(&mut self, why: Stop) {
        match why {
            Stop::Need(n) => self.need(n),
            Stop::Hickup(reason) => self.hickup(reason),
        }
    }
}

// How many hex digits a number takes: 1 at least.
fn hex_len(n: u64) -> usize {
    if n == 0 {
        1
    } else {
        n.ilog2() as usize / 4 + 1
    }
}

// The hex digit of a number's last four bits.
fn hex_digit(n: u64) -> u8 {
    let d = (n % 16) as u8;
    if d < 10 { b'0' + d } else { b'a' - 10 + d }
}

// The `len` bytes at `start`, without those that lie behind the end.
fn part(s: &[u8], start: usize, len: usize) -> &[u8] {
    let rest = s.get(start..).unwrap_or(&[]);
    rest.get(..len).unwrap_or(rest)
}
