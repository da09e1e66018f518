// A page: bytes that a message is put together in, so that it is written by one call, which is seen to succeed.
ghost use Rattle.std.specs.Prelude.{◌≡◌, ◌≤◌, take};
ghost use Rattle.console.specs.Page.{Puts};

use crate::stream::fail;
use io::write_all;
use std::fmt::{self, Write};

// The number of the stream of errors.
pub const STDERR_FILENO: i32 = 2;

// The text at byte at on, as much of it as fits. Answers the byte behind it.
pub fn put(page: &mut [u8], at: usize, text: &[u8]) -> usize
    ensures { Puts page.old at text.now result page.new }
{
    let n = text.len().min(page.len().saturating_sub(at));
    for i in 0..n {
        page[at + i] = text[i];
    }
    at + n
}

// A page that holds up to ROOM bytes. Those that were put stand at the front.
#[derive(Drop)]
pub struct Sheet<const ROOM: usize> {
    bytes: [u8; ROOM],
    len: usize,
    ghost within: { len ≤ ROOM },
}

// A page for a message of any form.
pub type Page = Sheet<65536>;

impl<const ROOM: usize> Sheet<ROOM> {
    pub fn new() -> Sheet<ROOM> {
        Sheet {
            bytes: [0; ROOM],
            len: 0,
        }
    }

    // The text behind what was put, as much of it as fits.
    pub fn put(&mut self, text: &[u8])
        ensures { Puts self.old.bytes self.old.len text.now self.new.len self.new.bytes }
    {
        self.len = put(&mut self.bytes, self.len, text);
    }

    // What was put.
    pub fn text(&self) -> &[u8]
        ensures { result.now ≡ take self.now.len self.now.bytes }
    {
        &self.bytes[..self.len]
    }

    // What was put on standard output; where that fails it is told on standard error.
    pub fn show<P: Print>(&self, rt: &P) {
        if let Err(error) = rt.write_all(self.text()) {
            fail(b"standard output", error);
        }
    }

    // What was put on standard error.
    pub fn complain(&self) {
        write_all(STDERR_FILENO, self.text());
    }
}

// What is written by `write!` is put, as much of it as fits.
impl<const ROOM: usize> Write for Sheet<ROOM> {
    fn write_str(&mut self, s: &str) -> fmt::Result {
        self.put(s.as_bytes());
        Ok(())
    }
}

// So are bytes; none are written where none fits.
impl<const ROOM: usize> std::io::Write for Sheet<ROOM> {
    fn write(&mut self, buf: &[u8]) -> std::io::Result<usize> {
        let before = self.len;
        self.put(buf);
        Ok(self.len - before)
    }

    fn flush(&mut self) -> std::io::Result<()> {
        Ok(())
    }
}
