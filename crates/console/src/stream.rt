// What the system gives a program: files, the bytes of a stream, and its arguments; and why it refused something, on standard error.
ghost use Rattle.std.specs.Prelude.{◌≡◌, ◌≤◌, length, take, IfOk};
ghost use Rattle.io.specs.Counts.{IsPrefixLen};

use crate::page::STDERR_FILENO;
use asm_text::find_byte;
use io::{buffer, write_all};
use std::env::FillError;
use std::fs::OpenOptions;
use std::io::{Cursor, Error, Read, Result, Write};
use std::rt::{Env, Files};
use std::str::from_utf8;

// Bytes of the longest text of an error.
const TEXT: usize = 256;

// The system's numbers of the errors that there is no such argument, that a path is too long, and that bytes are no text.
const EINVAL: i32 = 22;

const ENAMETOOLONG: i32 = 36;

const EILSEQ: i32 = 84;

// A path as the system's calls take it: text. No other name can be opened.
pub fn text_of(path: &[u8]) -> Result<&str> {
    from_utf8(path).map_err(|_| Error::from_raw_os_error(EILSEQ))
}

// A file to be read.
pub fn open_read<R: Files>(rt: &R, path: &[u8]) -> Result<R::File> {
    OpenOptions::new().read(true).open(rt, text_of(path)?)
}

// Fills the room from its front until it is full, the stream ends or a read fails, and answers how many bytes it got.
// It goes on by what a read got.
pub fn read_full<R: Read>(stream: &mut R, room: &mut [u8]) -> usize
    ensures { IsPrefixLen result room.new }
{
    let mut done: usize = 0;
    while done < room.len() {
        let n = read_some(stream, &mut room[done..]);
        if n == 0 {
            return done;
        }
        done += n;
    }
    done
}

// One read: how many bytes it got, 0 where the stream ends or the read fails.
fn read_some<R: Read>(stream: &mut R, room: &mut [u8]) -> usize
    ensures { result ≤ length room.new }
{
    stream.read(room).unwrap_or(0)
}

// Why an argument could not be read.
fn error_of(why: FillError) -> Error {
    match why {
        FillError::NotPresent => Error::from_raw_os_error(EINVAL),
        FillError::TooLong => Error::from_raw_os_error(ENAMETOOLONG),
    }
}

// Argument i at the front of the room: its length, or why it is not there whole.
pub fn whole_arg<E: Env>(rt: &E, i: usize, room: &mut [u8]) -> Result<usize>
    ensures { IfOk result (λ n. IsPrefixLen n room.new) }
{
    rt.arg(i, room).map_err(error_of)
}

// Argument i at the front of the room: its length, or 0 where it is missing or longer than the room.
pub fn arg<E: Env>(rt: &E, i: usize, room: &mut [u8]) -> usize
    ensures { IsPrefixLen result room.new }
{
    rt.arg(i, room).unwrap_or(0)
}

// The bytes of the longest argument that is taken: no path has more.
const ARGUMENT: usize = 4096;

// An argument, an empty one where it is missing or has more bytes.
#[derive(Drop)]
pub struct Argument {
    bytes: [u8; ARGUMENT],
    len: usize,
    ghost within: { len ≤ 4096 },
}

impl Argument {
    // Argument i.
    pub fn of<E: Env>(rt: &E, i: usize) -> Argument {
        let mut bytes = buffer();
        let len = arg(rt, i, &mut bytes);
        Argument { bytes, len }
    }

    pub fn text(&self) -> &[u8]
        ensures { result.now ≡ take self.now.len self.now.bytes }
    {
        &self.bytes[..self.len]
    }
}

// Whether there is an argument i.
fn has_arg<E: Env>(rt: &E, i: usize) -> bool {
    let mut room = [0u8; 1];
    !matches!(&rt.arg(i, &mut room), Err(FillError::NotPresent))
}

// How many arguments there are, the program's name among them.
pub fn arg_count<E: Env>(rt: &E) -> usize {
    for i in 0..usize::MAX {
        if !has_arg(rt, i) {
            return i;
        }
    }
    usize::MAX
}

// How many bytes of an error's text say why: the system's number, which stands behind them in brackets, is left out.
fn reason_length(text: &[u8]) -> usize
    ensures { result ≤ length text.now }
{
    let end = find_byte(text, 0, b'(');
    if end < text.len() {
        return end.saturating_sub(1);
    }
    end
}

// An error's text at the front of a room, and how many bytes of it there are.
fn reason_of(error: &Error) -> ([u8; TEXT], usize)
    ensures { result.1 ≤ 256 }
{
    let mut page = Cursor::new([0u8; TEXT]);
    let _ = write!(page, "{error}");
    let n = page.position() as usize;
    (page.into_inner(), n.min(TEXT))
}

// A line on standard error: what failed, and why.
pub fn fail(what: &[u8], error: Error) {
    let (room, n) = reason_of(&error);
    let k = reason_length(&room[..n]);
    write_all(STDERR_FILENO, what);
    write_all(STDERR_FILENO, b": ");
    write_all(STDERR_FILENO, &room[..k]);
    write_all(STDERR_FILENO, b"\n");
}
