// Whole files: read, or written so that a failure leaves the file as it was. What cannot be done is told on standard error.
#![tactic(auto)]

ghost use Rattle.std.specs.Prelude.{◌≤◌, length, IfSome};
ghost use Rattle.io.specs.Counts.{IsPrefixLen};

use console::page::Page;
use console::stream::{fail, open_read, read_full, text_of};
use std::fs::{OpenFile, OpenOptions, remove_file, rename, symlink_metadata};
use std::io::{Error, ErrorKind, Read, Result, Write};
use std::random::RandomSource;
use std::rt::Files;
use tool_forms::{put_form, warn};
use words::word_of;

// A line on standard error: the file, and what is wrong with it.
pub fn tell(path: &[u8], what: &[u8]) {
    warn(b"%: $\n", path, what, &[]);
}

// A file to be read and written, which keeps its bytes.
fn open_update<R: Files>(rt: &R, path: &[u8]) -> Result<R::File> {
    OpenOptions::new()
        .read(true)
        .write(true)
        .open(rt, text_of(path)?)
}

// A new file to be written.
fn create<R: Files>(rt: &R, path: &[u8]) -> Result<R::File> {
    OpenOptions::new()
        .write(true)
        .create_new(true)
        .open(rt, text_of(path)?)
}

// Fills the room from the file's front and answers how many bytes it got; nothing where there are none or the file cannot be read, which is told.
// A folder opens like a file, so that only the read behind the last byte tells its error.
pub fn read_file<R: Files>(rt: &R, path: &[u8], room: &mut [u8]) -> Option<usize>
    ensures { IfSome result (λ n. IsPrefixLen n room.new) }
{
    match open_read(rt, path) {
        Ok(file) => read_open(file, path, room),
        Err(error) => {
            fail(path, error);
            None
        }
    }
}

// The same of a file that is open.
fn read_open<F: Read + Drop>(mut file: F, path: &[u8], room: &mut [u8]) -> Option<usize>
    ensures { IfSome result (λ n. IsPrefixLen n room.new) }
{
    let n = read_full(&mut file, room);
    let mut behind = [0u8; 1];
    if let Err(error) = file.read(&mut behind) {
        fail(path, error);
        return None;
    }
    if n == 0 {
        tell(path, b"the file is empty");
        return None;
    }
    Some(n)
}

fn is_link<R: Files>(rt: &R, path: &[u8]) -> bool {
    let Ok(text) = text_of(path) else {
        return false;
    };
    match symlink_metadata(rt, text) {
        Ok(data) => data.is_symlink(),
        Err(_) => false,
    }
}

// Whether a new file may take the path: there is none yet, or a plain one that may be written. A device or a pipe cannot be synchronized.
fn may_replace<R: Files>(rt: &R, path: &[u8]) -> bool {
    if is_link(rt, path) {
        tell(path, b"this is a link; name the file itself");
        return false;
    }
    match open_update(rt, path) {
        Ok(file) => is_plain(file, path),
        Err(error) => is_missing(path, error),
    }
}

// Whether an open file is a plain one; that it is none is told.
fn is_plain<F: OpenFile + Drop>(file: F, path: &[u8]) -> bool {
    let plain = file.sync_all().is_ok();
    if !plain {
        tell(path, b"this is not a plain file");
    }
    plain
}

// Whether a file could not be opened because there is none; another error is told.
fn is_missing(path: &[u8], error: Error) -> bool {
    if error.kind() == ErrorKind::NotFound {
        return true;
    }
    fail(path, error);
    false
}

// How many bytes of a path name its folder, the last slash among them.
fn folder(path: &[u8]) -> usize
    ensures { result ≤ length path.now }
{
    match path.iter().rposition(|b| *b == b'/') {
        Some(last) => last + 1,
        None => 0,
    }
}

// Four bytes that other runs do not have, as a number.
fn chance<R: RandomSource>(rt: &R) -> u32 {
    let mut four = [0u8; 4];
    let _ = rt.fill_bytes(&mut four);
    word_of(four[0], four[1], four[2], four[3])
}

// The name of a new file in the folder of the path.
fn put_beside<R: RandomSource>(rt: &R, name: &mut Page, path: &[u8]) {
    let k = folder(path);
    put_form(
        name,
        b"%.torzimlak-#",
        &path[..k],
        b"",
        &[chance(rt) as u64],
    );
}

// All bytes are written to an open file, and have reached the device; the file is closed.
fn keep<F: Write + OpenFile + Drop>(mut file: F, bytes: &[u8]) -> Result<()> {
    file.write_all(bytes)?;
    file.sync_all()
}

// A new file takes the path.
fn move_to<R: Files>(rt: &R, name: &[u8], path: &[u8]) -> Result<()> {
    rename(rt, text_of(name)?, text_of(path)?)
}

// The bytes in an open file of this name, which then takes the path.
fn replace_by<R: Files>(
    rt: &R,
    file: R::File,
    path: &[u8],
    name: &[u8],
    bytes: &[u8],
) -> Result<()> {
    keep(file, bytes)?;
    move_to(rt, name, path)
}

// Removes a file that was not finished; why is told first.
fn give_up<R: Files>(rt: &R, path: &[u8], name: &[u8], error: Error) -> bool {
    fail(path, error);
    if let Ok(text) = text_of(name) {
        let _ = remove_file(rt, text);
    }
    false
}

// The bytes in a new file of this name, which then takes the path.
fn write_by<R: Files>(rt: &R, path: &[u8], name: &[u8], bytes: &[u8]) -> bool {
    let file = match create(rt, name) {
        Ok(file) => file,
        Err(error) => {
            fail(path, error);
            return false;
        }
    };
    match replace_by(rt, file, path, name, bytes) {
        Ok(()) => true,
        Err(error) => give_up(rt, path, name, error),
    }
}

// The bytes as the whole of a file; where that fails it is told, and what stood there stands there still.
pub fn write_file<R: Files + RandomSource>(rt: &R, path: &[u8], bytes: &[u8]) -> bool {
    if !may_replace(rt, path) {
        return false;
    }
    let mut name = Page::new();
    put_beside(rt, &mut name, path);
    write_by(rt, path, name.text(), bytes)
}
