// Words of a file, little-endian: one function that reads, one that writes, and the loops over them [S The snapshot].
ghost use Rattle.std.specs.Prelude.{◌≡◌, ◌+◌, ◌*◌, ◌≤◌, length};
ghost use Rattle.base.specs.Lists.{same};
ghost use Rattle.rules.specs.Snapshot.{bytes_from, word_in, words_in};
ghost use Rattle.words.specs.Words.{bytes_of};
ghost use Rattle.snap_core.specs.Buffers.{put};

use loading::WORD;
use words::{bytes_of, word_of};

// The word at byte at.
pub fn read_word(file: &[u8], at: usize) -> u32
    requires { at + 4 ≤ length file.now }
    ensures { result ≡ word_in file.now at }
{
    word_of(file[at], file[at + 1], file[at + 2], file[at + 3])
}

// The word w at byte at; all other bytes stay.
pub fn write_word(file: &mut [u8], at: usize, w: u32)
    requires { at + 4 ≤ length file.old }
    ensures { file.new ≡ put file.old at (bytes_of w) }
{
    let b = bytes_of(w);
    file[at] = b[0];
    file[at + 1] = b[1];
    file[at + 2] = b[2];
    file[at + 3] = b[3];
}

// The words of the file from byte at on, as many as ws has.
pub fn read_words(file: &[u8], at: usize, ws: &mut [u32])
    requires { at + 4 * length ws.old ≤ length file.now }
    ensures { ws.new ≡ words_in file.now at (length ws.old) }
{
    for (i, w) in ws.iter_mut().enumerate() {
        *w = read_word(file, at + WORD * i);
    }
}

// The words ws at byte at on; all other bytes stay.
pub fn write_words(file: &mut [u8], at: usize, ws: &[u32])
    requires { at + 4 * length ws.now ≤ length file.old }
    ensures { file.new ≡ put file.old at (bytes_from ws.now) }
{
    for (i, w) in ws.iter().enumerate() {
        write_word(file, at + WORD * i, *w);
    }
}

// The words of the file from byte at on are ws.
pub fn same_words(file: &[u8], at: usize, ws: &[u32]) -> bool
    requires { at + 4 * length ws.now ≤ length file.now }
    ensures { result ≡ same (words_in file.now at (length ws.now)) ws.now }
{
    for (i, w) in ws.iter().enumerate() {
        if read_word(file, at + WORD * i) != *w {
            return false;
        }
    }
    true
}
