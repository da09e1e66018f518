// Fresh words are 0 in a file: memory is copied whole, and its few fresh words are set after [S The snapshot].
ghost use Rattle.std.specs.Prelude.{◌≡◌, ◌+◌, ◌*◌, ◌≤◌, length};
ghost use Rattle.base.specs.Test.{Ok};
ghost use Rattle.rules.specs.Check.{table_ok};
ghost use Rattle.rules.specs.Snapshot.{bytes_from, fresh_hidden, hidden, words_in};
ghost use Rattle.rules.specs.Table.{constants, fresh_count, workings};
ghost use Rattle.snap_core.specs.Buffers.{put};

use super::copy::{read_word, write_word, write_words};
use loading::{WORD, fresh_count, fresh_index};

// Memory at the front of the file, its fresh words as 0.
pub fn write_memory(file: &mut [u8], table: &[u32], memory: &[u32])
    requires { Ok (table_ok table.now) × (constants table.now + workings table.now ≤ length memory.now) × (4 * length memory.now ≤ length file.old) }
    ensures { file.new ≡ put file.old 0 (bytes_from (hidden table.now memory.now)) }
{
    write_words(file, 0, memory);
    for i in 0..fresh_count(table) {
        write_word(file, WORD * fresh_index(table, i), 0);
    }
}

// The fresh words of the memory of m words at byte at of the file are 0.
pub fn fresh_hidden(file: &[u8], at: usize, m: usize, table: &[u32]) -> bool
    requires { Ok (table_ok table.now) × (constants table.now + workings table.now ≤ m) × (at + 4 * m ≤ length file.now) }
    ensures { result ≡ fresh_hidden table.now (words_in file.now at m) (fresh_count table.now) }
{
    for i in 0..fresh_count(table) {
        if read_word(file, at + WORD * fresh_index(table, i)) != 0 {
            return false;
        }
    }
    true
}
