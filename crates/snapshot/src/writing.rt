// A machine written to a file, where the table has passed its check: 31, then 45 [S The snapshot].
ghost use Rattle.std.specs.Prelude.{◌≡◌, ◌≤◌, length, ◌++◌};
ghost use Rattle.base.specs.Test.{Ok};
ghost use Rattle.rules.specs.Check.{table_ok};
ghost use Rattle.rules.specs.Snapshot as Snapshot;
ghost use Rattle.rules.specs.State.{state_ok};
ghost use Rattle.rules.specs.Table.{fresh_count};
ghost use Rattle.states.specs.Views.{state_of, words_of};
ghost use Rattle.snapshot.specs.Answers.{Writes};
ghost use Rattle.snap_core.specs.Buffers.{put};

use loading::{WORD, fresh_base, fresh_count};
use snap_core::copy::write_words;
use snap_core::fresh::write_memory;
use snap_core::layout::{index, written_length};
use state_check::passing::state_ok;
use states::{State, bit};

// Why no file is written, with the numbers 30, 31, 45.
#[derive(Clone, Copy)]
pub enum WriteError {
    BadTable,
    BadState,
    ShortRoom,
}

// The words of the trailer, RA and its flag before the build number.
pub fn trailer_words(table: &[u32], memory: &[u32], state: State, build: u32) -> [u32; 19]
    requires { Ok (table_ok table.now) × Ok (state_ok table.now (state_of state memory.now)) }
    ensures { result ≡ Snapshot.real_part Snapshot.new_form (words_of state) ++ Snapshot.trailer Snapshot.new_form table.now (state_of state memory.now) build }
{
    let m = memory.len() as u32;
    [
        state.ra_low,
        state.ra_high,
        state.real_flag,
        build,
        table[0],
        m,
        state.count,
        table[3],
        state.pc,
        bit(state.waiting),
        state.xl,
        state.xr,
        state.xs,
        state.wa,
        state.wb,
        state.wc,
        state.ia,
        bit(state.flag),
        written_length(m, state.count, table[3]) as u32,
    ]
}

// The file at the front of the room; bytes behind it stay.
pub fn write_file(file: &mut [u8], table: &[u32], memory: &[u32], state: State, build: u32)
    requires { Ok (table_ok table.now) × Ok (state_ok table.now (state_of state memory.now)) × (Snapshot.file_length Snapshot.new_form (length memory.now) state.count (fresh_count table.now) ≤ length file.old) }
    ensures { file.new ≡ put file.old 0 (Snapshot.file_of table.now (state_of state memory.now) build) }
{
    write_memory(file, table, memory);
    let at = WORD * memory.len();
    let k = index(state.count);
    let links = state.links;
    write_words(file, at, &links[..k]);
    let from = fresh_base(table);
    let f = fresh_count(table);
    let to = from + f;
    write_words(file, at + WORD * k, &table[from..to]);
    let words = trailer_words(table, memory, state, build);
    write_words(file, at + WORD * (k + f), &words);
}

// The machine's file at the front of the room, its length L answered. Refused: 31 a state that does not pass, 45 room under L.
pub fn write_checked(
    table: &[u32],
    memory: &[u32],
    state: State,
    build: u32,
    file: &mut [u8],
) -> Result<usize, WriteError>
    requires { Ok (table_ok table.now) }
    ensures { Writes table.now (state_of state memory.now) build file.old result file.new }
{
    if !state_ok(table, memory.len(), state) {
        return Err(WriteError::BadState);
    }
    let len = written_length(memory.len() as u32, state.count, table[3]) as usize;
    if file.len() < len {
        return Err(WriteError::ShortRoom);
    }
    write_file(file, table, memory, state, build);
    Ok(len)
}
