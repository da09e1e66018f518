// The snapshot: a machine written to a file, and a machine woken from any file [S The snapshot].
// A refusal changes no lent word and no lent byte. Numbers are judged in their order: restore 30, 40, 41, 42, 43, 44; the writer 30, 31, 45.
#![tactic(auto)]

ghost use Rattle.std.specs.Prelude.{◌≡◌};
ghost use Rattle.states.specs.Views.{state_of};
ghost use Rattle.snapshot.specs.Answers.{Restores, Writes};

use states::State;
use tables::check_table;
use waking::{RestoreError, restore_checked};
use writing::{WriteError, write_checked};

pub mod frozen;
pub mod waking;
pub mod writing;

// The machine at the end of the file, woken in the lent memory with the host's fresh words. Refused: 30 the table, 40 the trailer,
// 41 another program or build, 42 the frozen state, 43 the count of fresh words, 44 the length of memory.
pub fn restore(
    table: &[u32],
    file: &[u8],
    build: u32,
    fresh: &[u32],
    memory: &mut [u32],
) -> Result<State, RestoreError>
    ensures { Restores table.now file.now build fresh.now memory.old result memory.new }
{
    if !check_table(table) {
        return Err(RestoreError::BadTable);
    }
    restore_checked(table, file, build, fresh, memory)
}

// The machine's file at the front of the room, its length L answered. Refused: 30 the table, 31 the state, 45 room under L.
pub fn write(
    table: &[u32],
    memory: &[u32],
    state: State,
    build: u32,
    file: &mut [u8],
) -> Result<usize, WriteError>
    ensures { Writes table.now (state_of state memory.now) build file.old result file.new }
{
    if !check_table(table) {
        return Err(WriteError::BadTable);
    }
    write_checked(table, memory, state, build, file)
}
