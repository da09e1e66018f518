// A machine woken from a file, where the table has passed its check: 40, 41, 42, 43, 44 in their order [S The snapshot].
ghost use Rattle.base.specs.Test.{Ok};
ghost use Rattle.rules.specs.Check.{table_ok};
ghost use Rattle.snapshot.specs.Answers.{Restores};

use super::frozen::{frozen_ok, frozen_state};
use loading::{fresh_count, supply};
use snap_core::copy::read_words;
use snap_core::layout::index;
use snap_core::trailer::{MEMORY, memory_from, same_program, trailer_ok, trailer_word};
use states::State;

// Why no machine is woken, with the numbers 30, 40, 41, 42, 43, 44.
#[derive(Clone, Copy)]
pub enum RestoreError {
    BadTable,
    BadTrailer,
    OtherProgram,
    BadFrozen,
    FreshCountOff,
    MemoryLengthOff,
}

// The machine of a file, woken in the lent memory with the host's fresh words; the answer is its state beside the memory. Refused: 40 a trailer that does not hold, 41 another
// program, 42 a state that does not pass or a fresh word that is not 0, 43 the count of fresh words, 44 the length of memory.
pub fn restore_checked(
    table: &[u32],
    file: &[u8],
    build: u32,
    fresh: &[u32],
    memory: &mut [u32],
) -> Result<State, RestoreError>
    requires { Ok (table_ok table.now) }
    ensures { Restores table.now file.now build fresh.now memory.old result memory.new }
{
    if !trailer_ok(file) {
        return Err(RestoreError::BadTrailer);
    }
    if !same_program(table, build, file) {
        return Err(RestoreError::OtherProgram);
    }
    if !frozen_ok(table, file) {
        return Err(RestoreError::BadFrozen);
    }
    if fresh.len() != fresh_count(table) {
        return Err(RestoreError::FreshCountOff);
    }
    if memory.len() != index(trailer_word(file, MEMORY)) {
        return Err(RestoreError::MemoryLengthOff);
    }
    read_words(file, memory_from(file), memory);
    supply(memory, table, fresh);
    let state = frozen_state(file);
    Ok(state)
}
