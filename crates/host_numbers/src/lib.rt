// The number of each answer of the snapshot [S Numbers the host sees]. Where there is a value too, the number is the upper half of a u64
// and the value the lower.
#![tactic(auto)]

ghost use Rattle.std.specs.Prelude.{◌≡◌};
ghost use Rattle.host_numbers.specs.Numbers.{number_restored, number_written};

use snapshot::waking::RestoreError;
use snapshot::writing::WriteError;

// The answers: passed, 30, 31, and those of the snapshot, by the numbers that the host sees.
pub const PASSED: u32 = 0;

pub const BAD_TABLE: u32 = 30;

pub const BAD_STATE: u32 = 31;

const BAD_TRAILER: u32 = 40;

const OTHER_PROGRAM: u32 = 41;

const BAD_FROZEN: u32 = 42;

const FRESH_COUNT_OFF: u32 = 43;

const MEMORY_LENGTH_OFF: u32 = 44;

const SHORT_ROOM: u32 = 45;

// A number of 1 in the upper half of an answer.
pub const UPPER: u64 = 4294967296;

// The number of an answer of restore.
pub fn number_of(answer: Result<(), RestoreError>) -> u32
    ensures { result ≡ number_restored answer }
{
    match answer {
        Ok(()) => PASSED,
        Err(RestoreError::BadTable) => BAD_TABLE,
        Err(RestoreError::BadTrailer) => BAD_TRAILER,
        Err(RestoreError::OtherProgram) => OTHER_PROGRAM,
        Err(RestoreError::BadFrozen) => BAD_FROZEN,
        Err(RestoreError::FreshCountOff) => FRESH_COUNT_OFF,
        Err(RestoreError::MemoryLengthOff) => MEMORY_LENGTH_OFF,
    }
}

// The number and the length of an answer of the writer.
pub fn number_written(w: Result<usize, WriteError>) -> u64
    ensures { result ≡ number_written w }
{
    match w {
        Ok(len) => len as u64,
        Err(WriteError::BadTable) => UPPER * BAD_TABLE as u64,
        Err(WriteError::BadState) => UPPER * BAD_STATE as u64,
        Err(WriteError::ShortRoom) => UPPER * SHORT_ROOM as u64,
    }
}
