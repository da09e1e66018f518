// The checks, the machine and the snapshot as a host calls them, with plain words and bytes for all that is lent [S Numbers the host sees].
// An answer is a number, 0 or that of a refusal; where there is a value too, the number is the upper half of a u64 and the value the lower.
// A refusal changes no lent word and no lent byte. The crate host_c exports these to C, under the same names.
#![tactic(auto)]

ghost use Rattle.std.specs.Prelude.{◌≡◌, List, ℕ, length};
ghost use Rattle.host_claims.specs.Answer.{state_number, table_number};
ghost use Rattle.rules.specs.Run.{resumes, runs};
ghost use Rattle.rules.specs.Start.{plain, warm};
ghost use Rattle.host_claims.specs.Freezing.{HostRestores, HostWrites};
ghost use Rattle.host_claims.specs.Running.{HostResumes, HostRuns, HostStarts};

use host_run::run_words;
use host_words::{
    restore_words, resume_words, start_words, state_number, table_number, write_words,
};
use starting::Mode;

pub mod cards;

// 0: the table passes its check. 30: it does not. Any words may be asked.
pub fn torzimlak_check_table(table: &[u32]) -> u32
    ensures { result ≡ table_number table.now }
{
    table_number(table)
}

// 0: a state of these words, with memory of len words, may be run on the table. 30: the table does not pass its check. 31: the words
// are fewer than a state has, the flag or the waiting word is neither 0 nor 1, or the state does not pass its check.
pub fn torzimlak_check_state(table: &[u32], len: usize, state: &[u32]) -> u32
    ensures { (mem : List ℕ) → length mem ≡ len → result ≡ state_number table.now state.now mem }
{
    state_number(table, len, state)
}

// 0: the program stands at the start of section 4, its words and the host's fresh words in memory and all other words 0, its 270 words of state in
// what is lent, the host's argument in WA. 30: the table does not pass its check. 31: fewer words are lent than a state has. 10: the length of
// memory. 43: the count of fresh words.
pub fn torzimlak_start(
    table: &[u32],
    memory: &mut [u32],
    fresh: &[u32],
    argument: u32,
    state: &mut [u32],
) -> u32
    ensures { HostStarts plain table.now memory.old fresh.now argument state.old result memory.new state.new }
{
    start_words(Mode::Plain, table, memory, fresh, argument, state)
}

// The same but for the words behind the program's own, which stay as lent.
pub fn torzimlak_warm_start(
    table: &[u32],
    memory: &mut [u32],
    fresh: &[u32],
    argument: u32,
    state: &mut [u32],
) -> u32
    ensures { HostStarts warm table.now memory.old fresh.now argument state.old result memory.new state.new }
{
    start_words(Mode::Warm, table, memory, fresh, argument, state)
}

// Upper half 20 to 29: the ending of a run of at most budget steps; the lower half is how many it took. Upper half 30: the table does not
// pass its check. 31: the words are no state, or the state does not pass its check. 32: a budget over 1,000,000. A refusal's lower half is 0.
pub fn torzimlak_run(table: &[u32], memory: &mut [u32], state: &mut [u32], budget: u32) -> u64
    ensures { HostRuns table.now state.old memory.old (runs budget) result memory.new state.new }
{
    run_words(table, memory, state, budget)
}

// The host's answer to the call that the state waits at: an exit, or 0 for no number. 0: the state goes on from there. 26: the exit's PPM
// has no label, and the state still waits. 30: the table does not pass its check. 31: the words are no state, or the state does not pass its
// check. 33: the state does not wait, or the exit is above the declared count.
pub fn torzimlak_resume(table: &[u32], memory: &[u32], state: &mut [u32], exit: u32) -> u32
    ensures { HostResumes table.now state.old memory.now (resumes exit) result state.new }
{
    resume_words(table, memory, state, exit)
}

// Upper half 0, lower half L: the machine's file of L bytes stands at the front of the room. Upper half 30: the table does not pass its
// check. 31: the words are no state, or the state does not pass its check. 45: the room is under L. The lower half of a refusal is 0.
pub fn torzimlak_write(
    table: &[u32],
    memory: &[u32],
    state: &[u32],
    build: u32,
    file: &mut [u8],
) -> u64
    ensures { HostWrites table.now state.now memory.now build file.old result file.new }
{
    write_words(table, memory, state, build, file)
}

// 0: the machine at the end of the file is woken, its memory and its 270 words of state in what is lent, with the host's fresh words.
// 30: the table does not pass its check. 31: fewer words are lent than a state has. 40 the trailer, 41 another program or build,
// 42 the frozen state, 43 the count of fresh words, 44 the length of memory.
pub fn torzimlak_restore(
    table: &[u32],
    file: &[u8],
    build: u32,
    fresh: &[u32],
    memory: &mut [u32],
    state: &mut [u32],
) -> u32
    ensures { HostRestores table.now file.now build fresh.now memory.old state.old result memory.new state.new }
{
    restore_words(table, file, build, fresh, memory, state)
}
