// The functions of `host` as C links them, under the names and by the conventions of include/torzimlak.h: a slice is a pointer and a length. Each
// calls the function of its name there, and promises what that one does.
#![tactic(auto)]

ghost use Rattle.std.specs.Prelude.{◌≡◌, List, ℕ, length};
ghost use Rattle.language.specs.Answer.{answer_of, left_of};
ghost use Rattle.asm_numbers.specs.Numbers.{assembled_number};
ghost use Rattle.host_claims.specs.Answer.{state_number, table_number};
ghost use Rattle.rules.specs.Run.{resumes, runs};
ghost use Rattle.rules.specs.Start.{plain, warm};
ghost use Rattle.host_claims.specs.Freezing.{HostRestores, HostWrites};
ghost use Rattle.host_claims.specs.Running.{HostResumes, HostRuns, HostStarts};

// The assembler: cards become a table.
#[unsafe(no_mangle)]
pub extern "C" fn torzimlak_assemble(cards: &[u8], table: &mut [u32]) -> u64
    ensures { (result ≡ assembled_number (answer_of cards.now (length table.old))) × (table.new ≡ left_of cards.now table.old) }
{
    host::cards::torzimlak_assemble(cards, table)
}

// Whether the words are a lawful table.
#[unsafe(no_mangle)]
pub extern "C" fn torzimlak_check_table(table: &[u32]) -> u32
    ensures { result ≡ table_number table.now }
{
    host::torzimlak_check_table(table)
}

// Whether the words are a state that may be run on the table.
#[unsafe(no_mangle)]
pub extern "C" fn torzimlak_check_state(table: &[u32], len: usize, state: &[u32]) -> u32
    ensures { (mem : List ℕ) → length mem ≡ len → result ≡ state_number table.now state.now mem }
{
    host::torzimlak_check_state(table, len, state)
}

// A machine at the start of section 4, all other words 0.
#[unsafe(no_mangle)]
pub extern "C" fn torzimlak_start(
    table: &[u32],
    memory: &mut [u32],
    fresh: &[u32],
    argument: u32,
    state: &mut [u32],
) -> u32
    ensures { HostStarts plain table.now memory.old fresh.now argument state.old result memory.new state.new }
{
    host::torzimlak_start(table, memory, fresh, argument, state)
}

// The same, but the words behind the program's own stay as lent.
#[unsafe(no_mangle)]
pub extern "C" fn torzimlak_warm_start(
    table: &[u32],
    memory: &mut [u32],
    fresh: &[u32],
    argument: u32,
    state: &mut [u32],
) -> u32
    ensures { HostStarts warm table.now memory.old fresh.now argument state.old result memory.new state.new }
{
    host::torzimlak_warm_start(table, memory, fresh, argument, state)
}

// At most budget steps.
#[unsafe(no_mangle)]
pub extern "C" fn torzimlak_run(
    table: &[u32],
    memory: &mut [u32],
    state: &mut [u32],
    budget: u32,
) -> u64
    ensures { HostRuns table.now state.old memory.old (runs budget) result memory.new state.new }
{
    host::torzimlak_run(table, memory, state, budget)
}

// The host's answer to the call that the state waits at.
#[unsafe(no_mangle)]
pub extern "C" fn torzimlak_resume(
    table: &[u32],
    memory: &[u32],
    state: &mut [u32],
    exit: u32,
) -> u32
    ensures { HostResumes table.now state.old memory.now (resumes exit) result state.new }
{
    host::torzimlak_resume(table, memory, state, exit)
}

// The machine's file.
#[unsafe(no_mangle)]
pub extern "C" fn torzimlak_write(
    table: &[u32],
    memory: &[u32],
    state: &[u32],
    build: u32,
    file: &mut [u8],
) -> u64
    ensures { HostWrites table.now state.now memory.now build file.old result file.new }
{
    host::torzimlak_write(table, memory, state, build, file)
}

// The machine at the end of a file, with the host's fresh words.
#[unsafe(no_mangle)]
pub extern "C" fn torzimlak_restore(
    table: &[u32],
    file: &[u8],
    build: u32,
    fresh: &[u32],
    memory: &mut [u32],
    state: &mut [u32],
) -> u32
    ensures { HostRestores table.now file.now build fresh.now memory.old state.old result memory.new state.new }
{
    host::torzimlak_restore(table, file, build, fresh, memory, state)
}
