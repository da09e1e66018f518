// A run over plain words [S Numbers the host sees]. What a host calls is in host, under its C name, by this contract.
#![tactic(auto)]

ghost use Rattle.rules.specs.Run.{runs};
ghost use Rattle.host_claims.specs.Running.{HostRuns};

use host_numbers::{BAD_TABLE, UPPER};
use host_words::unread;
use lent::{put_state, state_of, words_ok};
use machine::run;
use resuming::answers::number as number_ran;

// Upper half 20 to 29: the ending of a run of at most budget steps; the lower half is how many it took. Upper half 30: the table does not
// pass its check. 31: the words are no state, or the state does not pass its check. 32: a budget over 1,000,000. A refusal's lower half is 0.
pub fn run_words(table: &[u32], memory: &mut [u32], state: &mut [u32], budget: u32) -> u64
    ensures { HostRuns table.now state.old memory.old (runs budget) result memory.new state.new }
{
    if !words_ok(state) {
        return UPPER * unread(table) as u64;
    }
    let lent = state_of(state);
    let r = run(table, memory, lent, budget);
    let a = r.answer;
    let n = number_ran(a);
    let steps = r.steps;
    let told = UPPER * n as u64 + steps as u64;
    if n < BAD_TABLE {
        let s = r.state;
        put_state(state, s);
    }
    told
}
