// The command of the product: cards to a table, a table's check, a run, a machine frozen and woken, on files; and the list of operations. What calls the machine stands here; what is said,
// asked and read stands in the `tool_` libraries below.
// The program gives no exit status of its own: whatever it writes to standard error says that it failed, and the script `torzimlak` makes the
// status of that.
#![tactic(auto)]

use cards::{on_assemble, on_check};
use machines::on_program;
use operations::on_operations;
use tool_command::{Task, asked};

mod cards;
mod machines;
mod operations;

fn main(rt: HostRuntime) {
    let Some(task) = asked(&rt) else {
        return;
    };
    match task {
        Task::Assemble => on_assemble(&rt),
        Task::Check => on_check(&rt),
        Task::Machine(work) => on_program(&rt, work),
        Task::Operations => on_operations(&rt),
    }
}
