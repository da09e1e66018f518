// The operation table, printed to be held to the paper's list [M section 8]: its lines stand in `stdout`, taken from there.
#![tactic(auto)]

fn main(rt: HostRuntime) {
    tool_operations::show_rows(&rt);
}
