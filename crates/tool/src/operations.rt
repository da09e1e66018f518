// The list of operations, or one of them.
use console::stream::{Argument, arg_count};
use std::rt::Env;
use tool_arguments::FIRST;
use tool_operations::{show_row, show_rows};

pub fn on_operations<R: Env + Print>(rt: &R) {
    if arg_count(rt) <= FIRST {
        show_rows(rt);
        return;
    }
    let name = Argument::of(rt, FIRST);
    show_row(rt, name.text());
}
