// The trial program [S Reference runs]: cards on standard input, one line out; where the input cannot be read, why on standard error.
#![tactic(auto)]

use report::tell_cards;

fn main(rt: HostRuntime) {
    tell_cards(&mut rt.stdin(), b"standard input");
}
