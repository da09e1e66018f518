// Lines that the gate compares, each part under a heading: the examples, each run as the trial does; the decks, each assembled; the reference runs;
// and two machines, frozen, woken, and their files damaged. The arguments name the files, each in the folder of its part.
#![tactic(auto)]

use files::{Folder, each_file};
use snapshots::tell_snapshots;
use telling::say;

mod damage;
mod files;
mod machines;
mod references;
mod snapshots;
mod telling;

fn main(rt: HostRuntime) {
    say(b"examples\n");
    each_file(&rt, Folder::Examples);
    say(b"decks\n");
    each_file(&rt, Folder::Decks);
    say(b"reference runs\n");
    each_file(&rt, Folder::References);
    say(b"snapshots\n");
    tell_snapshots();
}
