// What the lines of the snapshots are made of, and how often each number is answered.
use io::write_all;
use report::{STDOUT_FILENO, tell};

// How often each number below 64 is answered.
#[derive(Drop)]
pub struct Tally {
    counts: [u32; 64],
}

impl Tally {
    pub fn new() -> Tally {
        Tally { counts: [0; 64] }
    }

    // One more answer of this number, if there is an answer.
    pub fn count(&mut self, number: Option<u32>) {
        let Some(number) = number else {
            return;
        };
        if let Some(n) = self.counts.get_mut(number as usize) {
            *n = n.wrapping_add(1);
        }
    }

    // How often each number was answered, if it was.
    pub fn tell(&self) {
        for (i, n) in self.counts.iter().enumerate() {
            if *n != 0 {
                tell_line(b"answered", i as u32, *n);
            }
        }
    }
}

pub fn say(text: &[u8]) {
    write_all(STDOUT_FILENO, text);
}

pub fn end_line() {
    say(b"\n");
}

// A line with a name and a size.
pub fn tell_size(name: &[u8], n: u32) {
    say(name);
    tell(n);
    end_line();
}

// A line with a name and two numbers.
fn tell_line(name: &[u8], i: u32, n: u32) {
    say(name);
    tell(i);
    tell(n);
    end_line();
}

// A line with a name, which damage it is, and the number of the answer, which is answered on; none where there is no answer.
pub fn told(name: &[u8], i: u32, number: Option<u32>) -> Option<u32> {
    tell_line(name, i, number?);
    number
}

// A line with words.
pub fn tell_words(name: &[u8], words: &[u32]) {
    say(name);
    for w in words {
        tell(*w);
    }
    end_line();
}
