// Walks over the label fields of a name, and one symbol more.
ghost use Rattle.std.specs.Prelude.{◌≡◌, ◌+◌, ◌*◌, ◌<◌, ◌≤◌, length};
ghost use Rattle.language.specs.Symbol.{fields_named, has_sort};
ghost use Rattle.asm_types.specs.Views.{most_word, sort_at, symbols_in};
ghost use Rattle.asm_symbols.specs.Symbolic.{Symbolic, Added, last_sort, first_placed, most_places};
ghost use Rattle.asm_symbols.specs.Walk.{Next, NextAbove, NextOf, among, named_from};

use crate::list::SymbolList;
use asm_types::Symbols;

// x lies from lo to hi.
pub fn is_among(lo: u64, hi: u64, x: u64) -> bool
    ensures { result ≡ among lo hi x }
{
    if x < lo {
        return false;
    }
    x <= hi
}

// Symbol n is stored.
pub fn add(syms: &mut [u64], n: usize, name: u64, line: u64, sort: u64, value: u64, letter: u64)
    requires { Symbolic syms.old n × (5 * n + 5 ≤ length syms.old) × (sort ≤ last_sort) × (value ≤ most_word) × (first_placed ≤ sort → value ≤ most_places) }
    ensures { Added syms.old n name line sort value letter syms.new }
{
    let i = Symbols::WORDS * n;
    syms[i] = name;
    syms[i + Symbols::LINE] = line;
    syms[i + Symbols::SORT] = sort;
    syms[i + Symbols::VALUE] = value;
    syms[i + Symbols::LETTER] = letter;
}

impl<'a> SymbolList<'a> {
    // The first symbol of name k from symbol `from` on, or n. Two a turn: a loop of one is short enough that its speed hangs on where it lies.
    pub fn next_named(&self, from: usize, k: u64) -> usize
        requires { from ≤ self.now.n }
        ensures { Next self.now.words.now self.now.n from k result }
    {
        let mut i = from;
        while i + 1 < self.n {
            let b = Symbols::WORDS * i;
            if self.words[b] == k {
                return i;
            }
            if self.words[b + Symbols::WORDS] == k {
                return i + 1;
            }
            i += 2;
        }
        if i == self.n {
            return self.n;
        }
        if self.words[Symbols::WORDS * i] == k {
            return i;
        }
        self.n
    }

    // The first of them that stands above a line.
    pub fn next_above(&self, from: usize, k: u64, line: u64) -> usize
        requires { from ≤ self.now.n }
        ensures { NextAbove self.now.words.now self.now.n from k line result }
    {
        let mut i = self.next_named(from, k);
        while i < self.n {
            if self.words[Symbols::WORDS * i + Symbols::LINE] < line {
                return i;
            }
            i = self.next_named(i + 1, k);
        }
        i
    }

    // The first of them whose sort lies from lo to hi.
    pub fn next_of(&self, from: usize, k: u64, lo: u64, hi: u64) -> usize
        requires { from ≤ self.now.n }
        ensures { NextOf self.now.words.now self.now.n from k lo hi result }
    {
        let mut i = self.next_named(from, k);
        while i < self.n {
            if is_among(lo, hi, self.words[Symbols::WORDS * i + Symbols::SORT]) {
                return i;
            }
            i = self.next_named(i + 1, k);
        }
        i
    }

    // A field of name k from symbol `from` on has the sort.
    pub fn has_sort_from(&self, from: usize, k: u64, sort: u64) -> bool
        requires { (from ≤ self.now.n) × (sort ≤ last_sort) }
        ensures { result ≡ has_sort (sort_at sort) (named_from self.now.words.now self.now.n from k) }
    {
        self.next_of(from, k, sort, sort) < self.n
    }

    // A field of name k has the sort.
    pub fn has_sort(&self, k: u64, sort: u64) -> bool
        requires { sort ≤ last_sort }
        ensures { result ≡ has_sort (sort_at sort) (fields_named k (symbols_in self.now.words.now self.now.n)) }
    {
        self.has_sort_from(0, k, sort)
    }
}
