// Which repeats of a name are one use, and what an INP declares [S 3] [S 6].
ghost use Rattle.std.specs.Prelude.{◌≡◌, ◌≤◌};
ghost use Rattle.language.specs.Symbol.{above, declared_count, fields_named, is_declared_so, is_one_use, pairs};
ghost use Rattle.asm_types.specs.Views.{parsed_view, sort_at, symbols_in};
ghost use Rattle.asm_symbols.specs.Symbolic.{FitsCount, last_sort};
ghost use Rattle.asm_symbols.specs.Walk.{pairs_by, two_by};

use crate::fields::is_among;
use crate::list::SymbolList;
use asm_types::{Sort, Symbols};

// A field of sort b is one use with a field of sort a.
fn is_pair(a: u64, b: u64) -> bool
    ensures { result ≡ pairs_by a b }
{
    if a == Sort::INTERNAL {
        return b == Sort::PROCEDURE;
    }
    if a == Sort::ROUTINE {
        if b == Sort::GLOBAL {
            return true;
        }
        return b == Sort::RETURNS;
    }
    if a == Sort::GLOBAL {
        if b == Sort::ROUTINE {
            return true;
        }
        return is_among(Sort::ENTRY, Sort::PLAIN, b);
    }
    false
}

// Two fields are an INR and a GLB.
fn is_routine_global(a: u64, b: u64) -> bool
    ensures { result ≡ two_by a b }
{
    if a == Sort::ROUTINE {
        return b == Sort::GLOBAL;
    }
    if a == Sort::GLOBAL {
        return b == Sort::ROUTINE;
    }
    false
}

impl<'a> SymbolList<'a> {
    // A field of this sort on this line is one use with the fields of the name above it.
    pub fn is_one_use(&self, line: u64, k: u64, sort: u64) -> bool
        requires { sort ≤ last_sort }
        ensures { result ≡ is_one_use (above line (fields_named k (symbols_in self.now.words.now self.now.n))) (sort_at sort) }
    {
        let i = self.next_above(0, k, line);
        if i == self.n {
            return true;
        }
        let a = self.words[Symbols::WORDS * i + Symbols::SORT];
        let j = self.next_above(i + 1, k, line);
        if j == self.n {
            return is_pair(a, sort);
        }
        let b = self.words[Symbols::WORDS * j + Symbols::SORT];
        let h = self.next_above(j + 1, k, line);
        if h < self.n {
            return false;
        }
        if sort != Sort::RETURNS {
            return false;
        }
        is_routine_global(a, b)
    }

    // The first field of name k is an INP with this type and count.
    pub fn declared_so(&self, k: u64, letter: u64, count: u64) -> bool
        ensures { result ≡ is_declared_so (fields_named k (symbols_in self.now.words.now self.now.n)) letter count }
    {
        let i = self.next_named(0, k);
        if i == self.n {
            return false;
        }
        let b = Symbols::WORDS * i;
        if self.words[b + Symbols::SORT] != Sort::INTERNAL {
            return false;
        }
        if self.words[b + Symbols::LETTER] != letter {
            return false;
        }
        self.words[b + Symbols::VALUE] == count
    }

    // The count that an INP declares for name k.
    pub fn declared_count(&self, k: u64) -> Option<u64>
        ensures { (parsed_view result ≡ declared_count (fields_named k (symbols_in self.now.words.now self.now.n))) × FitsCount result }
    {
        let i = self.next_named(0, k);
        if i == self.n {
            return None;
        }
        let b = Symbols::WORDS * i;
        if self.words[b + Symbols::SORT] != Sort::INTERNAL {
            return None;
        }
        Some(self.words[b + Symbols::VALUE])
    }
}
