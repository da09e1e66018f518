// What a name means where it is used [S Cards] [M 12].
ghost use Rattle.std.specs.Prelude.{◌≡◌, false, [], ◌+◌, ◌*◌, ◌<◌, ◌≤◌, get_or};
ghost use Rattle.base.specs.Test.{◌and◌};
ghost use Rattle.language.specs.Symbol.{meaning, meaning_by, global_meaning, all_placed, is_lacking};
ghost use Rattle.asm_types.specs.Views.{meaning_view, sort_at, symbol_at, symbols_in};
ghost use Rattle.asm_symbols.specs.Symbolic.{Fits, last_sort, first_placed};
ghost use Rattle.asm_symbols.specs.Walk.{declares, from_sort, named_from, placed_first};

use crate::fields::is_among;
use crate::list::SymbolList;
use asm_types::{Equal, Meaning, Placed, Placeless, Sort, Symbols};

// A meaning is a declaration without its place.
fn is_lacking(m: Meaning) -> bool
    ensures { result ≡ is_lacking (meaning_view m) }
{
    match m {
        Meaning::Undefined => false,
        Meaning::Sortless => false,
        Meaning::ExternalOf(_) => false,
        Meaning::AddressOf(_) => false,
        Meaning::ValueOf(_) => false,
        Meaning::PlaceOf(_) => false,
        Meaning::Lacking(_) => true,
    }
}

impl<'a> SymbolList<'a> {
    // The place among the fields from symbol `from` on whose sort lies from lo to hi; a field of sort `declared` asks for it.
    fn place_from(
        &self,
        from: usize,
        k: u64,
        lo: u64,
        hi: u64,
        declared: u64,
        global: bool,
    ) -> Meaning
        requires { (from ≤ self.now.n) × (first_placed ≤ lo) × (declared ≤ last_sort) }
        ensures { (meaning_view result ≡ placed_first (from_sort lo hi (named_from self.now.words.now self.now.n from k)) (sort_at declared) global) × Fits result }
    {
        let i = self.next_of(from, k, lo, hi);
        if i == self.n {
            return Meaning::Lacking(Placeless {
                sort: declared,
                global,
            });
        }
        let b = Symbols::WORDS * i;
        Meaning::PlaceOf(Placed {
            sort: self.words[b + Symbols::SORT],
            place: self.words[b + Symbols::VALUE],
            global,
        })
    }

    // A GLB's place: an RTN where an INR declares the name too, else the first card that may carry a label.
    fn global_meaning(&self, from: usize, k: u64) -> Meaning
        requires { from ≤ self.now.n }
        ensures { (meaning_view result ≡ global_meaning (named_from self.now.words.now self.now.n from k)) × Fits result }
    {
        if self.has_sort_from(from, k, Sort::ROUTINE) {
            return self.place_from(from, k, Sort::RETURNS, Sort::RETURNS, Sort::ROUTINE, true);
        }
        self.place_from(from, k, Sort::ENTRY, Sort::PLAIN, Sort::GLOBAL, true)
    }

    // The meaning by the first field, symbol i, of a sort that declares nothing.
    fn own_meaning(&self, i: usize, sort: u64) -> Meaning
        requires { (i < self.now.n) × (sort ≡ get_or self.now.words.now (5 * i + 2) 0) × (declares sort ≡ false) }
        ensures { (meaning_view result ≡ meaning_by (sort_at sort) (symbol_at self.now.words.now i) []) × Fits result }
    {
        let b = Symbols::WORDS * i;
        let value = self.words[b + Symbols::VALUE];
        if sort == Sort::BARE {
            return Meaning::Sortless;
        }
        if sort == Sort::EXTERNAL {
            return Meaning::ExternalOf(value);
        }
        if sort == Sort::EQUAL {
            return Meaning::ValueOf(Equal {
                value,
                line: self.words[b + Symbols::LINE],
            });
        }
        if sort == Sort::WORD {
            return Meaning::AddressOf(value);
        }
        Meaning::PlaceOf(Placed {
            sort,
            place: value,
            global: false,
        })
    }

    // The meaning by the first field, symbol i, and the later fields of the name.
    fn field_meaning(&self, i: usize, k: u64) -> Meaning
        requires { i < self.now.n }
        ensures { (meaning_view result ≡ meaning_by (sort_at (get_or self.now.words.now (5 * i + 2) 0)) (symbol_at self.now.words.now i) (named_from self.now.words.now self.now.n (i + 1) k)) × Fits result }
    {
        let sort = self.words[Symbols::WORDS * i + Symbols::SORT];
        if sort == Sort::INTERNAL {
            return self.place_from(
                i + 1,
                k,
                Sort::PROCEDURE,
                Sort::PROCEDURE,
                Sort::INTERNAL,
                false,
            );
        }
        if sort == Sort::ROUTINE {
            let g = self.has_sort_from(i + 1, k, Sort::GLOBAL);
            return self.place_from(i + 1, k, Sort::RETURNS, Sort::RETURNS, Sort::ROUTINE, g);
        }
        if sort == Sort::GLOBAL {
            return self.global_meaning(i + 1, k);
        }
        self.own_meaning(i, sort)
    }

    // What name k means.
    pub fn meaning(&self, k: u64) -> Meaning
        ensures { (meaning_view result ≡ meaning (symbols_in self.now.words.now self.now.n) k) × Fits result }
    {
        let i = self.next_named(0, k);
        if i == self.n {
            return Meaning::Undefined;
        }
        self.field_meaning(i, k)
    }

    // Symbol i declares a place, and its name lacks it.
    fn declares_lacking(&self, i: usize) -> bool
        requires { i < self.now.n }
        ensures { result ≡ (declares (get_or self.now.words.now (5 * i + 2) 0) and is_lacking (meaning (symbols_in self.now.words.now self.now.n) (get_or self.now.words.now (5 * i) 0))) }
    {
        let b = Symbols::WORDS * i;
        if !is_among(Sort::INTERNAL, Sort::GLOBAL, self.words[b + Symbols::SORT]) {
            return false;
        }
        is_lacking(self.meaning(self.words[b]))
    }

    // Each INP, INR and GLB has its place [S 8]. Only a field that declares can be the first of a name that lacks one.
    pub fn all_placed(&self) -> bool
        ensures { result ≡ all_placed (symbols_in self.now.words.now self.now.n) (symbols_in self.now.words.now self.now.n) }
    {
        for i in 0..self.n {
            if self.declares_lacking(i) {
                return false;
            }
        }
        true
    }
}
