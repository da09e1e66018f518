// The symbols that are stored, as the functions that read them take them.
ghost use Rattle.asm_symbols.specs.Symbolic.{Symbolic};

// n symbols in a list of words.
#[derive(Clone, Copy)]
pub struct SymbolList<'a> {
    pub words: &'a [u64],
    pub n: usize,
    ghost symbolic: { Symbolic words.now n },
}
