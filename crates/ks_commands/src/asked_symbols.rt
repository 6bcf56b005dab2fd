//! The symbols that a question asks for. They may be as many as a kernel has, and each name of each command file is looked for
//! among them. So they stand in order, and a name is looked for by halves: no list of symbols makes the time grow with its
//! length times that of the command files.
ghost use Rattle.std.specs.Prelude.{map};
ghost use Rattle.std.specs.Ordering.{nat_cmp};
ghost use Rattle.std.specs.Cmp.Lexicographic.{slice_cmp};
ghost use Rattle.std.specs.List.Sorted.{IsSortedByKey};
ghost use Rattle.std.proofs.Props.{props};

/// The symbols that are asked for, in order. One may stand there twice.
#[derive(Drop)]
pub(crate) struct AskedSymbols<'a> {
    symbols: Vec<&'a [u8]>,
    ghost in_order: { IsSortedByKey (λ s. s.now) (slice_cmp nat_cmp) symbols.items } by { Prim.hlevel props },
}

impl<'a> AskedSymbols<'a> {
    ghost use Rattle.std.specs.Prelude.{◌≡◌, ℕ, List};
    ghost use Rattle.ks_symbols.specs.Names.{is_in};
    ghost use Rattle.ks_commands.specs.AskedSymbols.{symbols_in};

    /// These symbols, given in any order.
    pub(crate) fn new(mut symbols: Vec<&'a [u8]>) -> AskedSymbols<'a>
        ensures { (x : List ℕ) → is_in (symbols_in result) x ≡ is_in (map (λ s. s.now) symbols.entry.items) x }
    {
        symbols.sort_unstable();
        AskedSymbols { symbols }
    }

    /// Whether a name is one of the symbols.
    pub(crate) fn is_asked(&self, name: &[u8]) -> bool
        ensures { result ≡ is_in (symbols_in self.now) name.now }
    {
        self.symbols.binary_search(&name).is_ok()
    }
}
