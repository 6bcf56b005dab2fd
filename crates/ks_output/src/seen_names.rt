//! The names that came so far in a text, in which none may come again.
ghost use Rattle.std.specs.Prelude.{◌≡◌, ◌||◌, List, ℕ, IfOk, IsTrue, OnOk, [], bytes_eq, not};
ghost use Rattle.ks_symbols.specs.Names.{is_name};
ghost use Rattle.ks_output.specs.SeenNames.{is_in, with_name};

use indexmap::IndexSet;
use ks_symbols::{Seed, name_text};
use std::alloc::{AllocError, Global};
use std::marker::Model;

/// Legal names, each once.
#[derive(Drop)]
pub(crate) struct SeenNames {
    alloc: Global,
    names: IndexSet<String, Seed>,
}

impl Model for SeenNames {
    ghost use Rattle.std.specs.Prelude.{List, ℕ, map, string_bytes};

    ghost Value = { List (List ℕ) };

    ghost view = { λ s. map string_bytes s.names.keys };
}

impl SeenNames {
    /// No names, which are looked up by a seed.
    pub(crate) fn with_seed(alloc: Global, seed: Seed) -> SeenNames
        ensures { result ≡ [] }
    {
        SeenNames {
            alloc,
            names: IndexSet::with_hasher(alloc, seed),
        }
    }

    /// Notes a name, and tells whether it is new.
    pub(crate) fn note(&mut self, name: &[u8]) -> Result<bool, AllocError>
        requires { IsTrue (is_name name.now) }
        ensures new { IfOk result (λ new. new ≡ not (is_in name.now self.old)) }
        ensures kept { OnOk result (self.new ≡ with_name name.now self.old) }
        ensures noted { OnOk result ((x : List ℕ) → is_in x self.new ≡ (bytes_eq x name.now || is_in x self.old)) }
    {
        let owned = String::from_str(self.alloc, name_text(name))?;
        let is_new = self.names.insert(owned)?;
        Ok(is_new)
    }
}
