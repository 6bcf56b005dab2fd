//! Trees of which a contract can say what was read. A command that read one file more than its arguments name would be refused for
//! a file that is none of its business, and one that read a file twice could meet two texts under one name.
//!
//! So what reads the files of arguments is generic over any such tree: what it knows of a reading comes of one call alone.
ghost use Rattle.std.specs.Prelude.{◌≡◌, ◌≤◌, ℕ, List, length, IfOk, IsErrOf, OnOk, Some, option_map, ⊤};
ghost use Rattle.ks_symbols.specs.Lines.{max_bytes};
ghost use Rattle.ks_tree.specs.declared.fault.TreeFault.{TreeFault};
ghost use Rattle.ks_tree.specs.Files.{HasRisen, IsTooLarge, content};

use ks_tree::{Tree, TreeFault};
use std::alloc::Global;

/// A tree that tells a reading from all else that is asked of it.
pub trait Reading: Tree {
    /// What a reading is known to do: of the tree, the path, and the tree after the call. In a contract over any tree it says
    /// that this one call was made and no other one between the two, since nothing else gives it.
    ghost reads: { Self → List ℕ → Self → Type 0 } = { λ old path new. ⊤ };

    /// Reads a file, as `Tree::read` does.
    fn read_file(&mut self, alloc: Global, path: &[u8]) -> Result<Option<Vec<u8>>, TreeFault>
        ensures called { reads self.old path.now self.new }
        ensures found { Self.is_honest → IfOk result (λ found. option_map (λ v. v.items) found ≡ content (Self.files self.old) path.now) }
        ensures small { Self.is_honest → IfOk result (λ found. (b : List ℕ) → content (Self.files self.old) path.now ≡ Some b → length b ≤ max_bytes) }
        ensures too_large { Self.is_honest → IsErrOf result TreeFault.TooLarge → IsTooLarge (content (Self.files self.old) path.now) }
        ensures unchanged { Self.is_honest → Self.files self.new ≡ Self.files self.old }
        ensures kept { Self.backdated self.new ≡ Self.backdated self.old }
        ensures later { Self.failures self.old ≤ Self.failures self.new }
        ensures passed { OnOk result (Self.failures self.new ≡ Self.failures self.old) }
        ensures uncounted { IsErrOf result TreeFault.OutOfMemory → Self.failures self.new ≡ Self.failures self.old }
        ensures cause { IsErrOf result TreeFault.Device → HasRisen (Self.failures self.old) (Self.failures self.new) };
}

impl<T: Tree> Reading for T {
    fn read_file(&mut self, alloc: Global, path: &[u8]) -> Result<Option<Vec<u8>>, TreeFault> {
        self.read(alloc, path)
    }
}
