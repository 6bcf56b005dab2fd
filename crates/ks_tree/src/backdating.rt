//! Trees that can make a file older than all others, so that make builds anew what it takes for up to date, whatever a clock
//! said. What the file holds stays as it is.
ghost use Rattle.std.specs.Prelude.{◌≡◌, ◌⊎◌, ◌≤◌, [], ◌∷◌, ◌++◌, OnOk, OnErr, IsErrOf};
ghost use Rattle.ks_tree.specs.declared.fault.TreeFault.{TreeFault};
ghost use Rattle.ks_tree.specs.Files.{HasRisen};

use crate::{Tree, TreeFault};
use std::alloc::Global;

/// A tree that ages files.
pub trait Backdating: Tree {
    /// Makes the file at a path older than all others. Where there is none, nothing happens to it, and all is well then too: make
    /// builds what is missing. After `Device` it has aged, or nothing has changed.
    fn backdate(&mut self, alloc: Global, path: &[u8]) -> Result<(), TreeFault>
        ensures backdated { Self.is_honest → OnOk result (Self.backdated self.new ≡ Self.backdated self.old ++ path.now ∷ []) }
        ensures failed { Self.is_honest → OnErr result ((Self.backdated self.new ≡ Self.backdated self.old) ⊎ (Self.backdated self.new ≡ Self.backdated self.old ++ path.now ∷ [])) }
        ensures refused { Self.is_honest → IsErrOf result TreeFault.OutOfMemory → Self.backdated self.new ≡ Self.backdated self.old }
        ensures unchanged { Self.is_honest → Self.files self.new ≡ Self.files self.old }
        ensures never { IsErrOf result TreeFault.TooLarge → ⊥ }
        ensures later { Self.failures self.old ≤ Self.failures self.new }
        ensures passed { OnOk result (Self.failures self.new ≡ Self.failures self.old) }
        ensures uncounted { IsErrOf result TreeFault.OutOfMemory → Self.failures self.new ≡ Self.failures self.old }
        ensures cause { IsErrOf result TreeFault.Device → HasRisen (Self.failures self.old) (Self.failures self.new) };
}
