//! A tree of files, by what each of its calls may do. Everything above this crate stands on this contract alone, so that it
//! holds of a tree in memory, of one whose calls fail, and of a directory that acts as it says.
ghost use Rattle.std.specs.Prelude.{◌≡◌, ◌≢◌, ◌⊎◌, ◌<◌, ◌≤◌, ℕ, List, [], Option, Result, Vec, length, Some, None, IsSome, IfSome, IfOk, OnOk, OnErr, IsErrOf, option_map, ⊤};
ghost use Rattle.std.specs.declared.alloc.Global.{Global};
ghost use Rattle.ks_symbols.specs.Lines.{max_bytes};
ghost use Rattle.ks_tree.specs.declared.fault.TreeFault.{TreeFault};
ghost use Rattle.ks_tree.specs.Files.{Files, content, kept_or, SameBut, IsHalfCreated, IsMoved, IsTooLarge, IsReadAt, HasRisen};

use crate::TreeFault;
use std::alloc::Global;

/// Files by their paths. A path is any bytes.
pub trait Tree {
    /// The files, by the bytes of their paths.
    ghost files: { Self → Files };

    /// It does what is asked of it, and nobody else writes it.
    ghost is_honest: { Type 0 };

    /// How often the device has failed.
    ghost failures: { Self → ℕ };

    /// The paths whose files were made older than all others, in turn, of a tree that can (`Backdating`).
    ghost backdated: { Self → List (List ℕ) } = { λ tree. [] };

    /// What a reading of a whole file is known to do: of the tree, the path, the tree after the call and its answer. In a contract
    /// over any tree it says that the call was made, since nothing else gives it.
    ghost reads_whole: { Self → List ℕ → Self → Result (Option (Vec ℕ Global)) TreeFault → Type 0 } = { λ old path new answer. ⊤ };

    /// What a reading from an offset on is known to do, as `reads_whole`: of the tree, the path, the offset, the tree after the call
    /// and its answer.
    ghost reads_at: { Self → List ℕ → ℕ → Self → Result (Option ℕ) TreeFault → Type 0 } = { λ old path offset new answer. ⊤ };

    /// What a write is known to do, as `reads_whole`: of the tree, the path, the bytes, the tree after the call and its answer.
    ghost writes: { Self → List ℕ → List ℕ → Self → Result Unit TreeFault → Type 0 } = { λ old path bytes new answer. ⊤ };

    /// What a creation is known to do, as `writes`.
    ghost creates: { Self → List ℕ → List ℕ → Self → Result Unit TreeFault → Type 0 } = { λ old path bytes new answer. ⊤ };

    /// What a rename is known to do, as `writes`: of the tree, both paths, the tree after the call and its answer.
    ghost renames: { Self → List ℕ → List ℕ → Self → Result Unit TreeFault → Type 0 } = { λ old from to new answer. ⊤ };

    /// The bytes of a file, or `None` where there is no file.
    fn read(&mut self, alloc: Global, path: &[u8]) -> Result<Option<Vec<u8>>, TreeFault>
        ensures found { is_honest → IfOk result (λ found. option_map (λ v. v.items) found ≡ content (files self.old) path.now) }
        ensures called { reads_whole self.old path.now self.new result }
        ensures small { is_honest → IfOk result (λ found. (b : List ℕ) → content (files self.old) path.now ≡ Some b → length b ≤ max_bytes) }
        ensures too_large { is_honest → IsErrOf result TreeFault.TooLarge → IsTooLarge (content (files self.old) path.now) }
        ensures unchanged { is_honest → files self.new ≡ files self.old }
        ensures kept { backdated self.new ≡ backdated self.old }
        ensures later { failures self.old ≤ failures self.new }
        ensures passed { OnOk result (failures self.new ≡ failures self.old) }
        ensures uncounted { IsErrOf result TreeFault.OutOfMemory → failures self.new ≡ failures self.old }
        ensures too_large_uncounted { IsErrOf result TreeFault.TooLarge → failures self.new ≡ failures self.old }
        ensures cause { IsErrOf result TreeFault.Device → HasRisen (failures self.old) (failures self.new) };

    /// Fills `into` with the bytes of a file from an offset on, and tells how many there were, or `None` where there is no file.
    /// After an error `into` may hold anything.
    fn read_at(
        &mut self,
        alloc: Global,
        path: &[u8],
        offset: u64,
        into: &mut [u8],
    ) -> Result<Option<usize>, TreeFault>
        ensures found { is_honest → IfOk result (IsReadAt (content (files self.old) path.now) offset into.old into.new) }
        ensures called { reads_at self.old path.now offset self.new result }
        ensures within { IfOk result (λ found. IfSome found (λ n. n ≤ length into.new)) }
        ensures unchanged { is_honest → files self.new ≡ files self.old }
        ensures kept { backdated self.new ≡ backdated self.old }
        ensures never { IsErrOf result TreeFault.TooLarge → ⊥ }
        ensures later { failures self.old ≤ failures self.new }
        ensures passed { OnOk result (failures self.new ≡ failures self.old) }
        ensures uncounted { IsErrOf result TreeFault.OutOfMemory → failures self.new ≡ failures self.old }
        ensures cause { IsErrOf result TreeFault.Device → HasRisen (failures self.old) (failures self.new) };

    /// Writes a whole file, in the place of what was there. After `Device` the path may hold anything, or nothing.
    fn write(&mut self, alloc: Global, path: &[u8], bytes: &[u8]) -> Result<(), TreeFault>
        ensures written { is_honest → OnOk result (content (files self.new) path.now ≡ Some bytes.now) }
        ensures called { writes self.old path.now bytes.now self.new result }
        ensures others { is_honest → SameBut path.now (files self.old) (files self.new) }
        ensures kept { backdated self.new ≡ backdated self.old }
        ensures refused { is_honest → IsErrOf result TreeFault.OutOfMemory → files self.new ≡ files self.old }
        ensures never { IsErrOf result TreeFault.TooLarge → ⊥ }
        ensures later { failures self.old ≤ failures self.new }
        ensures passed { OnOk result (failures self.new ≡ failures self.old) }
        ensures uncounted { IsErrOf result TreeFault.OutOfMemory → failures self.new ≡ failures self.old }
        ensures cause { IsErrOf result TreeFault.Device → HasRisen (failures self.old) (failures self.new) };

    /// Makes a file where there is none. One that is there stays as it is, and all is well then too. After `Device` a file that was
    /// made may hold a beginning of the bytes.
    fn create(&mut self, alloc: Global, path: &[u8], bytes: &[u8]) -> Result<(), TreeFault>
        ensures made { is_honest → OnOk result (content (files self.new) path.now ≡ Some (kept_or (content (files self.old) path.now) bytes.now)) }
        ensures called { creates self.old path.now bytes.now self.new result }
        ensures failed { is_honest → OnErr result (IsHalfCreated (content (files self.old) path.now) bytes.now (content (files self.new) path.now)) }
        ensures others { is_honest → SameBut path.now (files self.old) (files self.new) }
        ensures kept { backdated self.new ≡ backdated self.old }
        ensures refused { is_honest → IsErrOf result TreeFault.OutOfMemory → files self.new ≡ files self.old }
        ensures never { IsErrOf result TreeFault.TooLarge → ⊥ }
        ensures later { failures self.old ≤ failures self.new }
        ensures passed { OnOk result (failures self.new ≡ failures self.old) }
        ensures uncounted { IsErrOf result TreeFault.OutOfMemory → failures self.new ≡ failures self.old }
        ensures cause { IsErrOf result TreeFault.Device → HasRisen (failures self.old) (failures self.new) };

    /// Moves a file to a path, in the place of what was there. After `Device` it has moved, or nothing has changed.
    fn rename(&mut self, alloc: Global, from: &[u8], to: &[u8]) -> Result<(), TreeFault>
        requires differ { from.now ≢ to.now }
        requires there { is_honest → IsSome (content (files self.old) from.now) }
        ensures moved { is_honest → OnOk result (IsMoved from.now to.now (files self.old) (files self.new)) }
        ensures kept { backdated self.new ≡ backdated self.old }
        ensures called { renames self.old from.now to.now self.new result }
        ensures failed { is_honest → OnErr result ((files self.new ≡ files self.old) ⊎ IsMoved from.now to.now (files self.old) (files self.new)) }
        ensures refused { is_honest → IsErrOf result TreeFault.OutOfMemory → files self.new ≡ files self.old }
        ensures never { IsErrOf result TreeFault.TooLarge → ⊥ }
        ensures later { failures self.old ≤ failures self.new }
        ensures passed { OnOk result (failures self.new ≡ failures self.old) }
        ensures uncounted { IsErrOf result TreeFault.OutOfMemory → failures self.new ≡ failures self.old }
        ensures cause { IsErrOf result TreeFault.Device → HasRisen (failures self.old) (failures self.new) };

    /// A number that goes into the hash of the names and paths that its files hold. No answer depends on it. Where whoever writes
    /// the files can't know it, they can't choose names that collide.
    fn seed(&self) -> u64 {
        0
    }
}
