//! Stamps that are missing. A build that lists the stamp of each found name as a prerequisite needs the file to be there; what
//! the tree says must not change by that. So a missing one is made with the number that it counts as already, and one that is
//! there, maybe since another program has just made it, is never replaced.
ghost use Rattle.std.specs.Prelude.{◌≡◌, ◌⊎◌, ℕ, [], Some, take, OnOk, OnErr, IsErrOf};
ghost use Rattle.ks_tree.specs.Frames.{Counted};
ghost use Rattle.ks_tree.specs.Files.{content, kept_or, SameBut};
ghost use Rattle.ks_tree.specs.Paths.{stamp_path};
ghost use Rattle.ks_tree.specs.Stamps.{MakesStamps};

use crate::paths::stamp_path;
use crate::{Tree, TreeFault};
use ks_symbols::Name;
use std::alloc::Global;

/// Makes the stamp of a name, unless there is one.
fn make_stamp<T: Tree>(alloc: Global, tree: &mut T, name: &Name) -> Result<(), TreeFault>
    ensures made { T.is_honest → OnOk result (content (T.files tree.new) (stamp_path name.now) ≡ Some (kept_or (content (T.files tree.old) (stamp_path name.now)) [])) }
    ensures old_or_made { T.is_honest → OnErr result
        ((content (T.files tree.new) (stamp_path name.now) ≡ content (T.files tree.old) (stamp_path name.now))
        ⊎ (content (T.files tree.new) (stamp_path name.now) ≡ Some (kept_or (content (T.files tree.old) (stamp_path name.now)) []))) }
    ensures others { T.is_honest → SameBut (stamp_path name.now) (T.files tree.old) (T.files tree.new) }
    ensures never { IsErrOf result TreeFault.TooLarge → ⊥ }
    ensures counted { Counted T.Tree tree.old tree.new (IsErrOf result TreeFault.Device) }
    ensures kept { T.backdated tree.new ≡ T.backdated tree.old }
    ensures passed { OnOk result (T.failures tree.new ≡ T.failures tree.old) }
    ensures uncounted { IsErrOf result TreeFault.OutOfMemory → T.failures tree.new ≡ T.failures tree.old }
{
    let path = stamp_path(alloc, name)?;
    tree.create(alloc, &path, b"")
}

/// Makes the missing stamps of names, in order, up to the first fault. They are empty, so their number is 0. One that is there
/// stays as it is: its number is the generation of a synchronisation.
pub fn make_stamps<T: Tree>(alloc: Global, tree: &mut T, names: &[Name]) -> Result<(), TreeFault>
    ensures all { T.is_honest → OnOk result (MakesStamps names.now (T.files tree.old) (T.files tree.new)) }
    // After a fault the stamps of a beginning of the names are made.
    ensures some { T.is_honest → OnErr result ((n : ℕ) × MakesStamps (take n names.now) (T.files tree.old) (T.files tree.new)) }
    ensures never { IsErrOf result TreeFault.TooLarge → ⊥ }
    ensures counted { Counted T.Tree tree.old tree.new (IsErrOf result TreeFault.Device) }
    ensures kept { T.backdated tree.new ≡ T.backdated tree.old }
    ensures passed { OnOk result (T.failures tree.new ≡ T.failures tree.old) }
    ensures uncounted { IsErrOf result TreeFault.OutOfMemory → T.failures tree.new ≡ T.failures tree.old }
{
    for name in names {
        make_stamp(alloc, tree, name)?;
    }
    Ok(())
}
