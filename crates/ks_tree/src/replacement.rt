//! Replacing a file whole. A build that is broken off must never find half a header or half an auto.conf, so the bytes are
//! written beside their place and moved there. Power loss is left out: nothing is synced to the disk.
ghost use Rattle.std.specs.Prelude.{◌≡◌, ◌≢◌, ◌↔◌, ◌⊎◌, ◌≤◌, Some, None, OnOk, OnErr, IsErrOf};
ghost use Rattle.ks_tree.specs.Frames.{Counted};
ghost use Rattle.ks_tree.specs.Files.{content, SameButBoth};

use crate::{Tree, TreeFault};
use std::alloc::Global;

/// Writes a file at a temporary path and moves it to its own, which so never holds a part of it.
pub fn replace<T: Tree>(
    alloc: Global,
    tree: &mut T,
    temporary: &[u8],
    path: &[u8],
    bytes: &[u8],
) -> Result<(), TreeFault>
    requires { temporary.now ≢ path.now }
    ensures written { T.is_honest → OnOk result (content (T.files tree.new) path.now ≡ Some bytes.now) }
    ensures gone { T.is_honest → OnOk result (content (T.files tree.new) temporary.now ≡ None) }
    ensures old_or_new { T.is_honest → OnErr result
        ((content (T.files tree.new) path.now ≡ content (T.files tree.old) path.now) ⊎ (content (T.files tree.new) path.now ≡ Some bytes.now)) }
    ensures others { T.is_honest → SameButBoth temporary.now path.now (T.files tree.old) (T.files tree.new) }
    ensures never { IsErrOf result TreeFault.TooLarge → ⊥ }
    ensures counted { Counted T.Tree tree.old tree.new (IsErrOf result TreeFault.Device) }
    ensures kept { T.backdated tree.new ≡ T.backdated tree.old }
    ensures passed { OnOk result (T.failures tree.new ≡ T.failures tree.old) }
    ensures uncounted { IsErrOf result TreeFault.OutOfMemory → T.failures tree.new ≡ T.failures tree.old }
{
    tree.write(alloc, temporary, bytes)?;
    tree.rename(alloc, temporary, path)
}
