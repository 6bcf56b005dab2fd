//! The tree of a directory, over the system itself: what the program runs over.
ghost use Rattle.std.specs.Prelude.{◌≡◌};

use crate::{Claim, Host, SystemTree};
use std::os::unix::fs::FileExt;
use std::rt::Files;

/// The tree of a directory. A path that begins with `/` names that file itself, any other one below the directory.
pub type FolderTree<R> = SystemTree<Host<R>>;

impl<R: Files + Drop> SystemTree<Host<R>>
where
    R::File: Claim + FileExt,
{
    /// The tree of a directory. An empty root is the current one.
    pub fn new(files: R, root: String) -> FolderTree<R>
        ensures { result.failures ≡ 0 }
    {
        SystemTree::over(Host::new(files, root))
    }

    /// From now on the directory is locked for this program alone, so that no stamp needs a claim of its own.
    pub fn claim_stamps(&mut self)
        ensures failures { self.new.failures ≡ self.old.failures }
        ensures held { self.new.held ≡ self.old.held }
        ensures seed { self.new.seed ≡ self.old.seed }
    {
        self.system.claim_stamps();
    }
}
