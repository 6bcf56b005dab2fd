//! A tree that keeps in memory which of its files were aged: what tests look at. A tree in memory has no times, so this is all
//! that ageing does there.
ghost use Rattle.std.specs.Prelude.{◌≡◌, [], map};

use crate::{Backdating, Tree, TreeFault};
use std::alloc::Global;

/// Passes calls on to a tree, and keeps the paths that were aged.
#[derive(Drop)]
pub struct BackdatingTree<T> {
    inner: T,
    backdated: Vec<Vec<u8>>,
}

impl<T: Drop> BackdatingTree<T> {
    /// A tree of which nothing was aged yet.
    pub fn new(alloc: Global, inner: T) -> BackdatingTree<T>
        ensures inner { result.inner ≡ inner }
        ensures backdated { result.backdated.items ≡ [] }
    {
        BackdatingTree {
            inner,
            backdated: Vec::new(alloc),
        }
    }

    /// The paths that were aged, in turn.
    pub fn backdated(&self) -> &[Vec<u8>]
        ensures { result.now ≡ self.now.backdated.items }
    {
        &self.backdated
    }

    /// The tree, as the calls have left it.
    pub fn into_inner(self) -> T
        ensures { result ≡ self.inner }
    {
        self.inner
    }
}

impl<T: Tree + Drop> Tree for BackdatingTree<T> {
    ghost files = { λ t. T.files t.inner };

    ghost is_honest = { T.is_honest };

    ghost failures = { λ t. T.failures t.inner };

    ghost backdated = { λ t. map (λ path. path.items) t.backdated.items };

    fn read(&mut self, alloc: Global, path: &[u8]) -> Result<Option<Vec<u8>>, TreeFault> {
        self.inner.read(alloc, path)
    }

    fn read_at(
        &mut self,
        alloc: Global,
        path: &[u8],
        offset: u64,
        into: &mut [u8],
    ) -> Result<Option<usize>, TreeFault> {
        self.inner.read_at(alloc, path, offset, into)
    }

    fn write(&mut self, alloc: Global, path: &[u8], bytes: &[u8]) -> Result<(), TreeFault> {
        self.inner.write(alloc, path, bytes)
    }

    fn create(&mut self, alloc: Global, path: &[u8], bytes: &[u8]) -> Result<(), TreeFault> {
        self.inner.create(alloc, path, bytes)
    }

    fn rename(&mut self, alloc: Global, from: &[u8], to: &[u8]) -> Result<(), TreeFault> {
        self.inner.rename(alloc, from, to)
    }

    fn seed(&self) -> u64 {
        self.inner.seed()
    }
}

impl<T: Tree + Drop> Backdating for BackdatingTree<T> {
    fn backdate(&mut self, alloc: Global, path: &[u8]) -> Result<(), TreeFault> {
        let path = path.to_vec(alloc)?;
        self.backdated.push(path)?;
        Ok(())
    }
}
