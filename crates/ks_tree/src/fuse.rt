//! A tree whose calls fail by a count, with which tests break every command off between any two of its calls. It keeps the
//! contract of the tree that it passes the calls on to.
ghost use Rattle.std.specs.Prelude.{◌≡◌, ◌≢◌, ◌+◌, ◌≤◌, IsErrOf};
ghost use Rattle.ks_tree.specs.Files.{HasRisen};

use crate::{Backdating, Tree, TreeFault};
use std::alloc::Global;

/// What the first failing call leaves. Each later one does nothing.
#[derive(Clone, Copy, Debug, PartialEq, Eq)]
pub enum FuseMode {
    /// It did nothing.
    Clean,
    /// A write or a creation has left the first half of its bytes, and a rename has happened, or a file was aged.
    Half,
}

/// What becomes of a call.
#[derive(Clone, Copy, Debug, PartialEq, Eq)]
enum Turn {
    Pass,
    Fail,
    /// It fails, and half of it has happened.
    HalfDone,
}

/// How many calls pass, how many then fail (all, where no number is given), and how many have failed.
#[derive(Clone, Copy, Debug)]
struct Fuse {
    passes: u64,
    fails: Option<u64>,
    mode: FuseMode,
    failed: u64,
}

/// Passes calls on to a tree until its fuse blows.
#[derive(Drop)]
pub struct FuseTree<T> {
    inner: T,
    fuse: Fuse,
}

impl Fuse {
    ghost use Rattle.ks_tree.specs.Fuse.{turn_of, after_call};

    /// Counts a call, and tells what becomes of it.
    fn turn(&mut self) -> Turn
        ensures turn { result ≡ turn_of self.old }
        ensures after { self.new ≡ after_call self.old }
        ensures later { self.old.failed ≤ self.new.failed }
        ensures counted { result ≢ Turn.Pass → HasRisen self.old.failed self.new.failed }
    {
        if self.passes > 0 {
            self.passes -= 1;
            return Turn::Pass;
        }
        match self.fails {
            Some(0) => return Turn::Pass,
            Some(left) => self.fails = Some(left - 1),
            None => {}
        }
        let is_first = self.failed == 0;
        self.failed = self.failed.saturating_add(1);
        if is_first && self.mode == FuseMode::Half {
            Turn::HalfDone
        } else {
            Turn::Fail
        }
    }
}

impl<T: Drop> FuseTree<T> {
    ghost use Rattle.ks_tree.specs.Fuse.{inner_of, fuse_of, fresh_fuse};

    /// Passes that many calls on, then fails the next `fails` calls with `Device` (`None`: all that follow), and passes the rest.
    pub fn new(inner: T, passes: u64, fails: Option<u64>, mode: FuseMode) -> FuseTree<T>
        ensures inner { inner_of result ≡ inner }
        ensures fuse { fuse_of result ≡ fresh_fuse passes fails mode }
    {
        FuseTree {
            inner,
            fuse: Fuse {
                passes,
                fails,
                mode,
                failed: 0,
            },
        }
    }

    /// The tree, as the calls have left it.
    pub fn into_inner(self) -> T
        ensures { result ≡ inner_of self }
    {
        self.inner
    }
}

impl<T: Tree + Drop> Tree for FuseTree<T> {
    ghost use Rattle.ks_tree.specs.declared.fault.TreeFault.{TreeFault};
    ghost use Rattle.ks_tree.specs.Fuse.{CreatesAt, IsFuseCall, OnlyReadsAt, RenamesAt, WritesAt, fuse_of, inner_of, turn_of};

    ghost files = { λ t. T.files t.inner };

    ghost is_honest = { T.is_honest };

    ghost failures = { λ t. T.failures t.inner + t.fuse.failed };

    ghost backdated = { λ t. T.backdated t.inner };

    ghost reads_whole = { λ old path new answer. IsFuseCall T.Tree old new (IsErrOf answer TreeFault.Device)
        × OnlyReadsAt (turn_of (fuse_of old)) (T.reads_whole (inner_of old) path (inner_of new) answer) (inner_of old) (inner_of new) };

    ghost reads_at = { λ old path offset new answer. IsFuseCall T.Tree old new (IsErrOf answer TreeFault.Device)
        × OnlyReadsAt (turn_of (fuse_of old)) (T.reads_at (inner_of old) path offset (inner_of new) answer) (inner_of old) (inner_of new) };

    ghost writes = { λ old path bytes new answer. IsFuseCall T.Tree old new (IsErrOf answer TreeFault.Device)
        × WritesAt (turn_of (fuse_of old)) T.Tree (inner_of old) path bytes (inner_of new) answer };

    ghost creates = { λ old path bytes new answer. IsFuseCall T.Tree old new (IsErrOf answer TreeFault.Device)
        × CreatesAt (turn_of (fuse_of old)) T.Tree (inner_of old) path bytes (inner_of new) answer };

    ghost renames = { λ old from to new answer. IsFuseCall T.Tree old new (IsErrOf answer TreeFault.Device)
        × RenamesAt (turn_of (fuse_of old)) T.Tree (inner_of old) from to (inner_of new) answer };

    fn read(&mut self, alloc: Global, path: &[u8]) -> Result<Option<Vec<u8>>, TreeFault> {
        match self.fuse.turn() {
            Turn::Pass => self.inner.read(alloc, path),
            Turn::Fail | Turn::HalfDone => Err(TreeFault::Device),
        }
    }

    fn read_at(
        &mut self,
        alloc: Global,
        path: &[u8],
        offset: u64,
        into: &mut [u8],
    ) -> Result<Option<usize>, TreeFault> {
        match self.fuse.turn() {
            Turn::Pass => self.inner.read_at(alloc, path, offset, into),
            Turn::Fail | Turn::HalfDone => Err(TreeFault::Device),
        }
    }

    fn write(&mut self, alloc: Global, path: &[u8], bytes: &[u8]) -> Result<(), TreeFault> {
        match self.fuse.turn() {
            Turn::Pass => self.inner.write(alloc, path, bytes),
            Turn::Fail => Err(TreeFault::Device),
            Turn::HalfDone => {
                let _ = self.inner.write(alloc, path, &bytes[..bytes.len() / 2]);
                Err(TreeFault::Device)
            }
        }
    }

    fn create(&mut self, alloc: Global, path: &[u8], bytes: &[u8]) -> Result<(), TreeFault> {
        match self.fuse.turn() {
            Turn::Pass => self.inner.create(alloc, path, bytes),
            Turn::Fail => Err(TreeFault::Device),
            Turn::HalfDone => {
                let _ = self.inner.create(alloc, path, &bytes[..bytes.len() / 2]);
                Err(TreeFault::Device)
            }
        }
    }

    fn rename(&mut self, alloc: Global, from: &[u8], to: &[u8]) -> Result<(), TreeFault> {
        match self.fuse.turn() {
            Turn::Pass => self.inner.rename(alloc, from, to),
            Turn::Fail => Err(TreeFault::Device),
            Turn::HalfDone => {
                let _ = self.inner.rename(alloc, from, to);
                Err(TreeFault::Device)
            }
        }
    }

    fn seed(&self) -> u64 {
        self.inner.seed()
    }
}

impl<T: Backdating + Drop> Backdating for FuseTree<T> {
    fn backdate(&mut self, alloc: Global, path: &[u8]) -> Result<(), TreeFault> {
        match self.fuse.turn() {
            Turn::Pass => self.inner.backdate(alloc, path),
            Turn::Fail => Err(TreeFault::Device),
            Turn::HalfDone => {
                let _ = self.inner.backdate(alloc, path);
                Err(TreeFault::Device)
            }
        }
    }
}
