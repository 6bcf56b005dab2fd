//! The system, as a command comes to its directory by it. Each call is one of the system's, or of the module that makes it.
use crate::directory_lock::lock_directory;
use crate::lost_numbers::find_loss;
use ks_session::{DirectoryLock, FoundFile, Host, Loss};
use ks_system::FolderTree;
use std::alloc::{AllocError, Global};
use std::fs::{File, TryLockError};
use std::hash::{BuildHasher, Hasher, RandomState};
use std::io::ErrorKind;
use std::rt::Files;
use std::{fs, io};

/// Looks whether there is such a directory. An empty path is the current one.
fn look_at_directory(files: &impl Files, directory: &str) -> io::Result<()> {
    if directory.is_empty() || fs::metadata(files, directory)?.is_dir() {
        return Ok(());
    }
    Err(io::Error::new(ErrorKind::NotADirectory, "Not a directory"))
}

/// The system that runs the program.
#[derive(Drop)]
pub(crate) struct OwnHost<'a> {
    rt: &'a HostRuntime,
}

impl<'a> OwnHost<'a> {
    pub(crate) fn new(rt: &'a HostRuntime) -> OwnHost<'a> {
        OwnHost { rt }
    }
}

impl<'a> Host for OwnHost<'a> {
    type WorkTree = FolderTree<&'a HostRuntime>;

    type Lock = File;

    fn look(&self, directory: &str) -> io::Result<()> {
        look_at_directory(self.rt, directory)
    }

    fn draw_seed(&self) -> Option<u64> {
        let random = RandomState::new(self.rt).ok()?;
        Some(random.build_hasher().finish())
    }

    fn open(
        &self,
        alloc: Global,
        directory: &str,
        seed: u64,
    ) -> Result<FolderTree<&'a HostRuntime>, AllocError> {
        let root = String::from_str(alloc, directory)?;
        Ok(FolderTree::new(self.rt, root).with_seed(seed))
    }

    fn lock(
        &self,
        work_tree: &mut FolderTree<&'a HostRuntime>,
        directory: &str,
        lock: DirectoryLock,
        seconds: u64,
    ) -> Result<Option<File>, TryLockError> {
        let locked = lock_directory(self.rt, directory, lock, seconds)?;
        if matches!(lock, DirectoryLock::Exclusive) && locked.is_some() {
            work_tree.claim_stamps();
        }
        Ok(locked)
    }

    fn find_loss(
        &self,
        _alloc: Global,
        work_tree: &mut FolderTree<&'a HostRuntime>,
        directory: &str,
    ) -> Result<Option<Loss>, AllocError> {
        find_loss(self.rt, work_tree, directory)
    }

    fn hold(&self, work_tree: &mut FolderTree<&'a HostRuntime>, file: FoundFile) {
        work_tree.hold(file.path, file.text);
    }
}
