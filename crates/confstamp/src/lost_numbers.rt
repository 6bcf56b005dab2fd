//! Whether a synchronisation would begin its numbers at 1 though files hold some: another tool has written auto.conf, without a
//! generation, or it was removed. An object that was recorded at a high number would then be called fresh until the numbers
//! have come as far again, whatever changes. So nothing is begun before somebody says that it is meant.
//!
//! Links are followed, but to no directory above the tree, and each directory is looked into once, whatever leads to it. A directory
//! that can't be listed, and a file that can't be read, may hold numbers. Passed over are a file that can be read and is faulty, since
//! the command that needs it tells that, and a directory that is the top of another tree, whose numbers are its own.
use ks_engine::EngineError;
use ks_session::{Loss, below, holds_number, is_another_tree};
use ks_system::{FolderTree, FsError, System, SystemTree};
use std::alloc::{AllocError, Global};
use std::collections::BTreeSet;
use std::fs::{DirEntry, Metadata};
use std::io::ErrorKind;
use std::os::unix::fs::MetadataExt;
use std::{fs, io};

/// Where the stamps are. Behind a link of another name they can't be distinguished from other files, so this is looked into first.
const STAMPS: &str = "include/config";

/// How many directories may stand one above the other: a path of them is as long as the system takes.
const MAX_DEPTH: usize = 1365;

/// The directories of a tree while it is searched.
#[derive(Drop)]
struct Directories {
    /// Those to be looked into.
    left: Vec<String>,
    /// Those that were, by device and number.
    seen: BTreeSet<(u64, u64)>,
}

impl Directories {
    /// The top and the directory of the stamps, to be looked into.
    fn new(alloc: Global) -> Result<Directories, AllocError> {
        let mut left = Vec::new(alloc);
        left.push(String::new(alloc))?;
        left.push(String::from_str(alloc, STAMPS)?)?;
        Ok(Directories {
            left,
            seen: BTreeSet::new(alloc),
        })
    }

    /// Notes the directories above the top of the tree as looked into. The root of the system is its own parent, and may be the top.
    fn leave_out_above(&mut self, rt: &HostRuntime, root: &str) -> Result<(), AllocError> {
        let alloc = rt.alloc();
        let Ok(top) = fs::metadata(rt, host_path_of(alloc, root, "")?.as_str()) else {
            return Ok(());
        };
        let mut above = below(alloc, root, "..")?;
        for _ in 0..MAX_DEPTH {
            match fs::metadata(rt, above.as_str()) {
                Ok(found) if id_of(&found) != id_of(&top) && self.is_new(&found)? => {}
                _ => break,
            }
            above = below(alloc, above.as_str(), "..")?;
        }
        Ok(())
    }

    /// Whether this is a directory that was not looked into. From now on it was.
    fn is_new(&mut self, found: &Metadata) -> Result<bool, AllocError> {
        if !found.is_dir() {
            return Ok(false);
        }
        Ok(self.seen.insert(id_of(found))?)
    }
}

/// Which file it is, whatever path leads to it: its device, and its number there.
fn id_of(found: &Metadata) -> (u64, u64) {
    (found.dev(), found.ino())
}

/// Where a directory of the tree stands in the system.
fn host_path_of(alloc: Global, root: &str, directory: &str) -> Result<String, AllocError> {
    let work_tree = if directory.is_empty() {
        String::from_str(alloc, root)?
    } else {
        below(alloc, root, directory)?
    };
    if work_tree.is_empty() {
        return String::from_str(alloc, ".");
    }
    Ok(work_tree)
}

/// Whether nothing can be reached there. A link that leads to itself leads to nothing.
fn is_nothing(kind: ErrorKind) -> bool {
    kind == ErrorKind::NotFound || kind == ErrorKind::FilesystemLoop
}

/// That what is at a path can't be looked at, or nothing where nothing is there.
fn unread(alloc: Global, path: &str, error: &io::Error) -> Result<Option<Loss>, AllocError> {
    if is_nothing(error.kind()) {
        return Ok(None);
    }
    let path = if path.is_empty() { "." } else { path };
    match FsError::new(alloc, path.as_bytes(), error) {
        Some(fault) if error.kind() != ErrorKind::OutOfMemory => {
            Ok(Some(Loss::Unread(fault.describe(alloc)?)))
        }
        _ => Err(AllocError),
    }
}

/// That the file at a path can't be read, and why.
fn unread_file<S: System + Drop>(
    alloc: Global,
    tree: &SystemTree<S>,
    path: &str,
) -> Result<Loss, AllocError> {
    match tree.last_error() {
        Some(fault) => Ok(Loss::Unread(fault.describe(alloc)?)),
        None => Ok(Loss::Unread(String::from_str(alloc, path)?)),
    }
}

/// What would be lost of the file at a path. One that isn't read, as a pipe, holds nothing.
fn look_at_file<S: System + Drop>(
    alloc: Global,
    tree: &mut SystemTree<S>,
    directory: &str,
    name: &str,
    path: &str,
    is_read: bool,
) -> Result<Option<Loss>, AllocError> {
    match holds_number(alloc, tree, directory, name) {
        Ok(true) => Ok(Some(Loss::Number(String::from_str(alloc, path)?))),
        Err(EngineError::Device) if is_read => Ok(Some(unread_file(alloc, tree, path)?)),
        Err(EngineError::OutOfMemory) => Err(AllocError),
        _ => Ok(None),
    }
}

/// Whether a directory below the top is the top of another tree. One whose auto.conf can't be read is none.
fn is_other_top(
    alloc: Global,
    tree: &mut FolderTree<&HostRuntime>,
    directory: &str,
) -> Result<bool, AllocError> {
    if directory.is_empty() {
        return Ok(false);
    }
    match is_another_tree(alloc, tree, directory) {
        Ok(is_other) => Ok(is_other),
        Err(EngineError::OutOfMemory) => Err(AllocError),
        Err(_) => Ok(false),
    }
}

/// What would be lost of one entry of a directory. A directory and a link are noted.
fn look_at(
    alloc: Global,
    tree: &mut FolderTree<&HostRuntime>,
    directory: &str,
    entry: &DirEntry<&HostRuntime>,
    directories: &mut Directories,
) -> Result<Option<Loss>, AllocError> {
    let name = entry.file_name();
    let path = below(alloc, directory, name)?;
    let kind = match entry.file_type() {
        Ok(kind) => kind,
        Err(error) => return unread(alloc, path.as_str(), &error),
    };
    let leads_on = kind.is_dir() || kind.is_symlink();
    let is_read = kind.is_file() || kind.is_symlink();
    let loss = look_at_file(alloc, tree, directory, name, path.as_str(), is_read)?;
    if loss.is_some() {
        return Ok(loss);
    }
    if leads_on {
        directories.left.push(path)?;
    }
    Ok(None)
}

/// What would be lost of the files in one directory. The directories in it are noted.
fn look_into(
    rt: &HostRuntime,
    tree: &mut FolderTree<&HostRuntime>,
    root: &str,
    directory: &str,
    directories: &mut Directories,
) -> Result<Option<Loss>, AllocError> {
    let alloc = rt.alloc();
    let work_tree = host_path_of(alloc, root, directory)?;
    let found = match fs::metadata(rt, work_tree.as_str()) {
        Ok(found) => found,
        Err(error) => return unread(alloc, directory, &error),
    };
    if !directories.is_new(&found)? || is_other_top(alloc, tree, directory)? {
        return Ok(None);
    }
    let entries = match fs::read_dir(&rt, work_tree.as_str()) {
        Ok(entries) => entries,
        Err(error) => return unread(alloc, directory, &error),
    };
    for entry in entries {
        let loss = match entry {
            Ok(entry) => look_at(alloc, tree, directory, &entry, directories)?,
            // A name that is no text is that of no object and no symbol.
            Err(error) if error.kind() == ErrorKind::InvalidFilename => None,
            Err(error) => unread(alloc, directory, &error)?,
        };
        if loss.is_some() {
            return Ok(loss);
        }
    }
    Ok(None)
}

/// What would be lost of the numbers in a tree, if anything.
pub(crate) fn find_loss(
    rt: &HostRuntime,
    tree: &mut FolderTree<&HostRuntime>,
    root: &str,
) -> Result<Option<Loss>, AllocError> {
    let mut directories = Directories::new(rt.alloc())?;
    directories.leave_out_above(rt, root)?;
    for _ in 0..u64::MAX {
        let Some(directory) = directories.left.pop() else {
            return Ok(None);
        };
        let loss = look_into(rt, tree, root, directory.as_str(), &mut directories)?;
        if loss.is_some() {
            return Ok(loss);
        }
    }
    Ok(None)
}
