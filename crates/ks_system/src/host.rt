//! The system itself, below a directory. Each call is passed on to std, and no contract says what the system then does: that it acts as
//! `System` has it is the premise under which the theorems are read for a directory. Where a path stands is proved.
ghost use Rattle.std.specs.Prelude.{◌≡◌, [], None, false, true, IfOk, IsNone, IsOk, MatchOption, IsUtf8, string_bytes};
ghost use Rattle.std.specs.Cow.{cow_str_bytes};
ghost use Rattle.std.specs.FinMap as map;
ghost use Rattle.std.specs.Fs.{asks_create_new};
ghost use Rattle.ks_system.specs.HostPaths.{host_path_of};

use crate::{Kind, Look, System};
use ks_tree::stamp_temporary;
use std::alloc::{AllocError, Global};
use std::borrow::CowStr;
use std::fs::{File, FileTimes, Metadata, OpenFile, OpenOptions, TryLockError};
use std::io::Write;
use std::os::unix::fs::{FileExt, FileTypeExt, MetadataExt};
use std::rt::Files;
use std::time::{Duration, SystemTime};
use std::{fs, io};

/// A file that a program can claim.
pub trait Claim {
    /// Whether nobody else has claimed the file. From now on this program has, until it closes it. The answer is yes as well
    /// where the file system knows no locks: nobody can claim a file there.
    fn claim(&self) -> bool;
}

impl Claim for File {
    fn claim(&self) -> bool {
        !matches!(self.try_lock(), Err(TryLockError::WouldBlock))
    }
}

/// A directory of the system, by its path. A path that begins with `/` names that file itself, any other one below the directory.
#[derive(Drop)]
pub struct Host<R: Files> {
    files: R,
    root: String,
    /// Whether the directory is locked for this program alone.
    is_alone: bool,
    /// Whether the lock on the directory claims the file that was made last.
    is_claimed: bool,
}

/// The number of `/dev/null`.
const NULL_DEVICE: u64 = 0x103;

/// What was found.
fn kind_of(found: &Metadata) -> Kind {
    let kind = found.file_type();
    match () {
        _ if kind.is_file() => Kind::File,
        _ if kind.is_dir() => Kind::Directory,
        _ if kind.is_block_device() => Kind::Disk,
        _ if kind.is_char_device() && found.rdev() == NULL_DEVICE => Kind::Null,
        _ if kind.is_char_device() => Kind::Device,
        _ => Kind::Other,
    }
}

/// Gives a file the first second of 1970 as its time. Some programs take the second before it for no time at all.
fn make_long_past<F: OpenFile>(file: &F) -> io::Result<()> {
    let long_past = SystemTime::UNIX_EPOCH + Duration::from_secs(1);
    file.set_times(FileTimes::new().set_modified(long_past))
}

/// How a new file is opened: to be written, and only where nothing stands, not even a link.
fn for_a_new_file() -> OpenOptions
    ensures { asks_create_new result ≡ true }
{
    let mut options = OpenOptions::new();
    options.write(true).create_new(true);
    options
}

impl<R: Files> Host<R> {
    /// The system below a directory. An empty root is the current directory.
    pub fn new(files: R, root: String) -> Host<R> {
        Host {
            files,
            root,
            is_alone: false,
            is_claimed: false,
        }
    }

    /// From now on the directory is locked for this program alone, and that lock claims what stamps are written at: only a
    /// synchronisation writes there, and no other one is at work in the directory.
    pub(crate) fn claim_stamps(&mut self) {
        self.is_alone = true;
    }
}

/// Whether a stamp is written at a place before it is moved.
fn is_of_stamps(host_path: &str) -> bool {
    host_path.as_bytes().ends_with(stamp_temporary())
}

impl<R: Files> System for Host<R>
where
    R::File: Claim + FileExt,
{
    ghost use Rattle.ks_system.specs.System.{World, Opened};

    type Handle = R::File;

    ghost world = { λ s. record { files = map.empty; names = 0; dated = [] } };

    ghost is_honest = { ⊥ };

    ghost path_at = { λ host_path. host_path };

    ghost opened = { λ h. record { path = []; names = 0; made = false } };

    ghost is_claimed = { λ h. true };

    ghost backdated = { λ s. [] };

    ghost faults = { λ s. 0 };

    ghost signals = { λ s. 0 };

    ghost last_error = { λ s. None };

    ghost kind_at = { λ s path. None };

    fn host_path<'a>(&self, alloc: Global, path: &'a [u8]) -> Result<Option<CowStr<'a>>, AllocError>
        ensures { IfOk result (λ found. MatchOption found (IsUtf8 path.now → ⊥)
            (λ host_path. cow_str_bytes host_path ≡ host_path_of (string_bytes self.now.root) path.now)) }
    {
        let Ok(path) = str::from_utf8(path) else {
            return Ok(None);
        };
        let root = self.root.as_str();
        if path.starts_with('/') || root.is_empty() {
            return Ok(Some(CowStr::Borrowed(path)));
        }
        Ok(Some(CowStr::Owned(format!(in alloc; "{root}/{path}")?)))
    }

    fn look(&mut self, host_path: &str) -> io::Result<Look> {
        let found = fs::metadata(&self.files, host_path)?;
        Ok(Look {
            kind: kind_of(&found),
            size: found.len(),
        })
    }

    fn kind(&mut self, host_path: &str) -> io::Result<Kind> {
        Ok(kind_of(&fs::symlink_metadata(&self.files, host_path)?))
    }

    fn open(&mut self, host_path: &str) -> io::Result<R::File> {
        fs::open(&self.files, host_path)
    }

    fn open_left_over(&mut self, host_path: &str) -> io::Result<R::File> {
        // Some file systems lock only what is opened for writing.
        let mut options = OpenOptions::new();
        options.read(true).write(true);
        options
            .open(&self.files, host_path)
            .or_else(|_| fs::open(&self.files, host_path))
    }

    fn read_at(&mut self, file: &R::File, offset: u64, into: &mut [u8]) -> io::Result<usize> {
        file.read_at(into, offset)
    }

    fn create_new(&mut self, host_path: &str) -> io::Result<R::File> {
        // What is left over there may be claimed by another program that had no lock.
        self.is_claimed = false;
        let file = for_a_new_file().open(&self.files, host_path)?;
        self.is_claimed = self.is_alone && is_of_stamps(host_path);
        Ok(file)
    }

    fn make_directories(&mut self, host_path: &str) -> io::Result<()> {
        match host_path.rsplit_once('/') {
            Some((directory, _)) => fs::create_dir_all(&self.files, directory),
            None => Ok(()),
        }
    }

    fn claim(&mut self, file: &mut R::File) -> bool {
        self.is_claimed || file.claim()
    }

    fn has_a_name(&mut self, file: &R::File) -> io::Result<bool> {
        Ok(self.is_claimed || file.metadata()?.nlink() > 0)
    }

    fn is_at(&mut self, file: &R::File, host_path: &str) -> io::Result<bool> {
        let (file, found) = (
            file.metadata()?,
            fs::symlink_metadata(&self.files, host_path)?,
        );
        Ok(file.dev() == found.dev() && file.ino() == found.ino())
    }

    fn write(&mut self, file: &mut R::File, bytes: &[u8]) -> io::Result<usize> {
        file.write(bytes)
    }

    fn date(&mut self, file: &R::File) -> io::Result<()> {
        make_long_past(file)
    }

    fn backdate(&mut self, _host_path: &str, file: Option<R::File>) -> io::Result<()>
        ensures { IsNone file → IsOk result }
    {
        match file {
            Some(file) => make_long_past(&file),
            None => Ok(()),
        }
    }

    fn remove_file(&mut self, host_path: &str) -> io::Result<()> {
        fs::remove_file(&self.files, host_path)
    }

    fn remove_directory(&mut self, host_path: &str) -> io::Result<()> {
        fs::remove_dir(&self.files, host_path)
    }

    fn rename(&mut self, from: &str, to: &str) -> io::Result<()> {
        fs::rename(&self.files, from, to)
    }
}
