//! A disk in memory whose calls are short, interrupted or fail by a script. It shows that the contract of `System` can be met, and on it
//! tests see what no clause says.
ghost use Rattle.std.specs.Prelude.{◌≡◌, ◌≤◌, ◌<◌, ◌++◌, ◌∷◌, List, ℕ, [], length, take, map, option_map, true, Some, None, Err, IfOk, IfSome, OnOk, OnErr, ⊤};
ghost use Rattle.ks_tree.specs.Files.{HasRisen, IsMoved, SameBut, content};
ghost use Rattle.ks_system.specs.declared.errors.Meaning.{Meaning};
ghost use Rattle.ks_system.specs.Errors.{Says, meaning_of};
ghost use Rattle.ks_system.specs.Disk.{world_of};
ghost use Rattle.ks_system.specs.System.{Counts, CountsBut, IsErrorOf, IsSomeRead};

use crate::disk_files::DiskFiles;
use crate::{Kind, Look, System};
use std::alloc::{AllocError, Global};
use std::borrow::CowStr;
use std::io;
use std::io::ErrorKind;

/// What becomes of one call.
#[derive(Clone, Copy, Debug, PartialEq, Eq)]
pub enum Turn {
    /// It is done whole.
    Whole,
    /// Of what is read or written so many bytes are, or one.
    Short(usize),
    /// A signal comes first.
    Interrupted,
    /// It fails.
    Fails,
    /// A directory is missing, where a file is to be made.
    NoDirectory,
    /// Another program has claimed the file.
    Claimed,
}

/// An open file of a disk in memory.
#[derive(Drop)]
pub struct DiskHandle {
    path: Vec<u8>,
    made: bool,
    is_claimed: bool,
}

/// Files in memory, and what becomes of each call in turn. After the script all calls are whole.
#[derive(Drop)]
pub struct MockDisk<'a> {
    files: DiskFiles,
    alloc: Global,
    script: &'a [Turn],
    calls: usize,
    faults: u64,
    signals: u64,
    backdated: Vec<Vec<u8>>,
    dated: Vec<Vec<u8>>,
    last_error: Option<io::Error>,
}

/// The error of an interrupted call.
fn interrupted() -> io::Error
    ensures { meaning_of result ≡ Meaning.Interrupted }
{
    io::Error::new(ErrorKind::Interrupted, "Interrupted system call")
}

/// The error of a call that failed.
fn failed() -> io::Error
    ensures { meaning_of result ≡ Meaning.Failed }
{
    io::Error::new(ErrorKind::Other, "Input/output error")
}

/// Copies some bytes from an offset on, `most` at most, but one at least where there is one.
fn copy_some(bytes: &[u8], offset: u64, most: usize, into: &mut [u8]) -> usize
    ensures read { IsSomeRead bytes.now offset into.old into.new result }
    ensures within { result ≤ length into.new }
{
    if offset >= bytes.len() as u64 {
        return 0;
    }
    let rest = &bytes[offset as usize..];
    let count = rest.len().min(into.len()).min(most.max(1));
    into[..count].copy_from_slice(&rest[..count]);
    count
}

impl<'a> MockDisk<'a> {
    /// A disk with no files, and what becomes of its calls.
    pub fn new(alloc: Global, script: &'a [Turn]) -> MockDisk<'a> {
        MockDisk {
            files: DiskFiles::new(alloc),
            alloc,
            script,
            calls: 0,
            faults: 0,
            signals: 0,
            backdated: Vec::new(alloc),
            dated: Vec::new(alloc),
            last_error: None,
        }
    }

    /// Puts a file at a path, in the place of what was there.
    pub fn put(&mut self, path: &[u8], bytes: &[u8]) -> Result<(), AllocError> {
        let (path, bytes) = (path.to_vec(self.alloc)?, bytes.to_vec(self.alloc)?);
        self.files.put(path, bytes)
    }

    /// The bytes of the file at a path, if there is one.
    pub fn get(&self, path: &[u8]) -> Option<&[u8]> {
        self.files.get(path)
    }

    /// The paths of the files that were made older than all others, in turn.
    pub fn backdated(&self) -> &[Vec<u8>] {
        &self.backdated
    }

    /// The paths of the files that were given a time long past when they were made, in turn.
    pub fn dated(&self) -> &[Vec<u8>] {
        &self.dated
    }

    /// How many calls there were.
    pub fn calls(&self) -> usize {
        self.calls
    }

    /// What becomes of the next call.
    fn turn(&mut self) -> Turn
        ensures files { self.new.files ≡ self.old.files }
        ensures backdated { self.new.backdated ≡ self.old.backdated }
        ensures dated { self.new.dated ≡ self.old.dated }
        ensures faults { self.new.faults ≡ self.old.faults }
        ensures signals { self.new.signals ≡ self.old.signals }
        ensures error { self.new.last_error ≡ None }
    {
        self.last_error = None;
        let turn = self.script.get(self.calls).copied().unwrap_or(Turn::Whole);
        self.calls = self.calls.saturating_add(1);
        turn
    }

    /// Answers a call by an error, which is no failure.
    fn answer<V>(&mut self, error: io::Error) -> io::Result<V>
        ensures error { result ≡ Err error }
        ensures last { self.new.last_error ≡ Some error }
        ensures files { self.new.files ≡ self.old.files }
        ensures backdated { self.new.backdated ≡ self.old.backdated }
        ensures dated { self.new.dated ≡ self.old.dated }
        ensures faults { self.new.faults ≡ self.old.faults }
        ensures signals { self.new.signals ≡ self.old.signals }
    {
        self.last_error = Some(error);
        Err(error)
    }

    /// Counts a call that failed by this error.
    fn fail<V>(&mut self, error: io::Error) -> io::Result<V>
        ensures error { result ≡ Err error }
        ensures last { self.new.last_error ≡ Some error }
        ensures counted { HasRisen self.old.faults self.new.faults }
        ensures files { self.new.files ≡ self.old.files }
        ensures backdated { self.new.backdated ≡ self.old.backdated }
        ensures dated { self.new.dated ≡ self.old.dated }
    {
        self.faults = self.faults.saturating_add(1);
        self.answer(error)
    }

    /// Some of the bytes, owned: where memory is refused for them, the call has failed.
    fn owned(&mut self, bytes: &[u8]) -> io::Result<Vec<u8>>
        ensures bytes { IfOk result (λ v. v.items ≡ bytes.now) }
        ensures missing { Says Meaning.Missing result → ⊥ }
        ensures stands { Says Meaning.Stands result → ⊥ }
        ensures interrupted { Says Meaning.Interrupted result → ⊥ }
        ensures counted { Counts result self.old.faults self.new.faults }
        ensures files { self.new.files ≡ self.old.files }
        ensures backdated { self.new.backdated ≡ self.old.backdated }
        ensures dated { self.new.dated ≡ self.old.dated }
        ensures error { self.old.last_error ≡ None → IsErrorOf result self.new.last_error }
    {
        match bytes.to_vec(self.alloc) {
            Ok(bytes) => Ok(bytes),
            Err(error) => self.fail(io::Error::from(error)),
        }
    }

    /// Puts a file at a path, in the place of what was there.
    fn store(&mut self, path: &[u8], bytes: Vec<u8>) -> io::Result<()>
        ensures written { OnOk result (content self.new.files path.now ≡ Some bytes.items) }
        ensures others { SameBut path.now self.old.files self.new.files }
        ensures refused { OnErr result (self.new.files ≡ self.old.files) }
        ensures stands { Says Meaning.Stands result → ⊥ }
        ensures interrupted { Says Meaning.Interrupted result → ⊥ }
        ensures counted { Counts result self.old.faults self.new.faults }
        ensures backdated { self.new.backdated ≡ self.old.backdated }
        ensures dated { self.new.dated ≡ self.old.dated }
        ensures error { self.old.last_error ≡ None → IsErrorOf result self.new.last_error }
    {
        let path = self.owned(path)?;
        match self.files.put(path, bytes) {
            Ok(()) => Ok(()),
            Err(error) => self.fail(io::Error::from(error)),
        }
    }

    /// The next call, as far as it is done at all, where an interrupted one has not failed.
    fn begin_piece(&mut self) -> io::Result<Turn>
        ensures missing { Says Meaning.Missing result → ⊥ }
        ensures stands { Says Meaning.Stands result → ⊥ }
        ensures counted { CountsBut Meaning.Interrupted result self.old.faults self.new.faults }
        ensures signals { Says Meaning.Interrupted result → HasRisen self.old.signals self.new.signals }
        ensures files { self.new.files ≡ self.old.files }
        ensures backdated { self.new.backdated ≡ self.old.backdated }
        ensures dated { self.new.dated ≡ self.old.dated }
        ensures error { IsErrorOf result self.new.last_error }
    {
        match self.turn() {
            Turn::Interrupted => {
                self.signals = self.signals.saturating_add(1);
                self.answer(interrupted())
            }
            Turn::Fails => self.fail(failed()),
            turn => Ok(turn),
        }
    }

    /// The next call, as far as it is done at all.
    fn begin(&mut self) -> io::Result<Turn>
        ensures missing { Says Meaning.Missing result → ⊥ }
        ensures stands { Says Meaning.Stands result → ⊥ }
        ensures counted { Counts result self.old.faults self.new.faults }
        ensures files { self.new.files ≡ self.old.files }
        ensures backdated { self.new.backdated ≡ self.old.backdated }
        ensures dated { self.new.dated ≡ self.old.dated }
        ensures error { IsErrorOf result self.new.last_error }
    {
        match self.turn() {
            Turn::Interrupted => self.fail(interrupted()),
            Turn::Fails => self.fail(failed()),
            turn => Ok(turn),
        }
    }

    /// The bytes of a file and more, if there is one, and memory for them.
    fn grown(&self, path: &[u8], more: &[u8]) -> Option<Vec<u8>>
        ensures { IfSome result (λ v. (b : List ℕ) × (content self.now.files path.now ≡ Some b) × (v.items ≡ b ++ more.now)) }
    {
        let mut bytes = self.files.get(path)?.to_vec(self.alloc).ok()?;
        bytes.extend_from_slice(more).ok()?;
        Some(bytes)
    }

    /// A handle of the file at a path.
    fn handle(&mut self, path: &[u8], made: bool) -> io::Result<DiskHandle>
        ensures missing { Says Meaning.Missing result → ⊥ }
        ensures stands { Says Meaning.Stands result → ⊥ }
        ensures path { IfOk result (λ h. h.path.items ≡ path.now) }
        ensures made { IfOk result (λ h. h.made ≡ made) }
        ensures counted { Counts result self.old.faults self.new.faults }
        ensures files { self.new.files ≡ self.old.files }
        ensures backdated { self.new.backdated ≡ self.old.backdated }
        ensures dated { self.new.dated ≡ self.old.dated }
        ensures error { self.old.last_error ≡ None → IsErrorOf result self.new.last_error }
    {
        Ok(DiskHandle {
            path: self.owned(path)?,
            made,
            is_claimed: false,
        })
    }
}

impl<'a> System for MockDisk<'a> {
    ghost use Rattle.ks_system.specs.System.{Opened};
    ghost use Rattle.ks_system.specs.declared.system.Kind.TheVariants as kind;

    type Handle = DiskHandle;

    ghost world = { λ s. world_of s.files (map (λ path. path.items) s.dated.items) };

    ghost is_honest = { ⊤ };

    ghost path_at = { λ host_path. host_path };

    ghost opened = { λ h. record { path = h.path.items; names = 0; made = h.made } };

    ghost is_claimed = { λ h. h.is_claimed };

    ghost backdated = { λ s. map (λ path. path.items) s.backdated.items };

    ghost faults = { λ s. s.faults };

    ghost signals = { λ s. s.signals };

    ghost last_error = { λ s. s.last_error };

    ghost kind_at = { λ s path. option_map (λ b. kind.File) (content s.files path) };

    fn host_path<'p>(
        &self,
        _alloc: Global,
        path: &'p [u8],
    ) -> Result<Option<CowStr<'p>>, AllocError> {
        match str::from_utf8(path) {
            Ok(host_path) => Ok(Some(CowStr::Borrowed(host_path))),
            Err(_) => Ok(None),
        }
    }

    fn look(&mut self, host_path: &str) -> io::Result<Look> {
        self.begin()?;
        match self.files.get(host_path.as_bytes()) {
            Some(bytes) => Ok(Look {
                kind: Kind::File,
                size: bytes.len() as u64,
            }),
            None => self.answer(io::Error::from(ErrorKind::NotFound)),
        }
    }

    fn kind(&mut self, host_path: &str) -> io::Result<Kind> {
        self.begin()?;
        match self.files.get(host_path.as_bytes()) {
            Some(_) => Ok(Kind::File),
            None => self.answer(io::Error::from(ErrorKind::NotFound)),
        }
    }

    fn open(&mut self, host_path: &str) -> io::Result<DiskHandle> {
        self.begin()?;
        if self.files.get(host_path.as_bytes()).is_none() {
            return self.answer(io::Error::from(ErrorKind::NotFound));
        }
        self.handle(host_path.as_bytes(), false)
    }

    fn open_left_over(&mut self, host_path: &str) -> io::Result<DiskHandle> {
        self.open(host_path)
    }

    fn read_at(&mut self, handle: &DiskHandle, offset: u64, into: &mut [u8]) -> io::Result<usize> {
        let most = match self.begin_piece()? {
            Turn::Short(most) => most,
            _ => into.len(),
        };
        match self.files.get(&handle.path) {
            Some(bytes) => Ok(copy_some(bytes, offset, most, into)),
            None => self.fail(failed()),
        }
    }

    fn create_new(&mut self, host_path: &str) -> io::Result<DiskHandle> {
        if self.begin()? == Turn::NoDirectory {
            return self.fail(io::Error::from(ErrorKind::NotFound));
        }
        if self.files.get(host_path.as_bytes()).is_some() {
            return self.answer(io::Error::from(ErrorKind::AlreadyExists));
        }
        let handle = self.handle(host_path.as_bytes(), true)?;
        self.store(host_path.as_bytes(), Vec::new(self.alloc))?;
        Ok(handle)
    }

    fn make_directories(&mut self, _host_path: &str) -> io::Result<()> {
        self.begin()?;
        Ok(())
    }

    fn claim(&mut self, handle: &mut DiskHandle) -> bool {
        if self.turn() == Turn::Claimed {
            return false;
        }
        handle.is_claimed = true;
        true
    }

    fn has_a_name(&mut self, handle: &DiskHandle) -> io::Result<bool> {
        self.begin()?;
        Ok(self.files.get(&handle.path).is_some())
    }

    fn is_at(&mut self, handle: &DiskHandle, host_path: &str) -> io::Result<bool> {
        self.begin()?;
        Ok(handle.path.as_slice() == host_path.as_bytes())
    }

    fn write(&mut self, handle: &mut DiskHandle, bytes: &[u8]) -> io::Result<usize> {
        let most = match self.begin_piece()? {
            Turn::Short(most) => most.max(1),
            _ => bytes.len(),
        };
        let count = most.min(bytes.len());
        match self.grown(handle.path.as_slice(), &bytes[..count]) {
            Some(new) => self.store(handle.path.as_slice(), new)?,
            None => return self.fail(failed()),
        }
        Ok(count)
    }

    fn date(&mut self, handle: &DiskHandle) -> io::Result<()> {
        self.begin()?;
        let path = self.owned(handle.path.as_slice())?;
        match self.dated.push(path) {
            Ok(()) => Ok(()),
            Err(error) => self.fail(io::Error::from(error)),
        }
    }

    fn backdate(&mut self, host_path: &str, _file: Option<DiskHandle>) -> io::Result<()>
        ensures backdated { OnOk result (map (λ path. path.items) self.new.backdated.items ≡ map (λ path. path.items) self.old.backdated.items ++ host_path.now ∷ []) }
        ensures failed { OnErr result (map (λ path. path.items) self.new.backdated.items ≡ map (λ path. path.items) self.old.backdated.items) }
        ensures unchanged { world_of self.new.files (map (λ path. path.items) self.new.dated.items)
            ≡ world_of self.old.files (map (λ path. path.items) self.old.dated.items) }
        ensures faults { Counts result self.old.faults self.new.faults }
        ensures error { IsErrorOf result self.new.last_error }
    {
        self.begin()?;
        let path = self.owned(host_path.as_bytes())?;
        match self.backdated.push(path) {
            Ok(()) => Ok(()),
            Err(error) => self.fail(io::Error::from(error)),
        }
    }

    fn remove_file(&mut self, host_path: &str) -> io::Result<()> {
        self.begin()?;
        self.files.remove(host_path.as_bytes());
        Ok(())
    }

    fn remove_directory(&mut self, _host_path: &str) -> io::Result<()> {
        self.fail(failed())
    }

    fn rename(&mut self, from: &str, to: &str) -> io::Result<()> {
        self.begin()?;
        match self.grown(from.as_bytes(), b"") {
            Some(bytes) => self.store(to.as_bytes(), bytes)?,
            None => return self.fail(failed()),
        }
        self.files.remove(from.as_bytes());
        Ok(())
    }
}
