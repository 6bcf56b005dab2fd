//! A tree in memory, on which tests and worked examples run, and in which a script's files are kept. It is honest, and only
//! memory can fail it.
ghost use Rattle.std.specs.Prelude.{◌≡◌, ◌≤◌, length, option_map, OnErr, OnOk, Some, ⊤};
ghost use Rattle.std.specs.FinMap as map;
ghost use Rattle.std.specs.Iterator.{item_count};
ghost use Rattle.std.specs.Map.Iter.{TakesFirst};
ghost use Rattle.ks_tree.specs.Files.{IsMoved, IsPieceRead, SameBut, content, kept_or};
ghost use Rattle.ks_tree.specs.Memory.{borrowed_file};

use crate::{Tree, TreeFault};
use ks_symbols::MAX_BYTES;
use std::alloc::{AllocError, Global};
use std::collections::BTreeMap;
use std::collections::btree_map::Iter;
use std::marker::Model;

/// Files in memory.
#[derive(Drop)]
pub struct MemoryTree {
    files: BTreeMap<Vec<u8>, Vec<u8>>,
}

impl Model for MemoryTree {
    ghost use Rattle.ks_tree.specs.Files.{Files};
    ghost use Rattle.ks_tree.specs.Memory.{coded_files, files_of};

    ghost Value = { Files };

    ghost coded = { coded_files };

    ghost view = { λ t. files_of t.files.entries };
}

/// The files of a tree in memory, by rising paths: path and bytes.
#[derive(Drop)]
pub struct FilesIter<'a> {
    inner: Iter<'a, Vec<u8>, Vec<u8>>,
}

impl<'a> Model for FilesIter<'a> {
    ghost use Rattle.std.specs.Prelude.{List, ℕ, map};
    ghost use Rattle.std.specs.Coded.{coded_list, coded×, coded_ℕ};
    ghost use Rattle.ks_tree.specs.Memory.{seen_file};

    ghost Value = { List (List ℕ × List ℕ) };

    ghost coded = { coded_list (coded× (coded_list coded_ℕ) (coded_list coded_ℕ)) };

    ghost view = { λ e. map seen_file e.inner };
}

impl<'a> Iterator for FilesIter<'a> {
    type Item = (&'a [u8], &'a [u8]);

    ghost next_gives = { TakesFirst borrowed_file };

    ghost remaining = { item_count (λ rest. rest) };

    fn next(&mut self) -> Option<(&'a [u8], &'a [u8])> {
        match self.inner.next() {
            Some((path, bytes)) => Some((path, bytes)),
            None => None,
        }
    }
}

impl MemoryTree {
    /// A tree with no files.
    pub fn new(alloc: Global) -> MemoryTree
        ensures { result ≡ map.empty }
    {
        MemoryTree {
            files: BTreeMap::new(alloc),
        }
    }

    /// The files, by rising paths.
    pub fn files(&self) -> FilesIter<'_>
        ensures { result ≡ map.entries self.now }
    {
        FilesIter {
            inner: self.files.iter(),
        }
    }

    /// The bytes of a file, borrowed, or `None` where there is no file.
    pub fn get(&self, path: &[u8]) -> Option<&[u8]>
        ensures { option_map (λ b. b.now) result ≡ content self.now path.now }
    {
        match self.files.get(path) {
            Some(bytes) => Some(bytes),
            None => None,
        }
    }

    /// Puts a file at a path, in the place of what was there.
    pub fn put(&mut self, path: Vec<u8>, bytes: Vec<u8>) -> Result<(), AllocError>
        ensures written { OnOk result (content self.new path.items ≡ Some bytes.items) }
        ensures others { SameBut path.items self.old self.new }
        ensures refused { OnErr result (self.new ≡ self.old) }
    {
        self.files.insert(path, bytes)?;
        Ok(())
    }
}

/// Copies the bytes from an offset on, as many as there is room for.
fn copy_from(bytes: &[u8], offset: u64, into: &mut [u8]) -> usize
    ensures read { IsPieceRead bytes.now offset into.old into.new result }
    ensures within { result ≤ length into.new }
{
    if offset >= bytes.len() as u64 {
        return 0;
    }
    let rest = &bytes[offset as usize..];
    let count = rest.len().min(into.len());
    into[..count].copy_from_slice(&rest[..count]);
    count
}

impl Tree for MemoryTree {
    ghost files = { λ t. t };

    ghost is_honest = { ⊤ };

    ghost failures = { λ t. 0 };

    ghost writes = { λ old path bytes new answer. OnOk answer (content new path ≡ Some bytes) × OnErr answer (new ≡ old) };

    ghost creates = { λ old path bytes new answer. OnOk answer (content new path ≡ Some (kept_or (content old path) bytes)) × OnErr answer (new ≡ old) };

    ghost renames = { λ old from to new answer. OnOk answer (IsMoved from to old new) × OnErr answer (new ≡ old) };

    fn read(&mut self, alloc: Global, path: &[u8]) -> Result<Option<Vec<u8>>, TreeFault> {
        let Some(bytes) = self.files.get(path) else {
            return Ok(None);
        };
        if bytes.len() > MAX_BYTES {
            return Err(TreeFault::TooLarge);
        }
        Ok(Some(bytes.to_vec(alloc)?))
    }

    fn read_at(
        &mut self,
        _alloc: Global,
        path: &[u8],
        offset: u64,
        into: &mut [u8],
    ) -> Result<Option<usize>, TreeFault> {
        let Some(bytes) = self.files.get(path) else {
            return Ok(None);
        };
        Ok(Some(copy_from(bytes, offset, into)))
    }

    fn write(&mut self, alloc: Global, path: &[u8], bytes: &[u8]) -> Result<(), TreeFault> {
        let path = path.to_vec(alloc)?;
        let bytes = bytes.to_vec(alloc)?;
        self.put(path, bytes)?;
        Ok(())
    }

    fn create(&mut self, alloc: Global, path: &[u8], bytes: &[u8]) -> Result<(), TreeFault> {
        match self.get(path) {
            Some(_) => Ok(()),
            None => self.write(alloc, path, bytes),
        }
    }

    fn rename(&mut self, alloc: Global, from: &[u8], to: &[u8]) -> Result<(), TreeFault> {
        let Some(bytes) = self.files.get(from) else {
            return Ok(());
        };
        let bytes = bytes.to_vec(alloc)?;
        let to = to.to_vec(alloc)?;
        self.files.insert(to, bytes)?;
        self.files.remove(from);
        Ok(())
    }
}
