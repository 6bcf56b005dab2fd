//! Files in memory, by owned paths: those of a disk for tests, which can be removed as well.
ghost use Rattle.std.specs.Prelude.{◌≡◌, None, Some, OnErr, OnOk, option_map};
ghost use Rattle.std.specs.FinMap as map;
ghost use Rattle.ks_tree.specs.Files.{SameBut, content};

use std::alloc::{AllocError, Global};
use std::collections::BTreeMap;
use std::marker::Model;

/// Files by their paths.
#[derive(Drop)]
pub(crate) struct DiskFiles {
    files: BTreeMap<Vec<u8>, Vec<u8>>,
}

impl Model for DiskFiles {
    ghost use Rattle.ks_tree.specs.Files.{Files};
    ghost use Rattle.ks_tree.specs.Memory.{coded_files, files_of};

    ghost Value = { Files };

    ghost coded = { coded_files };

    ghost view = { λ t. files_of t.files.entries };
}

impl DiskFiles {
    /// No files.
    pub(crate) fn new(alloc: Global) -> DiskFiles
        ensures { result ≡ map.empty }
    {
        DiskFiles {
            files: BTreeMap::new(alloc),
        }
    }

    /// The bytes of a file, borrowed, or `None` where there is no file.
    pub(crate) fn get(&self, path: &[u8]) -> Option<&[u8]>
        ensures { option_map (λ b. b.now) result ≡ content self.now path.now }
    {
        match self.files.get(path) {
            Some(bytes) => Some(bytes),
            None => None,
        }
    }

    /// Puts a file at a path, in the place of what was there.
    pub(crate) fn put(&mut self, path: Vec<u8>, bytes: Vec<u8>) -> Result<(), AllocError>
        ensures written { OnOk result (content self.new path.items ≡ Some bytes.items) }
        ensures others { SameBut path.items self.old self.new }
        ensures refused { OnErr result (self.new ≡ self.old) }
    {
        self.files.insert(path, bytes)?;
        Ok(())
    }

    /// Takes away what is at a path.
    pub(crate) fn remove(&mut self, path: &[u8])
        ensures gone { content self.new path.now ≡ None }
        ensures others { SameBut path.now self.old self.new }
    {
        self.files.remove(path);
    }
}
