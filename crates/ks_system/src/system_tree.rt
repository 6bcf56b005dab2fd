//! A tree that is a directory of a system: what users meet. Over a system that does what is asked of it, it is an honest tree, whatever is
//! short, interrupted or fails, so what is proved over every honest tree holds of it.
//!
//! Only the system's "no such file" counts as a missing file. A directory, a file in the place of a directory, and every other
//! failure are `Device`, since a build that takes an unreadable file for a missing one would call objects fresh.
ghost use Rattle.std.specs.Prelude.{◌≡◌, ◌≢◌, ◌⊎◌, ◌≤◌, ◌<◌, ◌+◌, ◌++◌, ◌∷◌, ℕ, List, [], Bool, true, is_some, min, length, take, drop, Some, None, IsSome, IfErr, IfOk, IfSome, OnOk, OnErr, IsErrOf, MatchOption, IsUtf8, option_map, string_bytes};
ghost use Rattle.std.proofs.Props.{props};
ghost use Rattle.ks_symbols.specs.Lines.{max_bytes};
ghost use Rattle.ks_tree.specs.declared.fault.TreeFault.{TreeFault};
ghost use Rattle.ks_tree.specs.Files.{HasRisen, IsHalfCreated, IsMoved, IsReadAt, IsTooLarge, SameBut, content, kept_or};
ghost use Rattle.ks_system.specs.System.{HasFailed, IsNoFile};
ghost use Rattle.ks_system.specs.Reading.{HasNoEnd, IsAheadOf};
ghost use Rattle.ks_system.specs.declared.system.Kind.{Kind};

use crate::errors::found_of;
use crate::fs_error::{FsError, ReadError};
use crate::held::HeldReading;
use crate::kept_file::KeptFile;
use crate::new_file::{create_new, write_new};
use crate::reading::{has_an_end, read_whole, without_an_end};
use crate::{Kind, System};
use ks_tree::{Backdating, Tree, TreeFault};
use std::alloc::Global;
use std::io;

/// The most that is read of a file without a look at it before: of so little, as of a prerequisite's first piece, the look would cost
/// more than the reading.
const SMALL: usize = 4096;

/// The tree of a system's files.
#[derive(Drop)]
pub struct SystemTree<S: System + Drop> {
    pub(crate) system: S,
    seed: u64,
    failures: u64,
    /// What failed last, where something can be said of it.
    last_error: Option<FsError>,
    /// The file of the last `read_at`, kept open so that a prerequisite costs one open however many pieces it has.
    kept: Option<KeptFile<S>>,
    /// The file that was written last, claimed until it is moved or another one is written.
    written: Option<S::Handle>,
    /// What was read ahead of the command, until it is read or a file is written or moved.
    held: Option<HeldReading>,
    ghost is_kept: { S.System.is_honest → IfSome kept (λ k. ((S.System.opened k.file).names ≡ (S.System.world system).names)
        × ((S.System.opened k.file).path ≡ k.ahead.path) × IsAheadOf (content (S.System.world system).files k.ahead.path) k.ahead) } by { Prim.hlevel props },
    ghost is_held: { S.System.is_honest → IfSome held (λ h. (h.found ≡ content (S.System.world system).files h.path)
        × ((b : List ℕ) → h.found ≡ Some b → length b ≤ max_bytes)) } by { Prim.hlevel props },
}

impl<S: System + Drop> SystemTree<S> {
    /// The tree of a system.
    pub fn over(system: S) -> SystemTree<S>
        ensures system { result.system ≡ system }
        ensures failures { result.failures ≡ 0 }
    {
        SystemTree {
            system,
            seed: 0,
            failures: 0,
            last_error: None,
            kept: None,
            written: None,
            held: None,
        }
    }

    /// How often the system has failed, up to the greatest `u64`.
    pub fn failures(&self) -> u64
        ensures { result ≡ self.now.failures }
    {
        self.failures
    }

    /// The same tree, with a seed that nobody knows who writes its files.
    pub fn with_seed(mut self, seed: u64) -> SystemTree<S>
        ensures seed { result.seed ≡ seed }
        ensures system { result.system ≡ self.system }
        ensures failures { result.failures ≡ self.failures }
    {
        self.seed = seed;
        self
    }

    /// Holds what was found at a path, so that the next `read` of that path gives it and doesn't ask the system again. A file
    /// that is written or moved before then ends that.
    pub fn hold(&mut self, path: Vec<u8>, found: Option<Vec<u8>>)
        requires found { S.is_honest → option_map (λ v. v.items) found ≡ content (S.world self.old.system).files path.items }
        requires small { S.is_honest → IfSome found (λ v. length v.items ≤ max_bytes) }
        ensures held { self.new.held ≡ Some (record { path = path.items; found = option_map (λ v. v.items) found }) }
        ensures failures { self.new.failures ≡ self.old.failures }
        ensures seed { self.new.seed ≡ self.old.seed }
        ensures system { self.new.system ≡ self.old.system }
    {
        self.held = Some(HeldReading::new(path, found));
    }

    /// What failed last, or `None` where nothing has failed, or nothing can be said of it for want of memory.
    pub fn last_error(&self) -> Option<&FsError> {
        self.last_error.as_ref()
    }

    /// Gives up the system, as the calls have left it.
    pub fn into_system(self) -> S
        ensures { result ≡ self.system }
    {
        self.system
    }

    /// Counts a failure of the system.
    fn device(&mut self) -> TreeFault
        ensures device { result ≡ TreeFault.Device }
        ensures untold { self.new.last_error ≡ None }
        ensures system { self.new.system ≡ self.old.system }
        ensures claim { self.new.written ≡ self.old.written }
        ensures held { self.new.held ≡ self.old.held }
        ensures later { self.old.failures ≤ self.new.failures }
        ensures counted { self.new.failures ≡ min (self.old.failures + 1) 18446744073709551615 }
    {
        self.failures = self.failures.saturating_add(1);
        self.last_error = None;
        TreeFault::Device
    }

    /// Counts a failure of the system at a path, and keeps what can be reported of it.
    fn fault(&mut self, alloc: Global, path: &[u8], error: &io::Error) -> TreeFault
        ensures device { result ≡ TreeFault.Device }
        ensures reported { IfSome self.new.last_error (λ fault. string_bytes fault.path ≡ path.now) }
        ensures system { self.new.system ≡ self.old.system }
        ensures claim { self.new.written ≡ self.old.written }
        ensures held { self.new.held ≡ self.old.held }
        ensures later { self.old.failures ≤ self.new.failures }
        ensures cause { HasRisen self.old.failures self.new.failures }
    {
        let fault = self.device();
        self.last_error = FsError::new(alloc, path, error);
        fault
    }

    /// Forgets what was read before a file changes.
    fn forget_readings(&mut self)
        ensures kept { self.new.kept ≡ None }
        ensures held { self.new.held ≡ None }
        ensures system { self.new.system ≡ self.old.system }
        ensures failures { self.new.failures ≡ self.old.failures }
    {
        self.kept = None;
        self.held = None;
    }

    /// Removes the file at a path. That none is there is a failure too.
    pub fn remove(&mut self, alloc: Global, path: &[u8]) -> Result<(), TreeFault>
        ensures gone { S.is_honest → OnOk result (content (S.world self.new.system).files path.now ≡ None) }
        ensures others { S.is_honest → SameBut path.now (S.world self.old.system).files (S.world self.new.system).files }
        ensures failed { S.is_honest → OnErr result ((S.world self.new.system).files ≡ (S.world self.old.system).files) }
        ensures kept { S.backdated self.new.system ≡ S.backdated self.old.system }
        ensures undated { S.is_honest → (S.world self.new.system).dated ≡ (S.world self.old.system).dated }
        ensures never { IsErrOf result TreeFault.TooLarge → ⊥ }
        ensures later { self.old.failures ≤ self.new.failures }
        ensures passed { OnOk result (self.new.failures ≡ self.old.failures) }
        ensures uncounted { IsErrOf result TreeFault.OutOfMemory → self.new.failures ≡ self.old.failures }
        ensures cause { IsErrOf result TreeFault.Device → HasRisen self.old.failures self.new.failures }
        ensures forgotten { self.new.held ≡ None }
        ensures reported { IsErrOf result TreeFault.Device → IfSome self.new.last_error (λ fault. string_bytes fault.path ≡ path.now) }
    {
        self.forget_readings();
        let Some(host_path) = self.system.host_path(alloc, path)? else {
            return Err(self.device());
        };
        match self.system.remove_file(host_path.as_str()) {
            Ok(()) => Ok(()),
            Err(error) => Err(self.fault(alloc, path, &error)),
        }
    }

    /// The kept file, where it is that of the path, or else the path's own, newly opened. It is opened anew for its first
    /// bytes too, so that nothing is given that was read ahead for an earlier reading.
    fn take_kept(
        &mut self,
        alloc: Global,
        path: &[u8],
        offset: u64,
    ) -> Result<Option<KeptFile<S>>, TreeFault>
        ensures found { S.is_honest → IfOk result (λ found. MatchOption found (content (S.world self.old.system).files path.now ≡ None)
            (λ k. ((S.opened k.file).names ≡ (S.world self.old.system).names) × ((S.opened k.file).path ≡ path.now)
            × IsAheadOf (content (S.world self.old.system).files path.now) k.ahead)) }
        ensures of_path { IfOk result (λ found. IfSome found (λ k. k.ahead.path ≡ path.now)) }
        ensures reported { IsErrOf result TreeFault.Device → IfSome self.new.last_error (λ fault. string_bytes fault.path ≡ path.now) }
        ensures claim { self.new.written ≡ self.old.written }
        ensures unchanged { S.is_honest → S.world self.new.system ≡ S.world self.old.system }
        ensures kept { S.backdated self.new.system ≡ S.backdated self.old.system }
        ensures later { self.old.failures ≤ self.new.failures }
        ensures cause { IsErrOf result TreeFault.Device → HasRisen self.old.failures self.new.failures }
        ensures passed { OnOk result (self.new.failures ≡ self.old.failures) }
        ensures uncounted { IsErrOf result TreeFault.OutOfMemory → self.new.failures ≡ self.old.failures }
        ensures never { IsErrOf result TreeFault.TooLarge → ⊥ }
        ensures unfailed { S.is_honest → OnOk result (S.faults self.new.system ≡ S.faults self.old.system) }
        ensures due { S.is_honest → IsErrOf result TreeFault.Device → HasRisen (S.faults self.old.system) (S.faults self.new.system) ⊎ (IsUtf8 path.now → ⊥) }
    {
        let mut earlier = None;
        if let Some(kept) = self.kept.take() {
            if offset > 0 && kept.is_at(path) {
                return Ok(Some(kept));
            }
            earlier = Some(kept);
        }
        let Some(host_path) = self.system.host_path(alloc, path)? else {
            return Err(self.device());
        };
        match found_of(self.system.open(host_path.as_str())) {
            Ok(Some(file)) => Ok(Some(KeptFile::open(alloc, earlier, path, file)?)),
            Ok(None) => Ok(None),
            Err(error) => Err(self.fault(alloc, path, &error)),
        }
    }

    /// Looks whether what stands at a path can be read to its end, if anything does.
    fn look_for_an_end(&mut self, alloc: Global, path: &[u8]) -> Result<(), TreeFault>
        ensures reported { IsErrOf result TreeFault.Device → IfSome self.new.last_error (λ fault. string_bytes fault.path ≡ path.now) }
        ensures claim { self.new.written ≡ self.old.written }
        ensures unchanged { S.is_honest → S.world self.new.system ≡ S.world self.old.system }
        ensures kept { S.backdated self.new.system ≡ S.backdated self.old.system }
        ensures later { self.old.failures ≤ self.new.failures }
        ensures cause { IsErrOf result TreeFault.Device → HasRisen self.old.failures self.new.failures }
        ensures passed { OnOk result (self.new.failures ≡ self.old.failures) }
        ensures uncounted { IsErrOf result TreeFault.OutOfMemory → self.new.failures ≡ self.old.failures }
        ensures never { IsErrOf result TreeFault.TooLarge → ⊥ }
        ensures unfailed { S.is_honest → OnOk result (S.faults self.new.system ≡ S.faults self.old.system) }
        ensures due { S.is_honest → IsErrOf result TreeFault.Device → HasRisen (S.faults self.old.system) (S.faults self.new.system)
            ⊎ ((IsUtf8 path.now → ⊥) ⊎ ((k : Kind) × (S.kind_at self.old.system path.now ≡ Some k) × HasNoEnd k)) }
    {
        let Some(host_path) = self.system.host_path(alloc, path)? else {
            return Err(self.device());
        };
        match found_of(self.system.look(host_path.as_str())) {
            Ok(Some(look)) if !has_an_end(look.kind) => {
                Err(self.fault(alloc, path, &without_an_end(look.kind)))
            }
            Ok(_) => Ok(()),
            Err(error) => Err(self.fault(alloc, path, &error)),
        }
    }
}

impl<S: System + Drop> Tree for SystemTree<S> {
    ghost files = { λ t. (S.world t.system).files };

    ghost is_honest = { S.is_honest };

    ghost failures = { λ t. t.failures };

    ghost backdated = { λ t. S.backdated t.system };

    /// Reads a file, or gives what is held for it.
    fn read(&mut self, alloc: Global, path: &[u8]) -> Result<Option<Vec<u8>>, TreeFault>
        ensures found { S.is_honest → IfOk result (λ found. option_map (λ v. v.items) found ≡ content (S.world self.old.system).files path.now) }
        ensures small { S.is_honest → IfOk result (λ found. (b : List ℕ) → content (S.world self.old.system).files path.now ≡ Some b → length b ≤ max_bytes) }
        ensures too_large { S.is_honest → IsErrOf result TreeFault.TooLarge → IsTooLarge (content (S.world self.old.system).files path.now) }
        ensures unchanged { S.is_honest → (S.world self.new.system).files ≡ (S.world self.old.system).files }
        ensures kept { S.backdated self.new.system ≡ S.backdated self.old.system }
        ensures later { self.old.failures ≤ self.new.failures }
        ensures passed { OnOk result (self.new.failures ≡ self.old.failures) }
        ensures uncounted { IsErrOf result TreeFault.OutOfMemory → self.new.failures ≡ self.old.failures }
        ensures too_large_uncounted { IsErrOf result TreeFault.TooLarge → self.new.failures ≡ self.old.failures }
        ensures cause { IsErrOf result TreeFault.Device → HasRisen self.old.failures self.new.failures }
        // Of the files' times, the claim, what is held, and what is reported.
        ensures undated { S.is_honest → (S.world self.new.system).dated ≡ (S.world self.old.system).dated }
        ensures claim { self.new.written ≡ self.old.written }
        ensures reported { IsErrOf result TreeFault.Device → IfSome self.new.last_error (λ fault. string_bytes fault.path ≡ path.now) }
        ensures held { IfSome self.old.held (λ held. held.path ≡ path.now →
            IfOk result (λ found. option_map (λ v. v.items) found ≡ held.found) × IfErr result (λ _. ⊥)) }
        ensures once { IfSome self.old.held (λ held. held.path ≡ path.now → self.new.held ≡ None) }
        ensures due { S.is_honest → IsErrOf result TreeFault.Device →
            HasFailed (S.faults self.old.system) (S.faults self.new.system) (S.signals self.new.system)
            ⊎ ((IsUtf8 path.now → ⊥) ⊎ ((k : Kind) × (S.kind_at self.old.system path.now ≡ Some k) × HasNoEnd k)) }
    {
        if let Some(found) = HeldReading::take(&mut self.held, path) {
            return Ok(found);
        }
        let Some(host_path) = self.system.host_path(alloc, path)? else {
            return Err(self.device());
        };
        match read_whole(alloc, &mut self.system, host_path.as_str()) {
            Ok(found) => Ok(found),
            Err(ReadError::TooLarge) => Err(TreeFault::TooLarge),
            Err(ReadError::OutOfMemory) => Err(TreeFault::OutOfMemory),
            Err(ReadError::System(error)) => Err(self.fault(alloc, path, &error)),
        }
    }

    fn read_at(
        &mut self,
        alloc: Global,
        path: &[u8],
        offset: u64,
        into: &mut [u8],
    ) -> Result<Option<usize>, TreeFault>
        ensures found { S.is_honest → IfOk result (IsReadAt (content (S.world self.old.system).files path.now) offset into.old into.new) }
        ensures within { IfOk result (λ found. IfSome found (λ n. n ≤ length into.new)) }
        ensures unchanged { S.is_honest → (S.world self.new.system).files ≡ (S.world self.old.system).files }
        ensures kept { S.backdated self.new.system ≡ S.backdated self.old.system }
        ensures never { IsErrOf result TreeFault.TooLarge → ⊥ }
        ensures later { self.old.failures ≤ self.new.failures }
        ensures passed { OnOk result (self.new.failures ≡ self.old.failures) }
        ensures uncounted { IsErrOf result TreeFault.OutOfMemory → self.new.failures ≡ self.old.failures }
        ensures cause { IsErrOf result TreeFault.Device → HasRisen self.old.failures self.new.failures }
        // Of the files' times, the claim, and what is reported.
        ensures undated { S.is_honest → (S.world self.new.system).dated ≡ (S.world self.old.system).dated }
        ensures claim { self.new.written ≡ self.old.written }
        ensures reported { IsErrOf result TreeFault.Device → IfSome self.new.last_error (λ fault. string_bytes fault.path ≡ path.now) }
        ensures due { S.is_honest → IsErrOf result TreeFault.Device →
            HasFailed (S.faults self.old.system) (S.faults self.new.system) (S.signals self.new.system)
            ⊎ ((IsUtf8 path.now → ⊥) ⊎ ((18446744073709551615 < offset + length into.old)
            ⊎ ((k : Kind) × (S.kind_at self.old.system path.now ≡ Some k) × HasNoEnd k))) }
    {
        if offset == 0 && into.len() > SMALL {
            self.look_for_an_end(alloc, path)?;
        }
        let Some(mut kept) = self.take_kept(alloc, path, offset)? else {
            return Ok(None);
        };
        match kept.read(&mut self.system, offset, into) {
            Ok(len) => {
                self.kept = Some(kept);
                Ok(Some(len))
            }
            Err(error) => Err(self.fault(alloc, path, &error)),
        }
    }

    /// The file is claimed until it is moved or another one is written.
    fn write(&mut self, alloc: Global, path: &[u8], bytes: &[u8]) -> Result<(), TreeFault>
        ensures written { S.is_honest → OnOk result (content (S.world self.new.system).files path.now ≡ Some bytes.now) }
        ensures others { S.is_honest → SameBut path.now (S.world self.old.system).files (S.world self.new.system).files }
        ensures kept { S.backdated self.new.system ≡ S.backdated self.old.system }
        ensures refused { S.is_honest → IsErrOf result TreeFault.OutOfMemory → (S.world self.new.system).files ≡ (S.world self.old.system).files }
        ensures never { IsErrOf result TreeFault.TooLarge → ⊥ }
        ensures later { self.old.failures ≤ self.new.failures }
        ensures passed { OnOk result (self.new.failures ≡ self.old.failures) }
        ensures uncounted { IsErrOf result TreeFault.OutOfMemory → self.new.failures ≡ self.old.failures }
        ensures cause { IsErrOf result TreeFault.Device → HasRisen self.old.failures self.new.failures }
        // Of the files' times, the claim, the readings, and what is reported.
        ensures undated { S.is_honest → (S.world self.new.system).dated ≡ (S.world self.old.system).dated }
        ensures claimed { OnOk result (MatchOption self.new.written ⊥ (λ h. S.is_claimed h ≡ true)) }
        ensures of_path { S.is_honest → OnOk result (IfSome self.new.written (λ h. (S.opened h).path ≡ path.now)) }
        ensures forgotten { self.new.held ≡ None }
        ensures reported { IsErrOf result TreeFault.Device → IfSome self.new.last_error (λ fault. string_bytes fault.path ≡ path.now) }
    {
        self.forget_readings();
        self.written = None;
        let Some(host_path) = self.system.host_path(alloc, path)? else {
            return Err(self.device());
        };
        match write_new(&mut self.system, host_path.as_str(), bytes) {
            Ok(file) => {
                self.written = Some(file);
                Ok(())
            }
            Err(error) => Err(self.fault(alloc, path, &error)),
        }
    }

    /// A new file has the first second of 1970 as its time: what was built before it counts as newer.
    fn create(&mut self, alloc: Global, path: &[u8], bytes: &[u8]) -> Result<(), TreeFault>
        ensures made { S.is_honest → OnOk result (content (S.world self.new.system).files path.now ≡ Some (kept_or (content (S.world self.old.system).files path.now) bytes.now)) }
        ensures failed { S.is_honest → OnErr result (IsHalfCreated (content (S.world self.old.system).files path.now) bytes.now (content (S.world self.new.system).files path.now)) }
        ensures others { S.is_honest → SameBut path.now (S.world self.old.system).files (S.world self.new.system).files }
        ensures kept { S.backdated self.new.system ≡ S.backdated self.old.system }
        ensures refused { S.is_honest → IsErrOf result TreeFault.OutOfMemory → (S.world self.new.system).files ≡ (S.world self.old.system).files }
        ensures never { IsErrOf result TreeFault.TooLarge → ⊥ }
        ensures later { self.old.failures ≤ self.new.failures }
        ensures passed { OnOk result (self.new.failures ≡ self.old.failures) }
        ensures uncounted { IsErrOf result TreeFault.OutOfMemory → self.new.failures ≡ self.old.failures }
        ensures cause { IsErrOf result TreeFault.Device → HasRisen self.old.failures self.new.failures }
        // Of the files' times, the readings, and what is reported.
        ensures dated { S.is_honest → OnOk result (content (S.world self.old.system).files path.now ≡ None →
            (S.world self.new.system).dated ≡ (S.world self.old.system).dated ++ path.now ∷ []) }
        ensures stood { S.is_honest → IsSome (content (S.world self.old.system).files path.now) → (S.world self.new.system).dated ≡ (S.world self.old.system).dated }
        ensures undated { S.is_honest → OnErr result ((S.world self.new.system).dated ≡ (S.world self.old.system).dated) }
        ensures forgotten { self.new.held ≡ None }
        ensures reported { IsErrOf result TreeFault.Device → IfSome self.new.last_error (λ fault. string_bytes fault.path ≡ path.now) }
    {
        self.forget_readings();
        let Some(host_path) = self.system.host_path(alloc, path)? else {
            return Err(self.device());
        };
        match create_new(&mut self.system, host_path.as_str(), bytes) {
            Ok(()) => Ok(()),
            Err(error) => Err(self.fault(alloc, path, &error)),
        }
    }

    /// A failure is reported at the path that the file was to have, since the temporary one says nothing to a user.
    fn rename(&mut self, alloc: Global, from: &[u8], to: &[u8]) -> Result<(), TreeFault>
        requires differ { from.now ≢ to.now }
        requires there { S.is_honest → IsSome (content (S.world self.old.system).files from.now) }
        ensures moved { S.is_honest → OnOk result (IsMoved from.now to.now (S.world self.old.system).files (S.world self.new.system).files) }
        ensures kept { S.backdated self.new.system ≡ S.backdated self.old.system }
        ensures failed { S.is_honest → OnErr result (((S.world self.new.system).files ≡ (S.world self.old.system).files)
            ⊎ IsMoved from.now to.now (S.world self.old.system).files (S.world self.new.system).files) }
        ensures refused { S.is_honest → IsErrOf result TreeFault.OutOfMemory → (S.world self.new.system).files ≡ (S.world self.old.system).files }
        ensures never { IsErrOf result TreeFault.TooLarge → ⊥ }
        ensures later { self.old.failures ≤ self.new.failures }
        ensures passed { OnOk result (self.new.failures ≡ self.old.failures) }
        ensures uncounted { IsErrOf result TreeFault.OutOfMemory → self.new.failures ≡ self.old.failures }
        ensures cause { IsErrOf result TreeFault.Device → HasRisen self.old.failures self.new.failures }
        // Of the files' times, the readings, and what is reported.
        ensures undated { S.is_honest → (S.world self.new.system).dated ≡ (S.world self.old.system).dated }
        ensures forgotten { self.new.held ≡ None }
        ensures reported { IsErrOf result TreeFault.Device → IfSome self.new.last_error (λ fault. string_bytes fault.path ≡ to.now) }
        ensures due { S.is_honest → IsErrOf result TreeFault.Device → HasRisen (S.faults self.old.system) (S.faults self.new.system)
            ⊎ ((IsUtf8 from.now → ⊥) ⊎ (IsUtf8 to.now → ⊥)) }
    {
        self.forget_readings();
        let Some(old) = self.system.host_path(alloc, from)? else {
            return Err(self.device());
        };
        let Some(new) = self.system.host_path(alloc, to)? else {
            return Err(self.device());
        };
        let outcome = self.system.rename(old.as_str(), new.as_str());
        // The claim is given up only now, so that no other program removes the file before it is moved.
        self.written = None;
        match outcome {
            Ok(()) => Ok(()),
            Err(error) => Err(self.fault(alloc, to, &error)),
        }
    }

    fn seed(&self) -> u64
        ensures { result ≡ self.now.seed }
    {
        self.seed
    }
}

/// Opens a regular file, to make it older than all others, or gives `None` where there is none. A pipe isn't opened.
fn open_to_backdate<S: System>(system: &mut S, host_path: &str) -> io::Result<Option<S::Handle>>
    ensures opened { S.is_honest → IfOk result (λ file. MatchOption file (content (S.world system.old).files (S.path_at host_path.now) ≡ None)
        (λ h. (S.opened h).path ≡ S.path_at host_path.now)) }
    ensures unchanged { S.is_honest → S.world system.new ≡ S.world system.old }
    ensures kept { S.backdated system.new ≡ S.backdated system.old }
    ensures passed { S.is_honest → OnOk result (S.faults system.new ≡ S.faults system.old) }
    ensures cause { S.is_honest → OnErr result (HasRisen (S.faults system.old) (S.faults system.new) ⊎ IsNoFile (S.kind_at system.old (S.path_at host_path.now))) }
{
    let Some(look) = found_of(system.look(host_path))? else {
        return Ok(None);
    };
    if look.kind != Kind::File {
        return Err(without_an_end(look.kind));
    }
    found_of(system.open(host_path))
}

/// Makes the file at a place older than all others, if there is one.
fn backdate_file<S: System>(system: &mut S, host_path: &str) -> io::Result<()>
    ensures backdated { S.is_honest → OnOk result (S.backdated system.new ≡ S.backdated system.old ++ S.path_at host_path.now ∷ []) }
    ensures failed { S.is_honest → OnErr result (S.backdated system.new ≡ S.backdated system.old) }
    ensures unchanged { S.is_honest → S.world system.new ≡ S.world system.old }
    ensures cause { S.is_honest → OnErr result (HasRisen (S.faults system.old) (S.faults system.new) ⊎ IsNoFile (S.kind_at system.old (S.path_at host_path.now))) }
{
    let file = open_to_backdate(system, host_path)?;
    system.backdate(host_path, file)
}

impl<S: System + Drop> Backdating for SystemTree<S> {
    /// The file gets the first second of 1970 as its time, as a stamp that was made.
    fn backdate(&mut self, alloc: Global, path: &[u8]) -> Result<(), TreeFault>
        ensures backdated { S.is_honest → OnOk result (S.backdated self.new.system ≡ S.backdated self.old.system ++ path.now ∷ []) }
        ensures failed { S.is_honest → OnErr result ((S.backdated self.new.system ≡ S.backdated self.old.system)
            ⊎ (S.backdated self.new.system ≡ S.backdated self.old.system ++ path.now ∷ [])) }
        ensures refused { S.is_honest → IsErrOf result TreeFault.OutOfMemory → S.backdated self.new.system ≡ S.backdated self.old.system }
        ensures unchanged { S.is_honest → (S.world self.new.system).files ≡ (S.world self.old.system).files }
        ensures never { IsErrOf result TreeFault.TooLarge → ⊥ }
        ensures later { self.old.failures ≤ self.new.failures }
        ensures passed { OnOk result (self.new.failures ≡ self.old.failures) }
        ensures uncounted { IsErrOf result TreeFault.OutOfMemory → self.new.failures ≡ self.old.failures }
        ensures cause { IsErrOf result TreeFault.Device → HasRisen self.old.failures self.new.failures }
        // Of the files that were made, the claim, what is reported, and what a failure comes of.
        ensures undated { S.is_honest → (S.world self.new.system).dated ≡ (S.world self.old.system).dated }
        ensures claim { self.new.written ≡ self.old.written }
        ensures reported { IsErrOf result TreeFault.Device → IfSome self.new.last_error (λ fault. string_bytes fault.path ≡ path.now) }
        ensures due { S.is_honest → IsErrOf result TreeFault.Device → HasRisen (S.faults self.old.system) (S.faults self.new.system)
            ⊎ ((IsUtf8 path.now → ⊥) ⊎ IsNoFile (S.kind_at self.old.system path.now)) }
    {
        let Some(host_path) = self.system.host_path(alloc, path)? else {
            return Err(self.device());
        };
        match backdate_file(&mut self.system, host_path.as_str()) {
            Ok(()) => Ok(()),
            Err(error) => Err(self.fault(alloc, path, &error)),
        }
    }
}
