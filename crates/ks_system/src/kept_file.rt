//! A file that is asked for in small pieces, and read from the system in larger ones: a system call costs more than a copy of what it
//! reads. The room is made once for all files, and never cleared in between. The bytes of one file and offset are never given for
//! another.
ghost use Rattle.std.specs.Prelude.{◌≡◌, ◌≢◌, ◌⊎◌, ◌↔◌, ◌≤◌, ◌<◌, ◌+◌, ◌++◌, ℕ, List, [], Option, Some, min, length, take, drop, IfOk, IsTrue, OnErr, OnOk};
ghost use Rattle.ks_tree.specs.Files.{IsReadAt, content};
ghost use Rattle.ks_system.specs.System.{HasFailed, IsSomeReadAt};
ghost use Rattle.ks_system.specs.Reading.{IsAheadOf, nothing_of};

use crate::System;
use crate::reading::{buffer, never_done, read_some};
use std::alloc::{AllocError, Global};
use std::io;
use std::io::ErrorKind;
use std::marker::Model;

/// How much is read from the system at once. Most headers are shorter.
const BUFFER: usize = 32768;

/// Bytes that were read before they were asked for: of which file, and from which offset on.
#[derive(Drop)]
pub(crate) struct ReadAhead {
    path: Vec<u8>,
    /// The offset of the room in the file.
    base: u64,
    buffer: Vec<u8>,
    start: usize,
    end: usize,
}

impl Model for ReadAhead {
    ghost use Rattle.std.specs.Prelude.{◌≤◌, ◌<◌, ◌+◌, length, take, drop};
    ghost use Rattle.ks_system.specs.Reading.{Ahead};

    ghost Value = { Ahead };

    ghost view = { λ a. record { path = a.path.items; offset = a.base + a.start; bytes = drop a.start (take a.end a.buffer.items) } };

    ghost invariant = { λ a. (a.start ≤ a.end) × (a.end ≤ length a.buffer.items) × (0 < length a.buffer.items) };
}

impl ReadAhead {
    /// Nothing yet, of the file at a path.
    fn new(alloc: Global, path: &[u8]) -> Result<ReadAhead, AllocError>
        ensures { IfOk result (λ ahead. ahead ≡ nothing_of path.now 0) }
    {
        Ok(ReadAhead {
            path: path.to_vec(alloc)?,
            base: 0,
            buffer: buffer(alloc, BUFFER)?,
            start: 0,
            end: 0,
        })
    }

    /// Drops what was read of one file, and begins with another one.
    fn begin(&mut self, path: &[u8]) -> Result<(), AllocError>
        ensures { OnOk result (self.new ≡ nothing_of path.now 0) }
    {
        self.base = 0;
        self.start = 0;
        self.end = 0;
        self.path.clear();
        self.path.extend_from_slice(path)
    }

    /// Whether this is of the file at a path.
    fn is_of(&self, path: &[u8]) -> bool
        ensures { IsTrue result ↔ (self.now.path ≡ path.now) }
    {
        self.path.as_slice() == path
    }

    /// Whether what was read goes on at an offset.
    fn is_at(&self, offset: u64) -> bool
        ensures { IsTrue result ↔ (self.now.offset ≡ offset) }
    {
        match self.base.checked_add(self.start as u64) {
            Some(at) => at == offset,
            None => false,
        }
    }

    fn is_empty(&self) -> bool
        ensures { IsTrue result ↔ (length self.now.bytes ≡ 0) }
    {
        self.start == self.end
    }

    /// Drops what was read, and goes on at an offset.
    fn begin_at(&mut self, offset: u64)
        ensures { self.new ≡ nothing_of self.old.path offset }
    {
        self.base = offset;
        self.start = 0;
        self.end = 0;
    }

    /// Goes on at an offset. What was read of another place is dropped.
    #[tactic(auto, using(crate::proofs::Ahead::nothing_ahead))]
    fn go_to(&mut self, offset: u64)
        ensures offset { self.new.offset ≡ offset }
        ensures path { self.new.path ≡ self.old.path }
        ensures ahead { (file : Option (List ℕ)) → IsAheadOf file self.old → IsAheadOf file self.new }
    {
        if !self.is_at(offset) {
            self.begin_at(offset);
        }
    }

    /// Gives of what was read, as much as there is room for, and tells how many bytes these are.
    fn serve(&mut self, into: &mut [u8]) -> usize
        ensures count { result ≡ min (length self.old.bytes) (length into.old) }
        ensures given { into.new ≡ take result self.old.bytes ++ drop result into.old }
        ensures left { self.new.bytes ≡ drop result self.old.bytes }
        ensures path { self.new.path ≡ self.old.path }
        ensures offset { self.new.offset ≡ self.old.offset + result }
    {
        let ahead = &self.buffer[self.start..self.end];
        let count = ahead.len().min(into.len());
        into[..count].copy_from_slice(&ahead[..count]);
        self.start += count;
        count
    }

    /// Reads on in the file, once all was given.
    fn fill<S: System>(&mut self, system: &mut S, file: &S::Handle) -> io::Result<usize>
        requires current { S.is_honest → (S.opened file.now).names ≡ (S.world system.old).names }
        ensures read { S.is_honest → OnOk result (IsAheadOf (content (S.world system.old).files (S.opened file.now).path) self.new) }
        ensures end { S.is_honest → IfOk result (λ n. n ≡ 0 →
            (b : List ℕ) → content (S.world system.old).files (S.opened file.now).path ≡ Some b → length b ≤ self.new.offset) }
        ensures count { IfOk result (λ n. n ≡ length self.new.bytes) }
        ensures path { self.new.path ≡ self.old.path }
        ensures offset { self.new.offset ≡ self.old.offset }
        ensures unchanged { S.is_honest → S.world system.new ≡ S.world system.old }
        ensures kept { S.backdated system.new ≡ S.backdated system.old }
        ensures passed { S.is_honest → OnOk result (S.faults system.new ≡ S.faults system.old) }
        ensures cause { S.is_honest → OnErr result (HasFailed (S.faults system.old) (S.faults system.new) (S.signals system.new)
            ⊎ (18446744073709551615 < self.old.offset)) }
    {
        let Some(offset) = self.base.checked_add(self.start as u64) else {
            return Err(io::Error::new(ErrorKind::FileTooLarge, "No such offset"));
        };
        self.base = offset;
        self.start = 0;
        self.end = 0;
        let count = read_some(system, file, offset, &mut self.buffer)?;
        self.end = count;
        Ok(count)
    }
}

/// An open file, with what was read ahead of it.
#[derive(Drop)]
pub(crate) struct KeptFile<S: System> {
    file: S::Handle,
    ahead: ReadAhead,
}

impl<S: System> KeptFile<S> {
    /// A newly opened file, in the room of the file that was kept before, if there was one.
    pub(crate) fn open(
        alloc: Global,
        earlier: Option<KeptFile<S>>,
        path: &[u8],
        file: S::Handle,
    ) -> Result<KeptFile<S>, AllocError>
        ensures { IfOk result (λ kept. (kept.file ≡ file) × (kept.ahead ≡ nothing_of path.now 0)) }
    {
        let Some(mut kept) = earlier else {
            return Ok(KeptFile {
                file,
                ahead: ReadAhead::new(alloc, path)?,
            });
        };
        kept.ahead.begin(path)?;
        kept.file = file;
        Ok(kept)
    }

    /// Whether this is the file at a path.
    pub(crate) fn is_at(&self, path: &[u8]) -> bool
        ensures { IsTrue result ↔ (self.now.ahead.path ≡ path.now) }
    {
        self.ahead.is_of(path)
    }

    /// Reads on, where all that was read was given.
    fn refill(&mut self, system: &mut S) -> io::Result<()>
        requires current { S.is_honest → (S.opened self.old.file).names ≡ (S.world system.old).names }
        requires ahead { S.is_honest → IsAheadOf (content (S.world system.old).files (S.opened self.old.file).path) self.old.ahead }
        ensures ahead { S.is_honest → OnOk result (IsAheadOf (content (S.world system.old).files (S.opened self.old.file).path) self.new.ahead) }
        ensures end { S.is_honest → OnOk result (length self.new.ahead.bytes ≡ 0 →
            (b : List ℕ) → content (S.world system.old).files (S.opened self.old.file).path ≡ Some b → length b ≤ self.new.ahead.offset) }
        ensures path { self.new.ahead.path ≡ self.old.ahead.path }
        ensures offset { self.new.ahead.offset ≡ self.old.ahead.offset }
        ensures file { self.new.file ≡ self.old.file }
        ensures unchanged { S.is_honest → S.world system.new ≡ S.world system.old }
        ensures kept { S.backdated system.new ≡ S.backdated system.old }
        ensures passed { S.is_honest → OnOk result (S.faults system.new ≡ S.faults system.old) }
        ensures cause { S.is_honest → OnErr result (HasFailed (S.faults system.old) (S.faults system.new) (S.signals system.new)
            ⊎ (18446744073709551615 < self.old.ahead.offset)) }
    {
        if self.ahead.is_empty() {
            self.ahead.fill(system, &self.file)?;
        }
        Ok(())
    }

    /// Gives some of the next bytes, but none only at the end, or where there is no room.
    fn give_some(&mut self, system: &mut S, into: &mut [u8]) -> io::Result<usize>
        requires current { S.is_honest → (S.opened self.old.file).names ≡ (S.world system.old).names }
        requires ahead { S.is_honest → IsAheadOf (content (S.world system.old).files (S.opened self.old.file).path) self.old.ahead }
        ensures read { S.is_honest → IfOk result (IsSomeReadAt (content (S.world system.old).files (S.opened self.old.file).path) self.old.ahead.offset into.old into.new) }
        ensures ahead { S.is_honest → OnOk result (IsAheadOf (content (S.world system.old).files (S.opened self.old.file).path) self.new.ahead) }
        ensures offset { IfOk result (λ n. self.new.ahead.offset ≡ self.old.ahead.offset + n) }
        ensures within { IfOk result (λ n. n ≤ length into.new) }
        ensures buffer { length into.new ≡ length into.old }
        ensures path { self.new.ahead.path ≡ self.old.ahead.path }
        ensures file { self.new.file ≡ self.old.file }
        ensures unchanged { S.is_honest → S.world system.new ≡ S.world system.old }
        ensures kept { S.backdated system.new ≡ S.backdated system.old }
        ensures passed { S.is_honest → OnOk result (S.faults system.new ≡ S.faults system.old) }
        ensures cause { S.is_honest → OnErr result (HasFailed (S.faults system.old) (S.faults system.new) (S.signals system.new)
            ⊎ (18446744073709551615 < self.old.ahead.offset)) }
    {
        self.refill(system)?;
        Ok(self.ahead.serve(into))
    }

    /// The bytes from an offset on, as many as there is room for, and how many these are. Fewer than there is room for are given only
    /// where the file had no more.
    pub(crate) fn read(&mut self, system: &mut S, offset: u64, into: &mut [u8]) -> io::Result<usize>
        requires current { S.is_honest → (S.opened self.old.file).names ≡ (S.world system.old).names }
        requires ahead { S.is_honest → IsAheadOf (content (S.world system.old).files (S.opened self.old.file).path) self.old.ahead }
        ensures found { S.is_honest → IfOk result (λ n. IsReadAt (content (S.world system.old).files (S.opened self.old.file).path) offset into.old into.new (Some n)) }
        ensures ahead { S.is_honest → OnOk result (IsAheadOf (content (S.world system.old).files (S.opened self.old.file).path) self.new.ahead) }
        ensures within { IfOk result (λ n. n ≤ length into.new) }
        ensures path { self.new.ahead.path ≡ self.old.ahead.path }
        ensures file { self.new.file ≡ self.old.file }
        ensures unchanged { S.is_honest → S.world system.new ≡ S.world system.old }
        ensures kept { S.backdated system.new ≡ S.backdated system.old }
        ensures cause { S.is_honest → OnErr result (HasFailed (S.faults system.old) (S.faults system.new) (S.signals system.new)
            ⊎ (18446744073709551615 < offset + length into.old)) }
    {
        self.ahead.go_to(offset);
        let mut given = 0;
        for _ in 0..u64::MAX {
            if given == into.len() {
                return Ok(given);
            }
            let count = self.give_some(system, &mut into[given..])?;
            if count == 0 {
                return Ok(given);
            }
            given += count;
        }
        Err(never_done())
    }
}
