//! Reading by a handle. Neither a short read nor an interrupted one is taken for the end: otherwise a symbol that stands further on in
//! a file would be missed, and an object called fresh.
ghost use Rattle.std.specs.Prelude.{◌≡◌, ◌⊎◌, ◌≤◌, ◌<◌, ℕ, List, Some, None, Ok, IsSome, IfOk, IsErrOf, OnOk, OnErr, IfSome, Option, length, take, option_map};
ghost use Rattle.std.specs.IoError.{error_kind};
ghost use Rattle.std.specs.declared.io.ErrorKind.TheVariants as kind;
ghost use Rattle.ks_symbols.specs.Lines.{max_bytes};
ghost use Rattle.ks_tree.specs.Files.{IsTooLarge, content};
ghost use Rattle.ks_system.specs.System.{HasFailed, IsLookAt, IsSomeReadAt};
ghost use Rattle.ks_system.specs.Reading.{IsReadTo, HasNoEnd, IsOfSystem, has_an_end};
ghost use Rattle.ks_system.specs.declared.system.Kind.{Kind};
ghost use Rattle.ks_system.specs.declared.fs_error.ReadError.{ReadError};

use crate::errors::{Meaning, found_of, meaning_of};
use crate::fs_error::ReadError;
use crate::{Kind, Look, System};
use ks_symbols::MAX_BYTES;
use std::alloc::{AllocError, Global};
use std::io;
use std::io::ErrorKind;

/// How much is read at once where a file's length isn't known.
const BUFFER: usize = 32768;

/// That a call never ends to be interrupted.
pub(crate) fn never_done() -> io::Error
    ensures { error_kind result ≡ kind.Other }
{
    io::Error::new(ErrorKind::Other, "Interrupted without end")
}

/// So many bytes of room, copied many at once: one by one takes longer than to read as many.
pub(crate) fn buffer(alloc: Global, size: usize) -> Result<Vec<u8>, AllocError>
    ensures { IfOk result (λ buffer. length buffer.items ≡ size) }
{
    let zeros = [0; 2048];
    let mut buffer = Vec::with_capacity(alloc, size)?;
    while buffer.len() < size {
        let count = zeros.len().min(size - buffer.len());
        buffer.extend_from_slice(&zeros[..count])?;
    }
    Ok(buffer)
}

/// Reads some bytes, and tries an interrupted read again.
pub(crate) fn read_some<S: System>(
    system: &mut S,
    handle: &S::Handle,
    offset: u64,
    into: &mut [u8],
) -> io::Result<usize>
    requires current { S.is_honest → (S.opened handle.now).names ≡ (S.world system.old).names }
    ensures read { S.is_honest → IfOk result (IsSomeReadAt (content (S.world system.old).files (S.opened handle.now).path) offset into.old into.new) }
    ensures within { IfOk result (λ n. n ≤ length into.new) }
    ensures buffer { length into.new ≡ length into.old }
    ensures unchanged { S.is_honest → S.world system.new ≡ S.world system.old }
    ensures kept { S.backdated system.new ≡ S.backdated system.old }
    ensures passed { S.is_honest → OnOk result (S.faults system.new ≡ S.faults system.old) }
    ensures cause { S.is_honest → OnErr result (HasFailed (S.faults system.old) (S.faults system.new) (S.signals system.new)) }
{
    for _ in 0..u64::MAX {
        match system.read_at(handle, offset, into) {
            Ok(count) => return Ok(count),
            Err(error) if meaning_of(&error) == Meaning::Interrupted => {}
            Err(error) => return Err(error),
        }
    }
    Err(never_done())
}

/// Reads a file from its beginning on, until the room is full or the file ends, and tells how many bytes these are.
pub(crate) fn fill<S: System>(
    system: &mut S,
    handle: &S::Handle,
    into: &mut [u8],
) -> io::Result<usize>
    requires current { S.is_honest → (S.opened handle.now).names ≡ (S.world system.old).names }
    ensures read { S.is_honest → IfOk result (λ n. IsReadTo (content (S.world system.old).files (S.opened handle.now).path) (take n into.new)) }
    ensures whole { S.is_honest → IfOk result (λ n. n < length into.new →
        content (S.world system.old).files (S.opened handle.now).path ≡ Some (take n into.new)) }
    ensures within { IfOk result (λ n. n ≤ length into.new) }
    ensures buffer { length into.new ≡ length into.old }
    ensures unchanged { S.is_honest → S.world system.new ≡ S.world system.old }
    ensures kept { S.backdated system.new ≡ S.backdated system.old }
    ensures passed { S.is_honest → OnOk result (S.faults system.new ≡ S.faults system.old) }
    ensures cause { S.is_honest → OnErr result (HasFailed (S.faults system.old) (S.faults system.new) (S.signals system.new)) }
{
    let mut given = 0;
    for _ in 0..u64::MAX {
        if given == into.len() {
            return Ok(given);
        }
        let count = read_some(system, handle, given as u64, &mut into[given..])?;
        if count == 0 {
            return Ok(given);
        }
        given += count;
    }
    Err(never_done())
}

/// Reads a file on to its end, piece by piece.
fn read_rest<S: System>(
    system: &mut S,
    handle: &S::Handle,
    mut bytes: Vec<u8>,
    buffer: &mut [u8],
) -> Result<Vec<u8>, ReadError>
    requires current { S.is_honest → (S.opened handle.now).names ≡ (S.world system.old).names }
    requires buffer { 0 < length buffer.old }
    requires small { length bytes.items ≤ max_bytes }
    requires so_far { S.is_honest → IsReadTo (content (S.world system.old).files (S.opened handle.now).path) bytes.items }
    ensures read { S.is_honest → IfOk result (λ v. content (S.world system.old).files (S.opened handle.now).path ≡ Some v.items) }
    ensures small { IfOk result (λ v. length v.items ≤ max_bytes) }
    ensures too_large { S.is_honest → IsErrOf result ReadError.TooLarge → IsTooLarge (content (S.world system.old).files (S.opened handle.now).path) }
    ensures unchanged { S.is_honest → S.world system.new ≡ S.world system.old }
    ensures kept { S.backdated system.new ≡ S.backdated system.old }
    ensures cause { S.is_honest → IsOfSystem result → HasFailed (S.faults system.old) (S.faults system.new) (S.signals system.new) }
{
    for _ in 0..u64::MAX {
        let count = read_some(system, handle, bytes.len() as u64, buffer)?;
        if count == 0 {
            return Ok(bytes);
        }
        if count > MAX_BYTES - bytes.len() {
            return Err(ReadError::TooLarge);
        }
        bytes.extend_from_slice(&buffer[..count])?;
    }
    Err(ReadError::System(never_done()))
}

/// Reads a whole file of so many bytes, or of more or fewer where it has changed since it was looked at. One read gives the bytes, and
/// a second one sees the end.
fn read_opened<S: System>(
    alloc: Global,
    system: &mut S,
    handle: &S::Handle,
    size: usize,
) -> Result<Vec<u8>, ReadError>
    requires current { S.is_honest → (S.opened handle.now).names ≡ (S.world system.old).names }
    requires there { S.is_honest → IsSome (content (S.world system.old).files (S.opened handle.now).path) }
    requires small { size ≤ max_bytes }
    ensures read { S.is_honest → IfOk result (λ v. content (S.world system.old).files (S.opened handle.now).path ≡ Some v.items) }
    ensures small { IfOk result (λ v. length v.items ≤ max_bytes) }
    ensures too_large { S.is_honest → IsErrOf result ReadError.TooLarge → IsTooLarge (content (S.world system.old).files (S.opened handle.now).path) }
    ensures unchanged { S.is_honest → S.world system.new ≡ S.world system.old }
    ensures kept { S.backdated system.new ≡ S.backdated system.old }
    ensures cause { S.is_honest → IsOfSystem result → HasFailed (S.faults system.old) (S.faults system.new) (S.signals system.new) }
{
    let mut bytes = buffer(alloc, size + 1)?;
    let count = fill(system, handle, &mut bytes)?;
    if count < bytes.len() {
        bytes.truncate(count);
        return Ok(bytes);
    }
    if count > MAX_BYTES {
        return Err(ReadError::TooLarge);
    }
    let mut buffer = buffer(alloc, BUFFER)?;
    read_rest(system, handle, bytes, &mut buffer)
}

/// Whether a file can be read to its end without waiting for anybody: a regular file, a disk, and `/dev/null`.
pub(crate) fn has_an_end(kind: Kind) -> bool
    ensures { result ≡ has_an_end kind }
{
    matches!(kind, Kind::File | Kind::Disk | Kind::Null)
}

/// Why such a file isn't read.
pub(crate) fn without_an_end(kind: Kind) -> io::Error {
    if kind == Kind::Directory {
        io::Error::new(ErrorKind::IsADirectory, "Is a directory")
    } else {
        io::Error::new(ErrorKind::InvalidInput, "Not a regular file")
    }
}

/// For how many bytes room is made, of what was looked at, or why it isn't read.
fn size_to_read(look: &Look) -> Result<usize, ReadError>
    ensures small { IfOk result (λ n. n ≤ max_bytes) }
    ensures too_large { (file : Option (List ℕ)) → IsLookAt file look.now → IsErrOf result ReadError.TooLarge → IsTooLarge file }
    ensures cause { IsOfSystem result → HasNoEnd look.now.kind }
{
    if !has_an_end(look.kind) {
        return Err(ReadError::System(without_an_end(look.kind)));
    }
    if look.size <= MAX_BYTES as u64 {
        return Ok(look.size as usize);
    }
    if look.kind == Kind::File {
        return Err(ReadError::TooLarge);
    }
    Ok(MAX_BYTES)
}

/// The bytes of the file at a place, or `None` where there is none. A pipe isn't even opened, since that may wait for ever.
pub(crate) fn read_whole<S: System>(
    alloc: Global,
    system: &mut S,
    host_path: &str,
) -> Result<Option<Vec<u8>>, ReadError>
    ensures found { S.is_honest → IfOk result (λ found. option_map (λ v. v.items) found ≡ content (S.world system.old).files (S.path_at host_path.now)) }
    ensures small { IfOk result (λ found. IfSome found (λ v. length v.items ≤ max_bytes)) }
    ensures too_large { S.is_honest → IsErrOf result ReadError.TooLarge → IsTooLarge (content (S.world system.old).files (S.path_at host_path.now)) }
    ensures unchanged { S.is_honest → S.world system.new ≡ S.world system.old }
    ensures kept { S.backdated system.new ≡ S.backdated system.old }
    ensures cause { S.is_honest → IsOfSystem result → HasFailed (S.faults system.old) (S.faults system.new) (S.signals system.new)
        ⊎ ((k : Kind) × (S.kind_at system.old (S.path_at host_path.now) ≡ Some k) × HasNoEnd k) }
{
    let Some(look) = found_of(system.look(host_path))? else {
        return Ok(None);
    };
    let size = size_to_read(&look)?;
    let Some(handle) = found_of(system.open(host_path))? else {
        return Ok(None);
    };
    Ok(Some(read_opened(alloc, system, &handle, size)?))
}
