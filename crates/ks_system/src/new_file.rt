//! A new file at a place, whatever is left over there, or only where nothing is. What stands there is never written into: it may be a
//! link, and its bytes those of another tree. A new file is claimed until it is moved, so that of two programs that write at one place
//! neither moves what the other has only begun. A short write is never taken for the whole.
ghost use Rattle.std.specs.Prelude.{◌≡◌, ◌⊎◌, ◌≤◌, ◌++◌, ◌∷◌, ℕ, [], true, Some, None, IsNone, IsSome, IfErr, IfOk, IfSome, OnOk, OnErr, MatchOption, length, take};
ghost use Rattle.std.specs.declared.io.ErrorKind.TheVariants as kind;
ghost use Rattle.std.specs.IoError.{error_kind};
ghost use Rattle.ks_tree.specs.Files.{IsHalfCreated, SameBut, content, kept_or};
ghost use Rattle.ks_system.specs.Errors.{IsPassed, IsReported, IsReportedBut, IsReportedOfWriting, meaning_of};
ghost use Rattle.ks_system.specs.System.{Begun, IsAppended, IsMade};
ghost use Rattle.ks_system.specs.declared.errors.Meaning.{Meaning};

use crate::errors::{Meaning, meaning_of};
use crate::reading::never_done;
use crate::{Kind, System};
use std::io;
use std::io::ErrorKind;

/// How often a file is made before its place counts as taken.
const TRIES: usize = 16;

/// Writes some of the bytes at the end of a file that was made, and tries an interrupted write again.
fn write_some<S: System>(system: &mut S, handle: &mut S::Handle, bytes: &[u8]) -> io::Result<usize>
    requires current { S.is_honest → (S.opened handle.old).names ≡ (S.world system.old).names }
    requires made { S.is_honest → (S.opened handle.old).made ≡ true }
    ensures written { S.is_honest → IfOk result (λ n. IsAppended (S.opened handle.old).path (take n bytes.now) (S.world system.old).files (S.world system.new).files) }
    ensures within { IfOk result (λ n. n ≤ length bytes.now) }
    ensures names { S.is_honest → (S.world system.new).names ≡ (S.world system.old).names }
    ensures dated { S.is_honest → (S.world system.new).dated ≡ (S.world system.old).dated }
    ensures failed { S.is_honest → OnErr result (S.world system.new ≡ S.world system.old) }
    ensures opened { S.opened handle.new ≡ S.opened handle.old }
    ensures claimed { S.is_claimed handle.new ≡ S.is_claimed handle.old }
    ensures kept { S.backdated system.new ≡ S.backdated system.old }
    ensures passed { S.is_honest → OnOk result (S.last_error system.new ≡ None) }
    ensures reported { S.is_honest → IfErr result (IsReportedBut Meaning.Interrupted kind.Other (S.last_error system.new)) }
{
    for _ in 0..u64::MAX {
        match system.write(handle, bytes) {
            Ok(count) => return Ok(count),
            Err(error) if meaning_of(&error) == Meaning::Interrupted => {}
            Err(error) => return Err(error),
        }
    }
    Err(never_done())
}

/// Writes all of the bytes into a file that was made.
fn fill_new<S: System>(system: &mut S, handle: &mut S::Handle, bytes: &[u8]) -> io::Result<()>
    requires current { S.is_honest → (S.opened handle.old).names ≡ (S.world system.old).names }
    requires made { S.is_honest → (S.opened handle.old).made ≡ true }
    requires empty { S.is_honest → content (S.world system.old).files (S.opened handle.old).path ≡ Some [] }
    ensures written { S.is_honest → OnOk result (content (S.world system.new).files (S.opened handle.old).path ≡ Some bytes.now) }
    ensures begun { S.is_honest → (n : ℕ) × Begun (S.world system.new).files (S.opened handle.old).path bytes.now n }
    ensures others { S.is_honest → SameBut (S.opened handle.old).path (S.world system.old).files (S.world system.new).files }
    ensures dated { S.is_honest → (S.world system.new).dated ≡ (S.world system.old).dated }
    ensures opened { S.opened handle.new ≡ S.opened handle.old }
    ensures claimed { S.is_claimed handle.new ≡ S.is_claimed handle.old }
    ensures kept { S.backdated system.new ≡ S.backdated system.old }
    ensures reported { S.is_honest → IfErr result (IsReportedOfWriting (S.last_error system.new)) }
{
    let mut written = 0;
    for _ in 0..u64::MAX {
        if written == bytes.len() {
            return Ok(());
        }
        let count = write_some(system, handle, &bytes[written..])?;
        if count == 0 {
            return Err(io::Error::new(ErrorKind::WriteZero, "Nothing more is written"));
        }
        written += count;
    }
    Err(never_done())
}

/// Writes all of the bytes into a file that was made, where no other program has claimed it, and gives it back.
fn write_claimed<S: System>(
    system: &mut S,
    mut handle: S::Handle,
    bytes: &[u8],
) -> io::Result<Option<S::Handle>>
    requires current { S.is_honest → (S.opened handle).names ≡ (S.world system.old).names }
    requires made { S.is_honest → (S.opened handle).made ≡ true }
    requires empty { S.is_honest → content (S.world system.old).files (S.opened handle).path ≡ Some [] }
    ensures written { S.is_honest → IfOk result (λ found. IfSome found (λ _. content (S.world system.new).files (S.opened handle).path ≡ Some bytes.now)) }
    ensures claimed { IfOk result (λ found. IfSome found (λ h. (S.is_claimed h ≡ true) × (S.opened h ≡ S.opened handle))) }
    ensures others { S.is_honest → SameBut (S.opened handle).path (S.world system.old).files (S.world system.new).files }
    ensures dated { S.is_honest → (S.world system.new).dated ≡ (S.world system.old).dated }
    ensures kept { S.backdated system.new ≡ S.backdated system.old }
    ensures passed { S.is_honest → IfOk result (λ found. IsNone found → S.last_error system.new ≡ None) }
    ensures reported { S.is_honest → IfErr result (IsReportedOfWriting (S.last_error system.new)) }
{
    if !system.claim(&mut handle) {
        return Ok(None);
    }
    // Before it was claimed, another program may have taken it for left over and removed it.
    if !system.has_a_name(&handle)? {
        return Ok(None);
    }
    fill_new(system, &mut handle, bytes)?;
    Ok(Some(handle))
}

/// Writes a new file at a place, and gives it, claimed. Directories that are missing are made.
pub(crate) fn write_new<S: System>(
    system: &mut S,
    host_path: &str,
    bytes: &[u8],
) -> io::Result<S::Handle>
    ensures written { S.is_honest → OnOk result (content (S.world system.new).files (S.path_at host_path.now) ≡ Some bytes.now) }
    ensures claimed { IfOk result (λ h. S.is_claimed h ≡ true) }
    ensures of_path { S.is_honest → IfOk result (λ h. (S.opened h).path ≡ S.path_at host_path.now) }
    ensures others { S.is_honest → SameBut (S.path_at host_path.now) (S.world system.old).files (S.world system.new).files }
    ensures dated { S.is_honest → (S.world system.new).dated ≡ (S.world system.old).dated }
    ensures kept { S.backdated system.new ≡ S.backdated system.old }
    ensures reported { S.is_honest → IfErr result (λ e. IsReportedOfWriting (S.last_error system.new) e ⊎ IsReportedBut Meaning.Missing kind.ResourceBusy (S.last_error system.new) e) }
{
    for _ in 0..TRIES {
        match system.create_new(host_path) {
            Ok(handle) => {
                if let Some(file) = write_claimed(system, handle, bytes)? {
                    return Ok(file);
                }
            }
            Err(error) => make_way(system, host_path, error)?,
        }
    }
    Err(claimed())
}

/// Does what lets a file be made at a place where that failed, or gives the failure back.
fn make_way<S: System>(system: &mut S, host_path: &str, error: io::Error) -> io::Result<()>
    requires last { S.is_honest → S.last_error system.old ≡ Some error }
    ensures others { S.is_honest → SameBut (S.path_at host_path.now) (S.world system.old).files (S.world system.new).files }
    ensures dated { S.is_honest → (S.world system.new).dated ≡ (S.world system.old).dated }
    ensures kept { S.backdated system.new ≡ S.backdated system.old }
    ensures passed { S.is_honest → OnOk result (IfSome (S.last_error system.new) (λ e. (meaning_of e ≡ Meaning.Missing) × (meaning_of error ≡ Meaning.Stands))) }
    ensures reported { S.is_honest → IfErr result (IsReported kind.ResourceBusy (S.last_error system.new)) }
{
    match meaning_of(&error) {
        Meaning::Stands => clear(system, host_path),
        Meaning::Missing => system.make_directories(host_path),
        _ => Err(error),
    }
}

/// Makes a file, or gives `None` where something stands.
fn make_once<S: System>(system: &mut S, host_path: &str) -> io::Result<Option<S::Handle>>
    ensures made { S.is_honest → IfOk result (λ found. MatchOption found
        (IsSome (content (S.world system.old).files (S.path_at host_path.now)) × (S.world system.new ≡ S.world system.old))
        (λ h. IsMade (S.path_at host_path.now) (S.world system.old).files (S.world system.new).files
        × (S.opened h ≡ record { path = S.path_at host_path.now; names = (S.world system.new).names; made = true }))) }
    ensures dated { S.is_honest → (S.world system.new).dated ≡ (S.world system.old).dated }
    ensures failed { S.is_honest → OnErr result (S.world system.new ≡ S.world system.old) }
    ensures kept { S.backdated system.new ≡ S.backdated system.old }
    ensures reported { S.is_honest → IfErr result (λ e. S.last_error system.new ≡ Some e) }
{
    match system.create_new(host_path) {
        Ok(handle) => Ok(Some(handle)),
        Err(error) if meaning_of(&error) == Meaning::Stands => Ok(None),
        Err(error) => Err(error),
    }
}

/// The same, and directories that are missing are made.
fn make_in_directories<S: System>(system: &mut S, host_path: &str) -> io::Result<Option<S::Handle>>
    ensures made { S.is_honest → IfOk result (λ found. MatchOption found
        (IsSome (content (S.world system.old).files (S.path_at host_path.now)) × (S.world system.new ≡ S.world system.old))
        (λ h. IsMade (S.path_at host_path.now) (S.world system.old).files (S.world system.new).files
        × (S.opened h ≡ record { path = S.path_at host_path.now; names = (S.world system.new).names; made = true }))) }
    ensures dated { S.is_honest → (S.world system.new).dated ≡ (S.world system.old).dated }
    ensures failed { S.is_honest → OnErr result (S.world system.new ≡ S.world system.old) }
    ensures kept { S.backdated system.new ≡ S.backdated system.old }
    ensures reported { S.is_honest → IfErr result (λ e. S.last_error system.new ≡ Some e) }
{
    match make_once(system, host_path) {
        Ok(found) => return Ok(found),
        Err(error) if meaning_of(&error) == Meaning::Missing => {}
        Err(error) => return Err(error),
    }
    system.make_directories(host_path)?;
    make_once(system, host_path)
}

/// Makes a file of these bytes, unless something stands at the place. Directories that are missing are made. The file's time is long
/// past: one of now would be newer than what was built just before, and a build that goes by times would build it once more.
pub(crate) fn create_new<S: System>(system: &mut S, host_path: &str, bytes: &[u8]) -> io::Result<()>
    ensures made { S.is_honest → OnOk result (content (S.world system.new).files (S.path_at host_path.now)
        ≡ Some (kept_or (content (S.world system.old).files (S.path_at host_path.now)) bytes.now)) }
    ensures failed { S.is_honest → OnErr result (IsHalfCreated (content (S.world system.old).files (S.path_at host_path.now)) bytes.now
        (content (S.world system.new).files (S.path_at host_path.now))) }
    ensures others { S.is_honest → SameBut (S.path_at host_path.now) (S.world system.old).files (S.world system.new).files }
    ensures dated { S.is_honest → OnOk result (content (S.world system.old).files (S.path_at host_path.now) ≡ None →
        (S.world system.new).dated ≡ (S.world system.old).dated ++ S.path_at host_path.now ∷ []) }
    ensures stood { S.is_honest → IsSome (content (S.world system.old).files (S.path_at host_path.now)) → (S.world system.new).dated ≡ (S.world system.old).dated }
    ensures undated { S.is_honest → OnErr result ((S.world system.new).dated ≡ (S.world system.old).dated) }
    ensures kept { S.backdated system.new ≡ S.backdated system.old }
    ensures reported { S.is_honest → IfErr result (IsReportedOfWriting (S.last_error system.new)) }
{
    let Some(mut handle) = make_in_directories(system, host_path)? else {
        return Ok(());
    };
    fill_new(system, &mut handle, bytes)?;
    system.date(&handle)
}

/// That another program has claimed what stands at a place.
fn claimed() -> io::Error
    ensures { error_kind result ≡ kind.ResourceBusy }
{
    io::Error::new(ErrorKind::ResourceBusy, "Another program is writing it")
}

/// Removes what is left over at a place, if it hasn't gone by now.
fn clear<S: System>(system: &mut S, host_path: &str) -> io::Result<()>
    ensures others { S.is_honest → SameBut (S.path_at host_path.now) (S.world system.old).files (S.world system.new).files }
    ensures dated { S.is_honest → (S.world system.new).dated ≡ (S.world system.old).dated }
    ensures kept { S.backdated system.new ≡ S.backdated system.old }
    ensures passed { S.is_honest → OnOk result (IsPassed Meaning.Missing (S.last_error system.new)) }
    ensures reported { S.is_honest → IfErr result (IsReported kind.ResourceBusy (S.last_error system.new)) }
{
    match remove(system, host_path) {
        Err(error) if meaning_of(&error) == Meaning::Missing => Ok(()),
        outcome => outcome,
    }
}

/// Removes a file, a link, a pipe or an empty directory. A device is nobody's left-over.
fn remove<S: System>(system: &mut S, host_path: &str) -> io::Result<()>
    ensures others { S.is_honest → SameBut (S.path_at host_path.now) (S.world system.old).files (S.world system.new).files }
    ensures dated { S.is_honest → (S.world system.new).dated ≡ (S.world system.old).dated }
    ensures kept { S.backdated system.new ≡ S.backdated system.old }
    ensures passed { S.is_honest → OnOk result (S.last_error system.new ≡ None) }
    ensures reported { S.is_honest → IfErr result (IsReported kind.ResourceBusy (S.last_error system.new)) }
{
    match system.kind(host_path)? {
        Kind::Disk | Kind::Null | Kind::Device => {
            Err(io::Error::new(ErrorKind::ResourceBusy, "A device stands there"))
        }
        Kind::Directory => system.remove_directory(host_path),
        Kind::File => remove_unclaimed(system, host_path),
        Kind::Other => system.remove_file(host_path),
    }
}

/// Removes a regular file, but none that another program has claimed.
fn remove_unclaimed<S: System>(system: &mut S, host_path: &str) -> io::Result<()>
    ensures others { S.is_honest → SameBut (S.path_at host_path.now) (S.world system.old).files (S.world system.new).files }
    ensures dated { S.is_honest → (S.world system.new).dated ≡ (S.world system.old).dated }
    ensures kept { S.backdated system.new ≡ S.backdated system.old }
    ensures passed { S.is_honest → OnOk result (S.last_error system.new ≡ None) }
    ensures reported { S.is_honest → IfErr result (IsReported kind.ResourceBusy (S.last_error system.new)) }
{
    let Ok(mut handle) = system.open_left_over(host_path) else {
        return system.remove_file(host_path);
    };
    let is_free = system.claim(&mut handle);
    if !is_free {
        return Err(claimed());
    }
    // Before it was claimed it may have been moved, and a file of another program may stand here.
    if system.is_at(&handle, host_path)? {
        return system.remove_file(host_path);
    }
    Ok(())
}
