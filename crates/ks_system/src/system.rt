//! The calls of the system that a directory's tree makes, by what an honest system does: each may be short, interrupted, or fail, as
//! POSIX has it. Which files there are, and which of them a handle has, are ghosts.
ghost use Rattle.std.specs.Prelude.{◌≡◌, ◌≢◌, ◌≤◌, ◌++◌, ◌∷◌, ℕ, List, [], Bool, length, take, Some, None, IsSome, IfOk, OnOk, OnErr, MatchOption, IsTrue, IsUtf8, true, false, Option};
ghost use Rattle.std.specs.Cow.{cow_str_bytes};
ghost use Rattle.ks_tree.specs.Files.{content, HasRisen, SameBut, IsMoved};
ghost use Rattle.ks_system.specs.declared.errors.Meaning.{Meaning};
ghost use Rattle.ks_system.specs.declared.system.Kind.{Kind};

use std::alloc::{AllocError, Global};
use std::borrow::CowStr;
use std::io;

/// What stands at a place.
#[derive(Clone, Copy, Debug, PartialEq, Eq)]
pub enum Kind {
    File,
    Directory,
    /// A device of blocks.
    Disk,
    /// `/dev/null`.
    Null,
    /// Any other device.
    Device,
    /// A pipe, a socket, or a link that isn't followed.
    Other,
}

/// What is seen at a place without opening it.
#[derive(Clone, Copy, Debug)]
pub struct Look {
    pub kind: Kind,
    pub size: u64,
}

/// Files of a system by their places. A place is text: where a path stands.
pub trait System {
    ghost use Rattle.std.specs.declared.io.Error.{Error};
    ghost use Rattle.ks_system.specs.Errors.{Says};
    ghost use Rattle.ks_system.specs.System.{World, Opened, Counts, CountsBut, IsErrorOf, IsLookAt, IsSomeReadAt, IsMade, IsAppended, dated_also};

    /// An open file.
    type Handle: Drop;

    /// What it has.
    ghost world: { Self → World };

    /// It does what is asked of it, nobody else writes its files, and no two paths name one file.
    ghost is_honest: { Type 0 };

    /// The path that stands at a place.
    ghost path_at: { List ℕ → List ℕ };

    /// Which file a handle has.
    ghost opened: { Self.Handle → Opened };

    /// No other program has claimed the file of a handle.
    ghost is_claimed: { Self.Handle → Bool };

    /// The paths whose files were made older than all others, in turn.
    ghost backdated: { Self → List (List ℕ) };

    /// How many of its calls have failed, up to the greatest `u64`.
    ghost faults: { Self → ℕ };

    /// How many of its reads and writes a signal has interrupted, up to the greatest `u64`.
    ghost signals: { Self → ℕ };

    /// The error of its last call, or `None` where that went well.
    ghost last_error: { Self → Option Error };

    /// What stands at a path, behind a link too, if anything does.
    ghost kind_at: { Self → List ℕ → Option Kind };

    /// Where a path stands, or `None` where it stands nowhere, since it is no text.
    fn host_path<'a>(&self, alloc: Global, path: &'a [u8]) -> Result<Option<CowStr<'a>>, AllocError>
        ensures { is_honest → IfOk result (λ found. MatchOption found (IsUtf8 path.now → ⊥) (λ host_path. path_at (cow_str_bytes host_path) ≡ path.now)) };

    /// Looks at what stands at a place, behind a link too.
    fn look(&mut self, host_path: &str) -> io::Result<Look>
        ensures seen { is_honest → IfOk result (IsLookAt (content (world self.old).files (path_at host_path.now))) }
        ensures kind { is_honest → IfOk result (λ look. kind_at self.old (path_at host_path.now) ≡ Some look.kind) }
        ensures missing { is_honest → Says Meaning.Missing result → content (world self.old).files (path_at host_path.now) ≡ None }
        ensures unchanged { is_honest → world self.new ≡ world self.old }
        ensures kept { backdated self.new ≡ backdated self.old }
        ensures faults { is_honest → CountsBut Meaning.Missing result (faults self.old) (faults self.new) }
        ensures error { is_honest → IsErrorOf result (last_error self.new) };

    /// What stands at a place, where a link is not followed.
    fn kind(&mut self, host_path: &str) -> io::Result<Kind>
        ensures unchanged { is_honest → world self.new ≡ world self.old }
        ensures kept { backdated self.new ≡ backdated self.old }
        ensures faults { is_honest → CountsBut Meaning.Missing result (faults self.old) (faults self.new) }
        ensures error { is_honest → IsErrorOf result (last_error self.new) };

    /// Opens a file to be read.
    fn open(&mut self, host_path: &str) -> io::Result<Self::Handle>
        ensures opened { is_honest → IfOk result (λ h. ((opened h).path ≡ path_at host_path.now) × ((opened h).names ≡ (world self.old).names)) }
        ensures there { is_honest → OnOk result (IsSome (content (world self.old).files (path_at host_path.now))) }
        ensures missing { is_honest → Says Meaning.Missing result → content (world self.old).files (path_at host_path.now) ≡ None }
        ensures unchanged { is_honest → world self.new ≡ world self.old }
        ensures kept { backdated self.new ≡ backdated self.old }
        ensures faults { is_honest → CountsBut Meaning.Missing result (faults self.old) (faults self.new) }
        ensures error { is_honest → IsErrorOf result (last_error self.new) };

    /// Opens what is left over at a place, to claim it.
    fn open_left_over(&mut self, host_path: &str) -> io::Result<Self::Handle>
        ensures unchanged { is_honest → world self.new ≡ world self.old }
        ensures kept { backdated self.new ≡ backdated self.old }
        ensures faults { is_honest → CountsBut Meaning.Missing result (faults self.old) (faults self.new) }
        ensures error { is_honest → IsErrorOf result (last_error self.new) };

    /// Reads some bytes from an offset on, maybe fewer than there is room for, but none only at the end.
    fn read_at(&mut self, handle: &Self::Handle, offset: u64, into: &mut [u8]) -> io::Result<usize>
        requires current { is_honest → (opened handle.now).names ≡ (world self.old).names }
        ensures read { is_honest → IfOk result (IsSomeReadAt (content (world self.old).files (opened handle.now).path) offset into.old into.new) }
        ensures within { IfOk result (λ n. n ≤ length into.new) }
        ensures buffer { length into.new ≡ length into.old }
        ensures interrupted { is_honest → Says Meaning.Interrupted result → into.new ≡ into.old }
        ensures unchanged { is_honest → world self.new ≡ world self.old }
        ensures kept { backdated self.new ≡ backdated self.old }
        ensures faults { is_honest → CountsBut Meaning.Interrupted result (faults self.old) (faults self.new) }
        ensures error { is_honest → IsErrorOf result (last_error self.new) }
        ensures signals { is_honest → Says Meaning.Interrupted result → HasRisen (signals self.old) (signals self.new) };

    /// Makes an empty file where nothing stands, and opens it to be written.
    fn create_new(&mut self, host_path: &str) -> io::Result<Self::Handle>
        ensures made { is_honest → OnOk result (IsMade (path_at host_path.now) (world self.old).files (world self.new).files) }
        ensures opened { is_honest → IfOk result (λ h. opened h ≡ record { path = path_at host_path.now; names = (world self.new).names; made = true }) }
        ensures stands { is_honest → Says Meaning.Stands result → IsSome (content (world self.old).files (path_at host_path.now)) }
        ensures dated { is_honest → (world self.new).dated ≡ (world self.old).dated }
        ensures failed { is_honest → OnErr result (world self.new ≡ world self.old) }
        ensures kept { backdated self.new ≡ backdated self.old }
        ensures faults { is_honest → CountsBut Meaning.Stands result (faults self.old) (faults self.new) }
        ensures error { is_honest → IsErrorOf result (last_error self.new) };

    /// Makes the directories above a place that are missing.
    fn make_directories(&mut self, host_path: &str) -> io::Result<()>
        ensures unchanged { is_honest → world self.new ≡ world self.old }
        ensures kept { backdated self.new ≡ backdated self.old }
        ensures faults { is_honest → Counts result (faults self.old) (faults self.new) }
        ensures error { is_honest → IsErrorOf result (last_error self.new) };

    /// Whether no other program has claimed the file. From now on this program has, until it closes it.
    fn claim(&mut self, handle: &mut Self::Handle) -> bool
        ensures claimed { IsTrue result → is_claimed handle.new ≡ true }
        ensures opened { opened handle.new ≡ opened handle.old }
        ensures unchanged { is_honest → world self.new ≡ world self.old }
        ensures kept { backdated self.new ≡ backdated self.old }
        ensures faults { is_honest → faults self.new ≡ faults self.old }
        ensures error { is_honest → last_error self.new ≡ None };

    /// Whether the file still has a name.
    fn has_a_name(&mut self, handle: &Self::Handle) -> io::Result<bool>
        ensures unchanged { is_honest → world self.new ≡ world self.old }
        ensures kept { backdated self.new ≡ backdated self.old }
        ensures faults { is_honest → Counts result (faults self.old) (faults self.new) }
        ensures error { is_honest → IsErrorOf result (last_error self.new) };

    /// Whether the file is the one that stands at a place, where a link is not followed.
    fn is_at(&mut self, handle: &Self::Handle, host_path: &str) -> io::Result<bool>
        ensures unchanged { is_honest → world self.new ≡ world self.old }
        ensures kept { backdated self.new ≡ backdated self.old }
        ensures faults { is_honest → Counts result (faults self.old) (faults self.new) }
        ensures error { is_honest → IsErrorOf result (last_error self.new) };

    /// Writes some of the bytes at the end of a file that the handle made, maybe not all, and tells how many.
    fn write(&mut self, handle: &mut Self::Handle, bytes: &[u8]) -> io::Result<usize>
        requires current { is_honest → (opened handle.old).names ≡ (world self.old).names }
        requires made { is_honest → (opened handle.old).made ≡ true }
        ensures written { is_honest → IfOk result (λ n. IsAppended (opened handle.old).path (take n bytes.now) (world self.old).files (world self.new).files) }
        ensures within { IfOk result (λ n. n ≤ length bytes.now) }
        ensures names { is_honest → (world self.new).names ≡ (world self.old).names }
        ensures dated { is_honest → (world self.new).dated ≡ (world self.old).dated }
        ensures failed { is_honest → OnErr result (world self.new ≡ world self.old) }
        ensures opened { opened handle.new ≡ opened handle.old }
        ensures claimed { is_claimed handle.new ≡ is_claimed handle.old }
        ensures kept { backdated self.new ≡ backdated self.old }
        ensures faults { is_honest → CountsBut Meaning.Interrupted result (faults self.old) (faults self.new) }
        ensures error { is_honest → IsErrorOf result (last_error self.new) }
        ensures signals { is_honest → Says Meaning.Interrupted result → HasRisen (signals self.old) (signals self.new) };

    /// Gives a new file a time long past.
    fn date(&mut self, handle: &Self::Handle) -> io::Result<()>
        ensures dated { is_honest → OnOk result (world self.new ≡ dated_also (world self.old) (opened handle.now).path) }
        ensures failed { is_honest → OnErr result (world self.new ≡ world self.old) }
        ensures kept { backdated self.new ≡ backdated self.old }
        ensures faults { is_honest → Counts result (faults self.old) (faults self.new) }
        ensures error { is_honest → IsErrorOf result (last_error self.new) };

    /// Makes the file that was opened at a place older than all others. Where there is none, nothing happens to it, and all is well too.
    fn backdate(&mut self, host_path: &str, file: Option<Self::Handle>) -> io::Result<()>
        requires file { is_honest → MatchOption file (content (world self.old).files (path_at host_path.now) ≡ None)
            (λ h. (opened h).path ≡ path_at host_path.now) }
        ensures backdated { is_honest → OnOk result (backdated self.new ≡ backdated self.old ++ path_at host_path.now ∷ []) }
        ensures failed { is_honest → OnErr result (backdated self.new ≡ backdated self.old) }
        ensures unchanged { is_honest → world self.new ≡ world self.old }
        ensures faults { is_honest → Counts result (faults self.old) (faults self.new) }
        ensures error { is_honest → IsErrorOf result (last_error self.new) };

    /// Removes a file, a link, a pipe or a socket.
    fn remove_file(&mut self, host_path: &str) -> io::Result<()>
        ensures gone { is_honest → OnOk result (content (world self.new).files (path_at host_path.now) ≡ None) }
        ensures others { is_honest → SameBut (path_at host_path.now) (world self.old).files (world self.new).files }
        ensures dated { is_honest → (world self.new).dated ≡ (world self.old).dated }
        ensures failed { is_honest → OnErr result (world self.new ≡ world self.old) }
        ensures kept { backdated self.new ≡ backdated self.old }
        ensures faults { is_honest → CountsBut Meaning.Missing result (faults self.old) (faults self.new) }
        ensures error { is_honest → IsErrorOf result (last_error self.new) };

    /// Removes an empty directory.
    fn remove_directory(&mut self, host_path: &str) -> io::Result<()>
        ensures unchanged { is_honest → world self.new ≡ world self.old }
        ensures kept { backdated self.new ≡ backdated self.old }
        ensures faults { is_honest → Counts result (faults self.old) (faults self.new) }
        ensures error { is_honest → IsErrorOf result (last_error self.new) };

    /// Moves a file, in the place of what was there.
    fn rename(&mut self, from: &str, to: &str) -> io::Result<()>
        requires differ { is_honest → path_at from.now ≢ path_at to.now }
        requires there { is_honest → IsSome (content (world self.old).files (path_at from.now)) }
        ensures moved { is_honest → OnOk result (IsMoved (path_at from.now) (path_at to.now) (world self.old).files (world self.new).files) }
        ensures dated { is_honest → (world self.new).dated ≡ (world self.old).dated }
        ensures failed { is_honest → OnErr result (world self.new ≡ world self.old) }
        ensures kept { backdated self.new ≡ backdated self.old }
        ensures faults { is_honest → Counts result (faults self.old) (faults self.new) }
        ensures error { is_honest → IsErrorOf result (last_error self.new) };
}
