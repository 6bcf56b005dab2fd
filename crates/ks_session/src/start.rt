//! How a command comes to its directory: which tree it works on, the lock that it needs, what was looked at before it runs, and whether
//! numbers would be lost. Who took another lock than the command needs, or took it late, could leave the header of one
//! configuration beside the auto.conf of another; who began numbers anew unasked would call stale objects fresh.
//!
//! All of it is decided here, over any system that answers these calls. `main` gives the system's own, and goes by the answer.
ghost use Rattle.std.specs.Prelude.{◌≡◌, IfOk, string_bytes, ⊤};
ghost use Rattle.ks_session.specs.Calls.{Drew, Event, Found, Held, Locked, Looked, Opened};
ghost use Rattle.ks_session.specs.Lock.{text_of};
ghost use Rattle.ks_session.specs.Start.{HoldsFirst, Locks, Looks, LooksIf, Opens, Starts, begins_none, needs_look};

use crate::global_options::Settings;
use crate::lock::{DirectoryLock, FoundFile, lock_needed, look_at, script_of};
use crate::numbers::begins_anew;
use ks_cli::WordsError;
use ks_requests::{Reading, Request};
use ks_symbols::Dialect;
use ks_tree::auto_path;
use std::alloc::{AllocError, Global};
use std::fs::TryLockError;
use std::io;

/// Why numbers would be lost, or might be.
#[derive(Drop)]
pub enum Loss {
    /// The file at this path holds a number.
    Number(String),
    /// What may hold one can't be read: its path, and why.
    Unread(String),
}

/// The calls of the system that a command comes to its directory by.
pub trait Host {
    /// The tree of a directory.
    type WorkTree: Reading + Drop;

    /// What a lock is had by.
    type Lock: Drop;

    /// What is known to have been done: each call where its answer is, since nothing else gives it.
    ghost did: { Self → Event Self.WorkTree Self.Lock → Type 0 } = { λ host event. ⊤ };

    /// Looks whether there is such a directory, or says why it is not to be had.
    fn look(&self, directory: &str) -> io::Result<()>
        ensures { did self.now (Looked directory.now result) };

    /// A number that nobody can know before, or `None` where the system gives none. Without it whoever writes the files could
    /// choose names that collide.
    fn draw_seed(&self) -> Option<u64>
        ensures { did self.now (Drew result) };

    /// The tree of a directory, which hashes by a seed.
    fn open(&self, alloc: Global, directory: &str, seed: u64) -> Result<Self::WorkTree, AllocError>
        ensures { IfOk result (λ tree. did self.now (Opened directory.now seed tree)) };

    /// Asks for a lock on a directory, and waits so many seconds for another program. It is had as long as what is answered is
    /// kept; that is `None` where the system knows no locks.
    fn lock(
        &self,
        work_tree: &mut Self::WorkTree,
        directory: &str,
        lock: DirectoryLock,
        seconds: u64,
    ) -> Result<Option<Self::Lock>, TryLockError>
        ensures { did self.now (Locked directory.now lock seconds work_tree.old result work_tree.new) };

    /// What would be lost of the numbers in the directory, and in those below it.
    fn find_loss(
        &self,
        alloc: Global,
        work_tree: &mut Self::WorkTree,
        directory: &str,
    ) -> Result<Option<Loss>, AllocError>
        ensures { IfOk result (λ found. did self.now (Found directory.now work_tree.old found work_tree.new)) };

    /// Holds what was found at a path, so that it is not read again.
    fn hold(&self, work_tree: &mut Self::WorkTree, file: FoundFile)
        ensures { did self.now (Held work_tree.old file.path.items (text_of file) work_tree.new) };
}

/// All that a command needs to run.
#[derive(Drop)]
pub struct Ready<P, L> {
    pub work_tree: P,
    pub dialect: Dialect,
    /// Kept until the command has ended. Where none was asked for, or the system knows none, there is none.
    pub lock: Option<L>,
}

/// Why a command doesn't run.
#[derive(Drop)]
pub enum Stop {
    /// The directory is not to be had, for this reason.
    NoDirectory(io::Error),
    /// The system gives no random number.
    NoSeed,
    /// Another program is at work in the directory, or nobody knows whether one is.
    NoLock(TryLockError),
    /// The command would begin the numbers anew.
    Lost(Loss),
    OutOfMemory,
}

impl From<AllocError> for Stop {
    ghost use Rattle.ks_session.specs.declared.start.Stop.TheVariants.{OutOfMemory};

    ghost from_gives = { λ _ e. e ≡ OutOfMemory };

    fn from(_: AllocError) -> Stop {
        Stop::OutOfMemory
    }
}

/// Opens the tree of the directory.
fn open_work_tree<H: Host>(
    host: &H,
    alloc: Global,
    settings: &Settings,
) -> Result<H::WorkTree, Stop>
    ensures { Opens (H.did host.now) settings.now result }
{
    let directory = settings.directory.as_str();
    if let Err(error) = host.look(directory) {
        return Err(Stop::NoDirectory(error));
    }
    let Some(seed) = host.draw_seed() else {
        return Err(Stop::NoSeed);
    };
    Ok(host.open(alloc, directory, seed)?)
}

/// Takes the lock that is needed.
fn take_lock<H: Host>(
    host: &H,
    work_tree: &mut H::WorkTree,
    settings: &Settings,
    needed: Option<DirectoryLock>,
) -> Result<Option<H::Lock>, TryLockError>
    ensures { Locks (H.did host.now) settings.now needed work_tree.old result work_tree.new }
{
    match needed {
        Some(lock) => {
            let directory = settings.directory.as_str();
            host.lock(work_tree, directory, lock, settings.seconds)
        }
        None => Ok(None),
    }
}

/// Looks whether numbers would begin anew, and if so for a file that holds one. Returns what was found of auto.conf.
fn look_for_numbers<H: Host>(
    host: &H,
    alloc: Global,
    work_tree: &mut H::WorkTree,
    directory: &str,
) -> Result<Option<FoundFile>, Stop>
    ensures { Looks H.WorkTree.Tree (H.did host.now) H.WorkTree.reads directory.now work_tree.old result work_tree.new }
{
    let auto = look_at(alloc, work_tree, auto_path())?;
    if begins_anew(&auto) {
        if let Some(loss) = host.find_loss(alloc, work_tree, directory)? {
            return Err(Stop::Lost(loss));
        }
    }
    Ok(auto)
}

/// Whether what is asked for begins no numbers: a repair, and what marks.
fn begins_none(asked: &Result<Request, WordsError>) -> bool
    ensures { result ≡ begins_none asked.now }
{
    match asked {
        Ok(request) => match request {
            Request::Repair { .. } | Request::Mark { .. } => true,
            _ => false,
        },
        Err(_) => false,
    }
}

/// Whether a command that has this lock could lose numbers: one that synchronises, unless they may begin again.
fn needs_look(
    settings: &Settings,
    asked: &Result<Request, WordsError>,
    lock: Option<DirectoryLock>,
) -> bool
    ensures { result ≡ needs_look settings.now asked.now lock }
{
    let allowed = settings.may_begin || begins_none(asked);
    matches!(lock, Some(DirectoryLock::Exclusive)) && !allowed
}

/// Looks for lost numbers where the command could lose some.
fn look_if_needed<H: Host>(
    host: &H,
    alloc: Global,
    work_tree: &mut H::WorkTree,
    settings: &Settings,
    asked: &Result<Request, WordsError>,
    lock: Option<DirectoryLock>,
) -> Result<Option<FoundFile>, Stop>
    ensures { LooksIf (needs_look settings.now asked.now lock) H.WorkTree.Tree (H.did host.now) H.WorkTree.reads (string_bytes settings.now.directory)
        work_tree.old result work_tree.new }
{
    if needs_look(settings, asked, lock) {
        look_for_numbers(host, alloc, work_tree, settings.directory.as_str())
    } else {
        Ok(None)
    }
}

/// Holds what was read, so that what runs is what was looked at: the script, or else auto.conf.
fn hold_readings<H: Host>(
    host: &H,
    work_tree: &mut H::WorkTree,
    script: Option<FoundFile>,
    auto: Option<FoundFile>,
)
    ensures { HoldsFirst (H.did host.now) script auto work_tree.old work_tree.new }
{
    if let Some(script) = script {
        host.hold(work_tree, script);
    } else if let Some(auto) = auto {
        host.hold(work_tree, auto);
    }
}

/// Comes to the directory, as what stands in front of the command and what is asked for need it: first the script is looked at, then
/// the lock taken, and with that had it is looked for lost numbers.
pub fn enter_directory<H: Host>(
    host: &H,
    alloc: Global,
    settings: &Settings,
    asked: &Result<Request, WordsError>,
) -> Result<Ready<H::WorkTree, H::Lock>, Stop>
    ensures { Starts H.WorkTree.Tree (H.did host.now) H.WorkTree.reads settings.now asked.now result }
{
    let mut work_tree = open_work_tree(host, alloc, settings)?;
    let script = script_of(alloc, &mut work_tree, asked)?;
    let needed = lock_needed(asked, &script);
    let lock = match take_lock(host, &mut work_tree, settings, needed) {
        Ok(lock) => lock,
        Err(error) => return Err(Stop::NoLock(error)),
    };
    let auto = look_if_needed(host, alloc, &mut work_tree, settings, asked, needed)?;
    hold_readings(host, &mut work_tree, script, auto);
    Ok(Ready {
        work_tree,
        dialect: settings.dialect,
        lock,
    })
}
