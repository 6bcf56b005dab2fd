//! One writer at a time: which lock on its directory a command needs. Without one two synchronisations at once could leave the header
//! of one beside the auto.conf of the other, and objects would be called fresh wrongly.
ghost use Rattle.std.specs.Prelude.{◌≡◌, IfOk};
ghost use Rattle.ks_requests.specs.ScriptSyncs.{script_syncs};
ghost use Rattle.ks_tree.specs.Frames.{Reads};
ghost use Rattle.ks_session.specs.Lock.{LooksAt, LooksAtScript, lock_for, lock_needed, lock_of_request, lock_of_script};

use ks_cli::WordsError;
use ks_requests::{Reading, Request, script_syncs};
use ks_tree::TreeFault;
use std::alloc::{AllocError, Global};

/// What was found at a path, to be used as it was looked at.
#[derive(Drop)]
pub struct FoundFile {
    pub path: Vec<u8>,
    /// `None` where there is no file.
    pub text: Option<Vec<u8>>,
}

/// The lock on its directory that a command needs.
#[derive(Clone, Copy)]
pub enum DirectoryLock {
    /// No other program has one meanwhile.
    Exclusive,
    /// Others may have one like it.
    Shared,
}

/// Reads the file at a path. Of one that the system doesn't give there is nothing; that there is none is held as a text is.
pub(crate) fn look_at<T: Reading>(
    alloc: Global,
    tree: &mut T,
    path: &[u8],
) -> Result<Option<FoundFile>, AllocError>
    ensures reads { Reads T.Tree tree.old tree.new ⊥ }
    ensures looked { IfOk result (LooksAt T.Tree T.reads path.now tree.old tree.new) }
{
    let text = match tree.read_file(alloc, path) {
        Ok(text) => text,
        Err(TreeFault::OutOfMemory) => return Err(AllocError),
        Err(_) => return Ok(None),
    };
    let path = path.to_vec(alloc)?;
    Ok(Some(FoundFile { path, text }))
}

/// What is found of the script of a `batch`. For any other request nothing is looked at.
pub fn script_of<T: Reading>(
    alloc: Global,
    tree: &mut T,
    asked: &Result<Request, WordsError>,
) -> Result<Option<FoundFile>, AllocError>
    ensures reads { Reads T.Tree tree.old tree.new ⊥ }
    ensures looked { IfOk result (LooksAtScript T.Tree T.reads asked.now tree.old tree.new) }
{
    match asked {
        Ok(Request::Batch { script }) => look_at(alloc, tree, script.as_bytes()),
        _ => Ok(None),
    }
}

/// The lock that the lines of a script need. A script with a faulty line is refused later, and runs nothing. One that the system
/// doesn't give is taken for a synchronisation, since it may be there by the time that it is run.
fn lock_of_script(script: &Option<FoundFile>) -> DirectoryLock
    ensures { result ≡ lock_of_script script.now }
{
    let syncs = match script {
        Some(script) => match &script.text {
            Some(text) => script_syncs(text),
            None => false,
        },
        None => true,
    };
    if syncs {
        DirectoryLock::Exclusive
    } else {
        DirectoryLock::Shared
    }
}

/// The lock that the request needs, by what was found of its script.
fn lock_of_request(request: &Request, script: &Option<FoundFile>) -> DirectoryLock
    ensures { result ≡ lock_of_request request.now script.now }
{
    match request {
        Request::Sync { .. } => DirectoryLock::Exclusive,
        Request::Repair { .. } => DirectoryLock::Exclusive,
        Request::Mark { .. } => DirectoryLock::Exclusive,
        Request::Batch { .. } => lock_of_script(script),
        _ => DirectoryLock::Shared,
    }
}

/// The lock that what was asked for needs, or `None` where the arguments make no request, which is reported later.
pub fn lock_needed(
    asked: &Result<Request, WordsError>,
    script: &Option<FoundFile>,
) -> Option<DirectoryLock>
    ensures { result ≡ lock_needed asked.now script.now }
{
    match asked {
        Ok(request) => Some(lock_of_request(request, script)),
        Err(_) => None,
    }
}
