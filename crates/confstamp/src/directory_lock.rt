//! The lock on the directory that the program works in, which makes no file. Where the file system knows no locks, or the directory may
//! not be opened, the program goes on without. For any other failure it is refused: another program may have the lock.
use ks_session::DirectoryLock;
use std::fs::{File, TryLockError};
use std::io::ErrorKind;
use std::thread;
use std::time::Duration;

/// The system's number for a file that may not be opened.
const EACCES: i32 = 13;

/// How often in a second a lock that another program has is tried again.
const TRIES_A_SECOND: u64 = 20;

/// Tries for the lock once.
fn try_directory(directory: &File, lock: DirectoryLock) -> Result<(), TryLockError> {
    match lock {
        DirectoryLock::Exclusive => directory.try_lock(),
        DirectoryLock::Shared => directory.try_lock_shared(),
    }
}

/// Tries for the lock until these seconds are over, while another program is in the way. After the first second that is reported.
fn try_directory_for(
    rt: &HostRuntime,
    directory: &File,
    lock: DirectoryLock,
    seconds: u64,
) -> Result<(), TryLockError> {
    for tried in 0..seconds.saturating_mul(TRIES_A_SECOND) {
        match try_directory(directory, lock) {
            Err(TryLockError::WouldBlock) => {}
            outcome => return outcome,
        }
        if tried == TRIES_A_SECOND {
            let _ = eprintln!(rt; "confstamp: waiting for another confstamp in this directory");
        }
        thread::sleep(rt, Duration::from_millis(1000 / TRIES_A_SECOND));
    }
    try_directory(directory, lock)
}

/// The directory, or the current one for an empty path, locked as long as it is open; another program in the way is waited for, as
/// many seconds as are given.
pub(crate) fn lock_directory(
    rt: &HostRuntime,
    directory: &str,
    lock: DirectoryLock,
    seconds: u64,
) -> Result<Option<File>, TryLockError> {
    let path = if directory.is_empty() { "." } else { directory };
    let directory = match File::open(rt, path) {
        Ok(directory) => directory,
        Err(error) if error.raw_os_error() == Some(EACCES) => return Ok(None),
        Err(error) => return Err(TryLockError::Error(error)),
    };
    match try_directory_for(rt, &directory, lock, seconds) {
        Ok(()) => Ok(Some(directory)),
        Err(TryLockError::Error(error)) if error.kind() == ErrorKind::Unsupported => Ok(None),
        Err(error) => Err(error),
    }
}
