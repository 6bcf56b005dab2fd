//! The dependency file of a record that is to remove it. It is removed once the object is recorded: a refused record leaves it, so that
//! whoever looks for the reason finds it, and so that another program can take it.
ghost use Rattle.std.specs.Prelude.{◌≡◌, OnErr, OnOk, option_map};
ghost use Rattle.confstamp.specs.Spent.{IsWithout, spent};

use ks_cli::WordsError;
use ks_requests::{DepfileAfter, Request};
use ks_system::{System, SystemTree};
use ks_tree::TreeFault;
use std::alloc::Global;

/// The dependency file that a command with this status leaves to be removed.
fn spent(status: u8, asked: &Result<Request, WordsError>) -> Option<&str>
    ensures { option_map (λ path. path.now) result ≡ spent status asked.now }
{
    match asked {
        Ok(
            Request::Record {
                depfile,
                after: DepfileAfter::Removed,
                ..
            },
        ) if status == 0 => Some(depfile.as_str()),
        _ => None,
    }
}

/// Removes the dependency file that a command with this status leaves to be removed, if it does.
pub(crate) fn remove_spent<S: System + Drop>(
    alloc: Global,
    tree: &mut SystemTree<S>,
    status: u8,
    asked: &Result<Request, WordsError>,
) -> Result<(), TreeFault>
    ensures removed { S.is_honest → OnOk result (IsWithout (spent status asked.now) (S.world tree.old.system).files (S.world tree.new.system).files) }
    ensures failed { S.is_honest → OnErr result ((S.world tree.new.system).files ≡ (S.world tree.old.system).files) }
{
    match spent(status, asked) {
        Some(path) => tree.remove(alloc, path.as_bytes()),
        None => Ok(()),
    }
}
