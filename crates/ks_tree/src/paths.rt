//! Where each file that the commands write stands. Two of them at one path would make a build call an object fresh by another
//! file's bytes, so `paths_never_meet` rules it out for every name and every target.
ghost use Rattle.std.specs.Prelude.{◌≡◌, ◌≢◌, ◌≤◌, ◌∷◌, ◌++◌, length, take, drop, IfOk, IsTrue};
ghost use Rattle.ks_symbols.specs.Names.{is_name, header_path};
ghost use Rattle.ks_tree.specs.Paths.{auto_path, auto_temporary, header_temporary, stamp_path, stamp_temporary, command_path, command_temporary, dotted, PathsNeverMeet};

use ks_symbols::Name;
use std::alloc::{AllocError, Global};

/// The configuration of the last synchronisation, with its generation.
#[tactic(auto, unfolding(crate::specs::Paths::auto_path))]
pub fn auto_path() -> &'static [u8]
    ensures { result.now ≡ auto_path }
{
    b"include/config/auto.conf"
}

/// Where auto.conf is written before it is moved to its path.
#[tactic(auto, unfolding(crate::specs::Paths::auto_temporary))]
pub fn auto_temporary() -> &'static [u8]
    ensures { result.now ≡ auto_temporary }
{
    b"include/config/auto.conf.tmp"
}

/// The header that the compiler reads.
#[tactic(auto, unfolding(ks_symbols::specs::Names::header_path))]
pub fn header_path() -> &'static [u8]
    ensures { result.now ≡ header_path }
{
    b"include/generated/autoconf.h"
}

/// Where the header is written before it is moved to its path.
#[tactic(auto, unfolding(crate::specs::Paths::header_temporary))]
pub fn header_temporary() -> &'static [u8]
    ensures { result.now ≡ header_temporary }
{
    b"include/generated/autoconf.h.tmp"
}

/// The stamp of a name.
#[tactic(auto, unfolding(crate::specs::Paths::stamp_path))]
pub fn stamp_path(alloc: Global, name: &Name) -> Result<Vec<u8>, AllocError>
    ensures path { IfOk result (λ path. path.items ≡ stamp_path name.now) }
    ensures legal { IfOk result (λ path. IsTrue (is_name name.now)) }
{
    let mut path = Vec::from_slice(alloc, b"include/config/")?;
    path.extend_from_slice(name.as_bytes())?;
    Ok(path)
}

/// Where every stamp is written before it is moved to its path.
#[tactic(auto, unfolding(crate::specs::Paths::stamp_temporary))]
pub fn stamp_temporary() -> &'static [u8]
    ensures { result.now ≡ stamp_temporary }
{
    b"include/config/stamp.tmp"
}

/// How many bytes of a path name its directory, the last slash among them.
fn directory_len(path: &[u8]) -> usize
    ensures within { result ≤ length path.now }
    ensures border { dotted path.now ≡ take result path.now ++ 46 ∷ drop result path.now }
{
    let mut len = 0;
    for (i, byte) in path.iter().enumerate() {
        if *byte == b'/' {
            len = i + 1;
        }
    }
    len
}

/// The path with a dot before its last part, and an end.
fn hidden(alloc: Global, path: &[u8], end: &[u8]) -> Result<Vec<u8>, AllocError>
    ensures { IfOk result (λ hidden. hidden.items ≡ dotted path.now ++ end.now) }
{
    let (directory, file) = path.split_at(directory_len(path));
    let mut hidden = Vec::from_slice(alloc, directory)?;
    hidden.push(b'.')?;
    hidden.extend_from_slice(file)?;
    hidden.extend_from_slice(end)?;
    Ok(hidden)
}

/// The command file of a target: `d/.x.o.cmd` of `d/x.o`. It may be longer than a legal path.
#[tactic(auto, unfolding(crate::specs::Paths::command_path))]
pub fn command_path(alloc: Global, target: &[u8]) -> Result<Vec<u8>, AllocError>
    ensures { IfOk result (λ path. path.items ≡ command_path target.now) }
{
    hidden(alloc, target, b".cmd")
}

/// Where a command file is written before it is moved to its path.
#[tactic(auto, unfolding(crate::specs::Paths::command_temporary))]
pub fn command_temporary(alloc: Global, target: &[u8]) -> Result<Vec<u8>, AllocError>
    ensures { IfOk result (λ path. path.items ≡ command_temporary target.now) }
{
    hidden(alloc, target, b".cmd.tmp")
}

/// No two files that the commands write stand at one path.
pub fn paths_never_meet()
    ensures { PathsNeverMeet }
{}
