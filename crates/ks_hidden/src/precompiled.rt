//! Where a compiler looks for precompiled headers. It takes `DIR/NAME.gch` in the place of `DIR/NAME`, and lists neither this
//! file nor the headers that are in it.
ghost use Rattle.std.specs.Prelude.{◌≡◌, ◌&&◌, [], ◌∷◌, ◌++◌, IfOk, OnOk, bytes_eq, codes, map, nat_eq, not};
ghost use Rattle.std.specs.List.{list_any, starts_with};
ghost use Rattle.ks_hidden.specs.Precompiled.{beside, header_paths, is_among, precompiled, precompiled_paths, up_to_listed};
ghost use Rattle.ks_hidden.specs.Words.{texts};

use indexmap::IndexSet;
use ks_symbols::Seed;
use std::alloc::{AllocError, Global};

/// A header of this name in a directory.
fn beside(alloc: Global, name: &[u8], directory: &[u8]) -> Result<Vec<u8>, AllocError>
    ensures { IfOk result (λ v. v.items ≡ beside name.now directory.now) }
{
    let mut path = directory.to_vec(alloc)?;
    path.extend_from_slice(b"/")?;
    path.extend_from_slice(name)?;
    Ok(path)
}

/// Appends the precompiled header of a header.
fn push_precompiled(paths: &mut Vec<Vec<u8>>, header: Vec<u8>) -> Result<(), AllocError>
    ensures { OnOk result (texts paths.new.items ≡ texts paths.old.items ++ precompiled header.items ∷ []) }
{
    let mut path = header;
    path.extend_from_slice(b".gch")?;
    paths.push(path)?;
    Ok(())
}

/// Appends those of a header of this name in each of these directories.
fn push_in_each(
    alloc: Global,
    paths: &mut Vec<Vec<u8>>,
    directories: &[Vec<u8>],
    name: &[u8],
) -> Result<(), AllocError>
    ensures { OnOk result (texts paths.new.items ≡ texts paths.old.items ++ map precompiled (map (beside name.now) (texts directories.now))) }
{
    for directory in directories {
        push_precompiled(paths, beside(alloc, name, directory)?)?;
    }
    Ok(())
}

/// Whether one of these directories is that one.
fn is_named(directories: &[Vec<u8>], directory: &[u8]) -> bool
    ensures { result ≡ list_any (bytes_eq directory.now) (texts directories.now) }
{
    for other in directories {
        if directory == other.as_slice() {
            return true;
        }
    }
    false
}

/// Whether a compiler looks no further for a header of this path in this directory.
fn ends_search(
    listed: &IndexSet<&[u8], Seed>,
    path: &[u8],
    directory: &[u8],
    later: &[Vec<u8>],
) -> bool
    ensures { result ≡ (is_among listed.now path.now && (not (list_any (bytes_eq directory.now) (texts later.now)) && not (starts_with nat_eq directory.now (codes "/usr/")))) }
{
    listed.contains(path) && !is_named(later, directory) && !directory.starts_with(b"/usr/")
}

/// Appends those in one directory after the other, until a compiler looks no further.
fn push_up_to_listed(
    alloc: Global,
    paths: &mut Vec<Vec<u8>>,
    listed: &IndexSet<&[u8], Seed>,
    directories: &[Vec<u8>],
    name: &[u8],
) -> Result<(), AllocError>
    ensures { OnOk result (texts paths.new.items ≡ texts paths.old.items ++ map precompiled (map (beside name.now) (up_to_listed (is_among listed.now) name.now (texts directories.now)))) }
{
    for (place, directory) in directories.iter().enumerate() {
        let path = beside(alloc, name, directory)?;
        let ends = ends_search(listed, &path, directory, &directories[place + 1..]);
        push_precompiled(paths, path)?;
        if ends {
            return Ok(());
        }
    }
    Ok(())
}

/// Where a compiler looks for headers.
#[derive(Drop)]
pub(crate) struct Directories {
    /// Those of some headers alone.
    pub(crate) first: Vec<Vec<u8>>,
    /// Those of all, in its order.
    pub(crate) searched: Vec<Vec<u8>>,
}

/// Appends each path where the precompiled header of a header of this name may be.
fn push_paths(
    alloc: Global,
    paths: &mut Vec<Vec<u8>>,
    listed: &IndexSet<&[u8], Seed>,
    directories: &Directories,
    name: &[u8],
) -> Result<(), AllocError>
    ensures { OnOk result (texts paths.new.items ≡ texts paths.old.items
        ++ map precompiled (header_paths (is_among listed.now) (texts directories.now.first.items) (texts directories.now.searched.items) name.now)) }
{
    push_precompiled(paths, name.to_vec(alloc)?)?;
    if name.starts_with(b"/") {
        return Ok(());
    }
    push_in_each(alloc, paths, &directories.first, name)?;
    push_up_to_listed(alloc, paths, listed, &directories.searched, name)
}

/// The precompiled headers that may stand for headers of these names.
pub(crate) fn precompiled_paths(
    alloc: Global,
    listed: &IndexSet<&[u8], Seed>,
    directories: &Directories,
    names: &[Vec<u8>],
) -> Result<Vec<Vec<u8>>, AllocError>
    ensures { IfOk result (λ v. texts v.items
        ≡ precompiled_paths (is_among listed.now) (texts directories.now.first.items) (texts directories.now.searched.items) (texts names.now)) }
{
    let mut paths = Vec::new(alloc);
    for name in names {
        push_paths(alloc, &mut paths, listed, directories, name)?;
    }
    Ok(paths)
}
