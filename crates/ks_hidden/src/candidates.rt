//! Which precompiled headers an object may be made of, by its source and its command.
ghost use Rattle.std.specs.Prelude.{◌≡◌, ◌∷◌, ◌++◌, IfOk};
ghost use Rattle.ks_hidden.specs.Candidates.{candidates, directory_of, paths_by};
ghost use Rattle.ks_hidden.specs.Includes.{included_names};
ghost use Rattle.ks_hidden.specs.Precompiled.{is_among};
ghost use Rattle.ks_hidden.specs.Words.{header_options, option_values, quote_directories, searched_directories, texts};

use crate::includes::included_names;
use crate::precompiled::{Directories, precompiled_paths};
use crate::words::{included_headers, quote_directories, searched_directories, words};
use indexmap::IndexSet;
use ks_symbols::Seed;
use std::alloc::{AllocError, Global};

/// The directory of a path.
fn directory_of(path: &[u8]) -> &[u8]
    ensures { result.now ≡ directory_of path.now }
{
    let mut directory: &[u8] = b".";
    for (i, byte) in path.iter().enumerate() {
        if *byte == b'/' {
            directory = &path[..i];
        }
    }
    directory
}

/// The headers that a command and a source name.
fn named_headers(alloc: Global, words: &[Vec<u8>], text: &[u8]) -> Result<Vec<Vec<u8>>, AllocError>
    ensures { IfOk result (λ v. texts v.items ≡ option_values header_options (texts words.now) ++ included_names text.now) }
{
    let mut names = included_headers(alloc, words)?;
    let mut others = included_names(alloc, text)?;
    names.append(&mut others)?;
    Ok(names)
}

/// Where the compiler of a source looks for headers.
fn directories_of(
    alloc: Global,
    source: &[u8],
    words: &[Vec<u8>],
) -> Result<Directories, AllocError>
    ensures first { IfOk result (λ d. texts d.first.items ≡ directory_of source.now ∷ quote_directories (texts words.now)) }
    ensures searched { IfOk result (λ d. texts d.searched.items ≡ searched_directories (texts words.now)) }
{
    let mut first = Vec::new(alloc);
    first.push(directory_of(source).to_vec(alloc)?)?;
    first.append(&mut quote_directories(alloc, words)?)?;
    let searched = searched_directories(alloc, words)?;
    Ok(Directories { first, searched })
}

/// The same as below, by the words of the command.
fn paths_by(
    alloc: Global,
    listed: &IndexSet<&[u8], Seed>,
    source: &[u8],
    text: &[u8],
    words: &[Vec<u8>],
) -> Result<Vec<Vec<u8>>, AllocError>
    ensures { IfOk result (λ v. texts v.items ≡ paths_by (is_among listed.now) source.now text.now (texts words.now)) }
{
    let directories = directories_of(alloc, source, words)?;
    let names = named_headers(alloc, words, text)?;
    precompiled_paths(alloc, listed, &directories, &names)
}

/// The paths at which a compiler may find precompiled headers of those that the command and the source name, where these paths
/// are listed. Each is a path from where the compiler runs, or from the root.
#[tactic(auto, unfolding(crate::specs::Candidates::candidates))]
pub fn precompiled_candidates(
    alloc: Global,
    listed: &IndexSet<&[u8], Seed>,
    source: &[u8],
    text: &[u8],
    command: &[u8],
) -> Result<Vec<Vec<u8>>, AllocError>
    ensures { IfOk result (λ v. texts v.items ≡ candidates (is_among listed.now) source.now text.now command.now) }
{
    let words = words(alloc, command)?;
    paths_by(alloc, listed, source, text, &words)
}
