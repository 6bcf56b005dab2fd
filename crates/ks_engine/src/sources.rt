//! The names in the prerequisites of an object. Each file is read in pieces, and none of them whole: a prerequisite can be
//! generated and large, and the scan needs no more of it than the word that a piece ends in.
ghost use Rattle.std.specs.Prelude.{◌≡◌, ◌⊎◌, ◌<◌, ◌++◌, ◌∷◌, [], List, ℕ, Err, IfErr, IfOk, IsErrOf, IsTrue, Ok, OnErr, OnOk, Some, length, slice_get};
ghost use Rattle.ks_symbols.specs.Names.{is_path};
ghost use Rattle.ks_fixdep.specs.declared.dependency_file.Role.{Role};
ghost use Rattle.ks_fixdep.specs.SourceScan.{found_of, names_by};
ghost use Rattle.ks_tree.specs.Frames.{Reads};
ghost use Rattle.ks_tree.specs.Files.{content};
ghost use Rattle.ks_engine.specs.Refusals.{IsAborted};
ghost use Rattle.ks_engine.specs.Caches.{are_placed, IsCacheOf, IsCached, Grows};
ghost use Rattle.ks_engine.specs.Recording.{scanned, scanned_all};

use crate::EngineError;
use crate::caches::Cache;
use ks_fixdep::{NamesBySource, Prerequisites, ScanRules, SourceScan};
use ks_symbols::{MAX_BYTES, Path, Seed};
use ks_tree::Tree;
use std::alloc::Global;

/// How much of a file is read at once.
const PIECE: usize = 4096;

/// Scans the file at a path as the next source. A file that is gone between two pieces is missing. Each piece is read into the
/// same room, and scanned by the rules.
pub(crate) fn scan_file<T: Tree>(
    alloc: Global,
    tree: &mut T,
    path: &[u8],
    buffer: &mut [u8],
    rules: ScanRules,
    scan: &mut SourceScan,
) -> Result<(), EngineError>
    requires path { IsTrue (is_path path.now) }
    requires buffer { length buffer.old ≡ 4096 }
    ensures reads { Reads T.Tree tree.old tree.new (IsErrOf result EngineError.Device) }
    ensures passed { OnOk result (T.failures tree.new ≡ T.failures tree.old) }
    ensures uncounted { IsErrOf result EngineError.OutOfMemory → T.failures tree.new ≡ T.failures tree.old }
    ensures scanned { OnOk result ((names : List (List ℕ)) × (found_of scan.new ≡ found_of scan.old ++ names ∷ [])
        × (T.is_honest → scanned rules path.now (content (T.files tree.old) path.now) ≡ Ok names)) }
    ensures kept { OnErr result (found_of scan.new ≡ found_of scan.old) }
    ensures refused { T.is_honest → IfErr result (λ e. IsAborted e ⊎ (scanned rules path.now (content (T.files tree.old) path.now) ≡ Err e)) }
{
    scan.begin_source();
    let mut offset: u64 = 0;
    loop {
        let Some(count) = tree.read_at(alloc, path, offset, buffer)? else {
            return Err(EngineError::MissingFile(Path::new(alloc, path)?));
        };
        offset += count as u64;
        if offset > MAX_BYTES as u64 {
            return Err(EngineError::TooLarge);
        }
        scan.feed_as(rules, &buffer[..count])?;
        if count < PIECE {
            scan.end_source_as(rules)?;
            return Ok(());
        }
    }
}

/// Finds the names of the prerequisites, in their order, by what was read before and what is still to be read, under the rules
/// of what is kept.
pub(crate) fn scan_all_by<T: Tree>(
    alloc: Global,
    tree: &mut T,
    cache: &mut Cache,
    prerequisites: &Prerequisites,
) -> Result<(), EngineError>
    requires cache { T.is_honest → IsCacheOf (T.files tree.old) cache.old }
    ensures cache { T.is_honest → IsCacheOf (T.files tree.new) cache.new }
    ensures reads { Reads T.Tree tree.old tree.new (IsErrOf result EngineError.Device) }
    ensures passed { OnOk result (T.failures tree.new ≡ T.failures tree.old) }
    ensures uncounted { IsErrOf result EngineError.OutOfMemory → T.failures tree.new ≡ T.failures tree.old }
    ensures names { T.is_honest → OnOk result (scanned_all cache.old.rules (T.files tree.old) prerequisites.now ≡ Ok (names_by cache.new.found)) }
    ensures refused { T.is_honest → IfErr result (λ e. IsAborted e ⊎ (scanned_all cache.old.rules (T.files tree.old) prerequisites.now ≡ Err e)) }
    ensures placed { T.is_honest → OnOk result (IsTrue (are_placed (found_of cache.new.found.scan) cache.new.found.sources.items)) }
    ensures each { OnOk result (length cache.new.found.sources.items ≡ length prerequisites.now) }
    ensures rules { cache.new.rules ≡ cache.old.rules }
{
    let mut buffer = [0; PIECE];
    let mut sources = Vec::with_capacity(alloc, prerequisites.len())?;
    for place in 0..prerequisites.len() {
        let Some((path, _)) = prerequisites.get(place) else {
            unreachable!();
        };
        let source = cache.source_at(alloc, tree, path, &mut buffer)?;
        sources.push(source)?;
    }
    cache.found.sources = sources;
    Ok(())
}

/// The names of the prerequisites, in their order. A file that is missing, or longer than 64 MiB, is refused.
pub fn scan_all<T: Tree>(
    alloc: Global,
    tree: &mut T,
    rules: ScanRules,
    prerequisites: &Prerequisites,
) -> Result<NamesBySource, EngineError>
    ensures reads { Reads T.Tree tree.old tree.new (IsErrOf result EngineError.Device) }
    ensures passed { OnOk result (T.failures tree.new ≡ T.failures tree.old) }
    ensures uncounted { IsErrOf result EngineError.OutOfMemory → T.failures tree.new ≡ T.failures tree.old }
    ensures names { T.is_honest → IfOk result (λ found. scanned_all rules (T.files tree.old) prerequisites.now ≡ Ok (names_by found)) }
    ensures refused { T.is_honest → IfErr result (λ e. IsAborted e ⊎ (scanned_all rules (T.files tree.old) prerequisites.now ≡ Err e)) }
    ensures each { IfOk result (λ found. length found.sources.items ≡ length prerequisites.now) }
{
    let mut cache = Cache::of_one_object(alloc, Seed::new(tree.seed()));
    cache.scan_by(rules);
    scan_all_by(alloc, tree, &mut cache, prerequisites)?;
    Ok(cache.found)
}
