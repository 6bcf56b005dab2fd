//! What the last completed synchronisation left in auto.conf. It is replaced last, so its generation is that of header and stamps
//! as well, unless a synchronisation was broken off after it.
ghost use Rattle.std.specs.Prelude.{◌≡◌, ◌⊎◌, ◌↔◌, ◌≤◌, ◌<◌, ◌+◌, ◌*◌, IfOk, IfSome, IsErrOf, OnOk, drop, length, take};
ghost use Rattle.ks_symbols.specs.Lines.{max_bytes};
ghost use Rattle.ks_tree.specs.Frames.{Reads};
ghost use Rattle.ks_tree.specs.declared.fault.TreeFault.{TreeFault};
ghost use Rattle.ks_tree.specs.Files.{HasRisen, content};
ghost use Rattle.ks_tree.specs.Paths.{auto_path};
ghost use Rattle.ks_engine.specs.Refusals.{Answers};
ghost use Rattle.ks_engine.specs.LastSync.{IsReadBehind, old_auto, last_generation};
ghost use Rattle.ks_engine.specs.Views.{old_of};

use crate::EngineError;
use ks_output::{AutoScan, OldConfig, read_auto};
use ks_tree::{Tree, TreeFault, auto_path};
use std::alloc::{AllocError, Global};

/// How much of auto.conf is read at once.
const PIECE: usize = 16384;

/// The texts and the generation of auto.conf, which are none and 0 where it is missing.
pub fn read_old<T: Tree>(alloc: Global, tree: &mut T) -> Result<OldConfig, EngineError>
    ensures reads { Reads T.Tree tree.old tree.new (IsErrOf result EngineError.Device) }
    ensures passed { OnOk result (T.failures tree.new ≡ T.failures tree.old) }
    ensures uncounted { IsErrOf result EngineError.OutOfMemory → T.failures tree.new ≡ T.failures tree.old }
    ensures read { T.is_honest → Answers (old_auto (content (T.files tree.old) auto_path)) old_of result }
{
    match tree.read(alloc, auto_path())? {
        Some(text) => Ok(read_auto(alloc, &text)?),
        None => Ok(OldConfig::empty(alloc)),
    }
}

/// Moves what was not taken of a buffer to its front, and tells how many bytes these are. Where they fill it, it gets room for as
/// many more.
fn keep_rest(buffer: &mut Vec<u8>, taken: usize) -> Result<usize, AllocError>
    requires within { taken ≤ length buffer.old.items }
    requires some { 0 < length buffer.old.items }
    requires small { length buffer.old.items ≤ max_bytes }
    ensures rest { IfOk result (λ n. take n buffer.new.items ≡ drop taken buffer.old.items) }
    ensures count { IfOk result (λ n. n + taken ≡ length buffer.old.items) }
    ensures more { IfOk result (λ n. n < length buffer.new.items) }
    ensures small { OnOk result (length buffer.new.items ≤ 2 * max_bytes) }
{
    let len = buffer.len();
    let kept = len - taken;
    buffer.copy_within(taken..len, 0);
    if kept == len {
        buffer.resize(2 * len, 0)?;
    }
    Ok(kept)
}

/// Reads on in auto.conf behind what is kept of a buffer, and tells where the bytes end, or `None` where there is no auto.conf.
fn read_behind<T: Tree>(
    alloc: Global,
    tree: &mut T,
    offset: u64,
    buffer: &mut [u8],
    kept: usize,
) -> Result<Option<usize>, TreeFault>
    requires within { kept ≤ length buffer.old }
    ensures read { T.is_honest → IfOk result (IsReadBehind (content (T.files tree.old) auto_path) offset kept buffer.old buffer.new) }
    ensures within { IfOk result (λ found. IfSome found (λ end. (kept ≤ end) × (end ≤ length buffer.new))) }
    ensures len { length buffer.new ≡ length buffer.old }
    ensures unchanged { T.is_honest → T.files tree.new ≡ T.files tree.old }
    ensures kept { T.backdated tree.new ≡ T.backdated tree.old }
    ensures never { IsErrOf result TreeFault.TooLarge → ⊥ }
    ensures later { T.failures tree.old ≤ T.failures tree.new }
    ensures passed { OnOk result (T.failures tree.new ≡ T.failures tree.old) }
    ensures uncounted { IsErrOf result TreeFault.OutOfMemory → T.failures tree.new ≡ T.failures tree.old }
    ensures cause { IsErrOf result TreeFault.Device → HasRisen (T.failures tree.old) (T.failures tree.new) }
{
    match tree.read_at(alloc, auto_path(), offset, &mut buffer[kept..])? {
        Some(count) => Ok(Some(kept + count)),
        None => Ok(None),
    }
}

/// The generation of auto.conf, where a synchronisation was completed. It is read in pieces: that of many symbols is large, and is
/// read for each object.
pub(crate) fn read_generation<T: Tree>(alloc: Global, tree: &mut T) -> Result<u64, EngineError>
    ensures reads { Reads T.Tree tree.old tree.new (IsErrOf result EngineError.Device) }
    ensures passed { OnOk result (T.failures tree.new ≡ T.failures tree.old) }
    ensures uncounted { IsErrOf result EngineError.OutOfMemory → T.failures tree.new ≡ T.failures tree.old }
    ensures read { T.is_honest → Answers (last_generation (content (T.files tree.old) auto_path)) (λ g. g) result }
{
    let mut buffer = Vec::with_capacity(alloc, PIECE)?;
    buffer.resize(PIECE, 0)?;
    let mut scan = AutoScan::new();
    let mut offset: u64 = 0;
    let mut kept: usize = 0;
    loop {
        let Some(end) = read_behind(alloc, tree, offset, &mut buffer, kept)? else {
            return Err(EngineError::NeverSynced);
        };
        offset += (end - kept) as u64;
        if end < buffer.len() {
            let generation = scan.finish(&buffer[..end])?;
            if generation == 0 {
                return Err(EngineError::NeverSynced);
            }
            return Ok(generation);
        }
        let taken = scan.feed(&buffer)?;
        kept = keep_rest(&mut buffer, taken)?;
    }
}
