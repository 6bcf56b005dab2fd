//! The stamps of names: `include/config/NAME` holds the generation of the last synchronisation that changed the name. Writing a
//! stamp renews the file's time as well, so a plain make that looks at times still works.
ghost use Rattle.std.specs.Prelude.{◌≡◌, ◌↔◌, ◌⊎◌, ◌≤◌, ℕ, [], Some, None, Option, take, IfOk, IfErr, IfSome, IfNone, OnOk, OnErr, IsErrOf};
ghost use Rattle.ks_tree.specs.Frames.{Counted, Reads};
ghost use Rattle.ks_tree.specs.Files.{content, SameButBoth};
ghost use Rattle.ks_tree.specs.Paths.{stamp_path, stamp_temporary};
ghost use Rattle.ks_tree.specs.Stamps.{HasNumber, IsStampRefusal, Touches, left_over, stamp_text};

use crate::paths::{stamp_path, stamp_temporary};
use crate::{Tree, TreeError, TreeFault, replace};
use ks_symbols::{Name, read_decimal, write_decimal};
use std::alloc::{AllocError, Global};

/// The number that a stamp's bytes hold.
fn number(stamp: &[u8]) -> Option<u64>
    ensures found { IfSome result (λ n. HasNumber (Some stamp.now) n) }
    ensures none { IfNone result ((n : ℕ) → HasNumber (Some stamp.now) n → ⊥) }
{
    match stamp.split_last() {
        None => Some(0),
        Some((b'\n', digits)) => read_decimal(digits),
        Some(_) => None,
    }
}

/// The bytes of a stamp.
fn stamp_text(alloc: Global, generation: u64) -> Result<Vec<u8>, AllocError>
    ensures { IfOk result (λ text. text.items ≡ stamp_text generation) }
{
    let mut text = Vec::new(alloc);
    write_decimal(generation, &mut text)?;
    text.push(b'\n')?;
    Ok(text)
}

/// The number of a name's stamp: 0 where there is none or an empty one.
pub fn read_stamp<T: Tree>(alloc: Global, tree: &mut T, name: &Name) -> Result<u64, TreeError>
    ensures number { T.is_honest → IfOk result (λ n. HasNumber (content (T.files tree.old) (stamp_path name.now)) n) }
    ensures refused { T.is_honest → IfErr result (IsStampRefusal name.now (content (T.files tree.old) (stamp_path name.now))) }
    ensures reads { Reads T.Tree tree.old tree.new (IsErrOf result TreeError.Device) }
    ensures passed { OnOk result (T.failures tree.new ≡ T.failures tree.old) }
    ensures uncounted { IsErrOf result TreeError.OutOfMemory → T.failures tree.new ≡ T.failures tree.old }
{
    let path = stamp_path(alloc, name)?;
    let Some(stamp) = tree.read(alloc, &path)? else {
        return Ok(0);
    };
    match number(&stamp) {
        Some(n) => Ok(n),
        None => Err(TreeError::BadStamp(Name::new(alloc, name.as_bytes())?)),
    }
}

/// Sets a name's stamp to a generation.
pub fn touch<T: Tree>(
    alloc: Global,
    tree: &mut T,
    name: &Name,
    generation: u64,
) -> Result<(), TreeFault>
    ensures stamp { T.is_honest → OnOk result (content (T.files tree.new) (stamp_path name.now) ≡ Some (stamp_text generation)) }
    ensures gone { T.is_honest → OnOk result (content (T.files tree.new) stamp_temporary ≡ None) }
    ensures old_or_new { T.is_honest → OnErr result
        ((content (T.files tree.new) (stamp_path name.now) ≡ content (T.files tree.old) (stamp_path name.now))
        ⊎ (content (T.files tree.new) (stamp_path name.now) ≡ Some (stamp_text generation))) }
    ensures others { T.is_honest → SameButBoth stamp_temporary (stamp_path name.now) (T.files tree.old) (T.files tree.new) }
    ensures never { IsErrOf result TreeFault.TooLarge → ⊥ }
    ensures counted { Counted T.Tree tree.old tree.new (IsErrOf result TreeFault.Device) }
    ensures kept { T.backdated tree.new ≡ T.backdated tree.old }
    ensures passed { OnOk result (T.failures tree.new ≡ T.failures tree.old) }
    ensures uncounted { IsErrOf result TreeFault.OutOfMemory → T.failures tree.new ≡ T.failures tree.old }
{
    let path = stamp_path(alloc, name)?;
    let text = stamp_text(alloc, generation)?;
    replace(alloc, tree, stamp_temporary(), &path, &text)
}

/// Sets the stamps of names to a generation, in order, up to the first fault.
pub fn touch_all<T: Tree>(
    alloc: Global,
    tree: &mut T,
    names: &[Name],
    generation: u64,
) -> Result<(), TreeFault>
    ensures all { T.is_honest → OnOk result (Touches names.now generation (T.files tree.old) (T.files tree.new)) }
    ensures gone { T.is_honest → OnOk result (content (T.files tree.new) stamp_temporary ≡ left_over names.now (content (T.files tree.old) stamp_temporary)) }
    ensures none { names.now ≡ [] → tree.new ≡ tree.old }
    // After a fault the stamps of a beginning of the names are set.
    ensures some { T.is_honest → OnErr result ((n : ℕ) × Touches (take n names.now) generation (T.files tree.old) (T.files tree.new)) }
    ensures never { IsErrOf result TreeFault.TooLarge → ⊥ }
    ensures counted { Counted T.Tree tree.old tree.new (IsErrOf result TreeFault.Device) }
    ensures kept { T.backdated tree.new ≡ T.backdated tree.old }
    ensures passed { OnOk result (T.failures tree.new ≡ T.failures tree.old) }
    ensures uncounted { IsErrOf result TreeFault.OutOfMemory → T.failures tree.new ≡ T.failures tree.old }
{
    let text = stamp_text(alloc, generation)?;
    for name in names {
        let path = stamp_path(alloc, name)?;
        replace(alloc, tree, stamp_temporary(), &path, &text)?;
    }
    Ok(())
}
