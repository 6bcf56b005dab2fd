//! The numbers that files hold: the generation of auto.conf, those under which objects were recorded, and the stamps.
ghost use Rattle.std.specs.Prelude.{◌≡◌, codes, IfErr, IfOk, IsErrOf};
ghost use Rattle.ks_tree.specs.Files.{content};
ghost use Rattle.ks_tree.specs.Frames.{Reads};
ghost use Rattle.ks_tree.specs.Paths.{stamp_path};
ghost use Rattle.ks_engine.specs.Refusals.{Answers};
ghost use Rattle.ks_session.specs.Directories as directories;
ghost use Rattle.ks_session.specs.Numbers.{HoldsNumber, IsHighStamp, IsStampFault, begins_anew, has_generation, has_record_number, is_command_name};

use crate::directory::below;
use crate::lock::FoundFile;
use ks_engine::EngineError;
use ks_fixdep::borrow_command;
use ks_output::read_auto_generation;
use ks_symbols::{Name, name_is_legal};
use ks_tree::{Tree, read_stamp};
use std::alloc::Global;

/// Whether a synchronisation would begin the numbers: auto.conf is missing, or another tool wrote it. Of one that can't be read, or is
/// faulty, the command that needs it tells why.
pub fn begins_anew(auto: &Option<FoundFile>) -> bool
    ensures { result ≡ begins_anew auto.now }
{
    let Some(auto) = auto else {
        return false;
    };
    match &auto.text {
        Some(text) => matches!(read_auto_generation(text), Ok(0)),
        None => true,
    }
}

/// Whether a directory is the top of another tree: its own auto.conf has a generation, so the numbers below it are that tree's.
pub fn is_another_tree<T: Tree>(
    alloc: Global,
    tree: &mut T,
    directory: &str,
) -> Result<bool, EngineError>
    ensures reads { Reads T.Tree tree.old tree.new (IsErrOf result EngineError.Device) }
    ensures read { T.is_honest → Answers (has_generation (content (T.files tree.old) (directories.below directory.now (codes "include/config/auto.conf")))) (λ has. has) result }
{
    let path = below(alloc, directory, "include/config/auto.conf")?;
    let Some(text) = tree.read(alloc, path.as_bytes())? else {
        return Ok(false);
    };
    Ok(read_auto_generation(&text)? > 0)
}

/// Whether the file at a path is a command file whose record has a number.
fn has_record_number<T: Tree>(alloc: Global, tree: &mut T, path: &[u8]) -> Result<bool, EngineError>
    ensures reads { Reads T.Tree tree.old tree.new (IsErrOf result EngineError.Device) }
    ensures read { T.is_honest → Answers (has_record_number (content (T.files tree.old) path.now)) (λ has. has) result }
{
    let Some(text) = tree.read(alloc, path)? else {
        return Ok(false);
    };
    let file = borrow_command(alloc, &text)?;
    match file.generation {
        Some(generation) => Ok(generation > 0),
        None => Ok(false),
    }
}

/// Whether the stamp of a name is above what a first synchronisation leaves that was broken off.
fn is_high_stamp<T: Tree>(alloc: Global, tree: &mut T, name: &Name) -> Result<bool, EngineError>
    ensures reads { Reads T.Tree tree.old tree.new (IsErrOf result EngineError.Device) }
    ensures read { T.is_honest → IfOk result (IsHighStamp (content (T.files tree.old) (stamp_path name.now))) }
    ensures refused { T.is_honest → IfErr result (IsStampFault name.now (content (T.files tree.old) (stamp_path name.now))) }
{
    let number = read_stamp(alloc, tree, name)?;
    Ok(number > 1)
}

/// Whether the name of a file is that of a command file.
fn is_command_name(name: &[u8]) -> bool
    ensures { result ≡ is_command_name name.now }
{
    name.len() > 5 && name.starts_with(b".") && name.ends_with(b".cmd")
}

/// Whether a file of a directory holds a number that a synchronisation which begins anew would give a second time.
pub fn holds_number<T: Tree>(
    alloc: Global,
    tree: &mut T,
    directory: &str,
    name: &str,
) -> Result<bool, EngineError>
    ensures reads { Reads T.Tree tree.old tree.new (IsErrOf result EngineError.Device) }
    ensures reported { T.is_honest → HoldsNumber (T.files tree.old) directory.now name.now result }
{
    let file = name.as_bytes();
    if is_command_name(file) {
        let path = below(alloc, directory, name)?;
        has_record_number(alloc, tree, path.as_bytes())
    } else if directory == "include/config" && name_is_legal(file) {
        is_high_stamp(alloc, tree, &Name::new(alloc, file)?)
    } else {
        Ok(false)
    }
}
