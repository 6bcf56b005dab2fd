//! Other spellings of one path. A record knows its object by the bytes of the target, so an object that is asked for as `./x.o`
//! and was recorded as `x.o` is unknown, or its command file is refused as that of another target. `why` says so.
//!
//! What is looked for is the usual spelling of the path alone: no directory is read, and a link or a `..` leads where it leads.
ghost use Rattle.std.specs.Prelude.{◌≡◌, ◌++◌, false, Ok, IfErr, IfOk, IsErrOf, OnOk, map, option_map};
ghost use Rattle.ks_tree.specs.Frames.{Reads};
ghost use Rattle.ks_engine.specs.Costs.{record_at};
ghost use Rattle.ks_engine.specs.Refusals.{Answers, IsAborted};
ghost use Rattle.ks_engine.specs.Spelling.{is_record, is_unknown, is_unknown_verdict, parts, recorded_as, spelling_of, step, steps, usual};
ghost use Rattle.ks_commands.specs.Spelling.{spelling_line};

use ks_engine::{EngineError, Explanation, Verdict, borrow_record, read_record};
use ks_tree::Tree;
use std::alloc::{AllocError, Global};

/// The parts of a path between its slashes.
fn parts<'a>(alloc: Global, path: &'a [u8]) -> Result<Vec<&'a [u8]>, AllocError>
    ensures { IfOk result (λ v. map (λ p. p.now) v.items ≡ parts path.now) }
{
    path.split(|byte| *byte == b'/').collect(alloc)
}

/// Appends a part after a slash, unless it leads nowhere.
fn write_step(part: &[u8], text: &mut Vec<u8>) -> Result<(), AllocError>
    ensures { OnOk result (text.new.items ≡ text.old.items ++ step part.now) }
{
    if part.is_empty() || part == b".".as_slice() {
        return Ok(());
    }
    text.extend_from_slice(b"/")?;
    text.extend_from_slice(part)
}

/// All parts, each after a slash.
fn steps(alloc: Global, path: &[u8]) -> Result<Vec<u8>, AllocError>
    ensures { IfOk result (λ v. v.items ≡ steps path.now) }
{
    let parts = parts(alloc, path)?;
    let mut text = Vec::new(alloc);
    for part in &parts {
        write_step(*part, &mut text)?;
    }
    Ok(text)
}

/// The usual spelling of a path.
#[tactic(auto, unfolding(ks_engine::specs::Spelling::usual))]
fn usual(alloc: Global, path: &[u8]) -> Result<Vec<u8>, AllocError>
    ensures { IfOk result (λ v. v.items ≡ usual path.now) }
{
    let steps = steps(alloc, path)?;
    if path.starts_with(b"/") {
        return Ok(steps);
    }
    steps.iter().skip(1).copied().collect(alloc)
}

/// That there is no record, where an error doesn't come of memory or the device.
fn no_record(error: EngineError) -> Result<bool, EngineError>
    ensures aborted { IfErr result (λ e. IsAborted e × (e ≡ error)) }
    ensures none { IfOk result (λ is. (is ≡ false) × (IsAborted error → ⊥)) }
{
    match error {
        EngineError::OutOfMemory => Err(EngineError::OutOfMemory),
        EngineError::Device => Err(EngineError::Device),
        _ => Ok(false),
    }
}

/// Whether a target has a record that can be read.
fn has_record<T: Tree>(alloc: Global, tree: &mut T, target: &[u8]) -> Result<bool, EngineError>
    ensures reads { Reads T.Tree tree.old tree.new (IsErrOf result EngineError.Device) }
    ensures read { T.is_honest → Answers (Ok (is_record (record_at (T.files tree.old) target.now))) (λ is. is) result }
    ensures uncounted { IsErrOf result EngineError.OutOfMemory → T.failures tree.new ≡ T.failures tree.old }
{
    let text = match read_record(alloc, tree, target) {
        Ok(Some(text)) => text,
        Ok(None) => return Ok(false),
        Err(error) => return no_record(error),
    };
    match borrow_record(alloc, target, &text) {
        Ok(_) => Ok(true),
        Err(error) => no_record(error),
    }
}

/// The usual spelling of a target, where that is another one and a record stands under it.
#[tactic(auto, unfolding(ks_engine::specs::Spelling::recorded_as))]
fn recorded_as<T: Tree>(
    alloc: Global,
    tree: &mut T,
    target: &[u8],
) -> Result<Option<Vec<u8>>, EngineError>
    ensures reads { Reads T.Tree tree.old tree.new (IsErrOf result EngineError.Device) }
    ensures reported { T.is_honest → Answers (Ok (recorded_as (T.files tree.old) target.now)) (option_map (λ v. v.items)) result }
    ensures uncounted { IsErrOf result EngineError.OutOfMemory → T.failures tree.new ≡ T.failures tree.old }
{
    let usual = usual(alloc, target)?;
    if usual.as_slice() == target {
        return Ok(None);
    }
    if has_record(alloc, tree, &usual)? {
        Ok(Some(usual))
    } else {
        Ok(None)
    }
}

/// Whether an answer doesn't know the object by its spelling.
fn is_unknown(answer: &Result<Explanation, EngineError>) -> bool
    ensures { result ≡ is_unknown answer.now }
{
    match answer {
        Ok(explanation) => matches!(explanation.verdict, Verdict::NoCommandFile),
        Err(EngineError::BadCommandFile(line)) => *line == 1,
        Err(_) => false,
    }
}

/// The spelling under which an object is recorded that an answer doesn't know.
pub(crate) fn spelling_of<T: Tree>(
    alloc: Global,
    tree: &mut T,
    target: &[u8],
    answer: &Result<Explanation, EngineError>,
) -> Result<Option<Vec<u8>>, EngineError>
    ensures reads { Reads T.Tree tree.old tree.new (IsErrOf result EngineError.Device) }
    ensures reported { T.is_honest → Answers (Ok (spelling_of (T.files tree.old) target.now answer.now)) (option_map (λ v. v.items)) result }
    ensures uncounted { IsErrOf result EngineError.OutOfMemory → T.failures tree.new ≡ T.failures tree.old }
{
    if is_unknown(answer) {
        recorded_as(alloc, tree, target)
    } else {
        Ok(None)
    }
}

/// Appends the line that says so.
pub(crate) fn write_spelling(
    spelling: &Option<Vec<u8>>,
    text: &mut Vec<u8>,
) -> Result<(), AllocError>
    ensures { OnOk result (text.new.items ≡ text.old.items ++ spelling_line (option_map (λ v. v.items) spelling.now)) }
{
    let Some(path) = spelling else {
        return Ok(());
    };
    text.extend_from_slice(b"  recorded as ")?;
    text.extend_from_slice(path)?;
    text.extend_from_slice(b"\n")
}
