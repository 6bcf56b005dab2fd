//! The objects that a question is about: those among its arguments, and after them those that a file holds, one a line.
//!
//! A target of the file is a piece of its text and is not copied, since there can be as many as a kernel has objects. A line
//! that is no legal target is one all the same: it is answered in its place, as the word would be.
ghost use Rattle.std.specs.Prelude.{◌≡◌, ◌++◌, [], IfOk, IsErrOf, None, OnOk, map, option_map, string_bytes};
ghost use Rattle.ks_tree.specs.Frames.{Reads};
ghost use Rattle.ks_engine.specs.Refusals.{Answers};
ghost use Rattle.ks_fixdep.specs.FoundNames.{all_noted};
ghost use Rattle.ks_requests.specs.Inputs.{given_if_named};
ghost use Rattle.ks_requests.specs.Readings.{ReadsEach, ReadsSome, if_named};
ghost use Rattle.ks_requests.specs.Targets.{file_of, targets_in, with_file, args_of};

use crate::inputs::{borrowed_path, read_named};
use crate::reading::Reading;
use crate::request::Targets;
use bstr::ByteSlice;
use indexmap::IndexSet;
use ks_engine::EngineError;
use ks_symbols::Seed;
use std::alloc::{AllocError, Global};

/// Appends the lines of a text that are not empty.
fn push_lines<'a>(text: &'a [u8], targets: &mut Vec<&'a [u8]>) -> Result<(), AllocError>
    ensures { OnOk result (map (λ t. t.now) targets.new.items ≡ map (λ t. t.now) targets.old.items ++ targets_in text.now) }
{
    for line in text.lines() {
        if !line.is_empty() {
            targets.push(line)?;
        }
    }
    Ok(())
}

/// Appends the arguments.
fn push_args<'a>(args: &'a [String], targets: &mut Vec<&'a [u8]>) -> Result<(), AllocError>
    ensures { OnOk result (map (λ t. t.now) targets.new.items ≡ map (λ t. t.now) targets.old.items ++ map (λ w. string_bytes w) args.now) }
{
    for word in args {
        targets.push(word.as_bytes())?;
    }
    Ok(())
}

/// The text of the file that may be named, or `None` where none is. An error is that of `read_given`: what the file holds is
/// not looked at, so it can hold anything.
pub fn read_targets<T: Reading>(
    alloc: Global,
    tree: &mut T,
    targets: &Targets,
) -> Result<Option<Vec<u8>>, EngineError>
    ensures reads { Reads T.Tree tree.old tree.new (IsErrOf result EngineError.Device) }
    ensures text { T.is_honest → Answers (given_if_named (T.files tree.old) (file_of targets.now)) (option_map (λ v. v.items)) result }
    ensures none { file_of targets.now ≡ None → IfOk result (λ found. found ≡ None) }
    ensures once { OnOk result (ReadsEach T.reads tree.old (if_named (file_of targets.now)) tree.new) }
    ensures no_other { ReadsSome T.reads tree.old (if_named (file_of targets.now)) tree.new }
{
    read_named(alloc, tree, borrowed_path(&targets.from))
}

/// All targets, in their order: the arguments, and then the lines of the text, without their LF or CR LF. They borrow both. Repeats
/// stay, and no target is looked at: one that is not legal is refused where it is asked about.
pub fn all_targets<'a>(
    alloc: Global,
    targets: &'a Targets,
    text: Option<&'a [u8]>,
) -> Result<Vec<&'a [u8]>, AllocError>
    ensures { IfOk result (λ all. map (λ t. t.now) all.items ≡ with_file (args_of targets.now) (option_map (λ t. t.now) text.entry)) }
{
    let mut all = Vec::with_capacity(alloc, targets.args.len())?;
    push_args(&targets.args, &mut all)?;
    if let Some(text) = text {
        push_lines(text, &mut all)?;
    }
    Ok(all)
}

/// The targets of a file that holds nothing else, in their order.
pub fn listed_targets<'a>(alloc: Global, text: &'a [u8]) -> Result<Vec<&'a [u8]>, AllocError>
    ensures { IfOk result (λ all. map (λ t. t.now) all.items ≡ targets_in text.now) }
{
    let mut all = Vec::new(alloc);
    push_lines(text, &mut all)?;
    Ok(all)
}

/// The targets in their order, each where it is given first.
pub fn each_once<'a>(
    alloc: Global,
    seed: Seed,
    targets: &[&'a [u8]],
) -> Result<IndexSet<&'a [u8], Seed>, AllocError>
    ensures { IfOk result (λ once. map (λ t. t.now) once.keys ≡ all_noted [] (map (λ t. t.now) targets.now)) }
{
    let mut once = IndexSet::with_hasher(alloc, seed);
    for target in targets {
        once.insert_full(*target)?;
    }
    Ok(once)
}
