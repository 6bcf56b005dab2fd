//! The dependency file that a build by times is given in the place of the compiler's, so that it builds an object anew by the
//! symbols that are named in its files, and not by each change of the configuration. It is one rule, since some build tools
//! take no target that is a prerequisite of another rule.
ghost use Rattle.std.specs.Prelude.{◌≡◌, ◌++◌, IfOk, None, OnOk, Some, flat_map, map, option_map};
ghost use Rattle.ks_fixdep.specs.Rule.{FirstTokensAreTokens, RulesReadBack, continued, first_target, rule_of, stamp_of};
ghost use Rattle.ks_fixdep.specs.Tokens.{tokens};

use crate::dependency_file::Prerequisites;
use crate::tokens::token_at;
use ks_symbols::Name;
use std::alloc::{AllocError, Global};

/// The first target of a dependency file, with its colon.
fn first_target(depfile: &[u8]) -> &[u8]
    ensures { result.now ≡ first_target (tokens depfile.now) }
{
    match token_at(depfile, 1) {
        Some(target) => target,
        None => b"",
    }
}

/// Writes the lines of the prerequisites.
fn push_paths(text: &mut Vec<u8>, prerequisites: &Prerequisites) -> Result<(), AllocError>
    ensures { OnOk result (text.new.items ≡ text.old.items ++ flat_map continued (map (λ p. p.0) prerequisites.now)) }
{
    for (path, _) in prerequisites.entries() {
        text.extend_from_slice(b" \\\n  ")?;
        text.extend_from_slice(path)?;
    }
    Ok(())
}

/// Writes the line of the stamp of a name.
fn push_own_stamp(text: &mut Vec<u8>, name: &[u8]) -> Result<(), AllocError>
    ensures { OnOk result (text.new.items ≡ text.old.items ++ continued (stamp_of None name.now)) }
{
    text.extend_from_slice(b" \\\n  include/config/")?;
    text.extend_from_slice(name)?;
    Ok(())
}

/// Writes the line of the stamp that a tree of this name has of a name.
fn push_stamp_in(text: &mut Vec<u8>, tree: &[u8], name: &[u8]) -> Result<(), AllocError>
    ensures { OnOk result (text.new.items ≡ text.old.items ++ continued (stamp_of (Some tree.now) name.now)) }
{
    text.extend_from_slice(b" \\\n  ")?;
    text.extend_from_slice(tree)?;
    text.extend_from_slice(b"/include/config/")?;
    text.extend_from_slice(name)?;
    Ok(())
}

/// Writes the line of the stamp of a name, in either form.
fn push_stamp(text: &mut Vec<u8>, tree: Option<&[u8]>, name: &[u8]) -> Result<(), AllocError>
    ensures { OnOk result (text.new.items ≡ text.old.items ++ continued (stamp_of (option_map (λ t. t.now) tree.entry) name.now)) }
{
    match tree {
        Some(tree) => push_stamp_in(text, tree, name),
        None => push_own_stamp(text, name),
    }
}

/// Writes the lines of the stamps.
fn push_stamps(text: &mut Vec<u8>, tree: Option<&[u8]>, names: &[Name]) -> Result<(), AllocError>
    ensures { OnOk result (text.new.items ≡ text.old.items ++ flat_map continued (map (stamp_of (option_map (λ t. t.now) tree.entry)) names.now)) }
{
    for name in names {
        push_stamp(text, tree, name.as_bytes())?;
    }
    Ok(())
}

/// The one rule that is left of a dependency file: its first target, these prerequisites, and the stamps of these names, which for a
/// build in another directory are in a tree of this name.
pub fn rule_text(
    alloc: Global,
    tree: Option<&[u8]>,
    depfile: &[u8],
    prerequisites: &Prerequisites,
    names: &[Name],
) -> Result<Vec<u8>, AllocError>
    ensures { IfOk result (λ text. text.items ≡ rule_of (option_map (λ t. t.now) tree.entry) (first_target (tokens depfile.now)) (map (λ p. p.0) prerequisites.now) names.now) }
{
    let mut text = Vec::from_slice(alloc, first_target(depfile))?;
    push_paths(&mut text, prerequisites)?;
    push_stamps(&mut text, tree, names)?;
    text.push(b'\n')?;
    Ok(text)
}

/// A rule that is written is read as it was meant, whatever legal paths and names stand in it.
pub fn rules_read_back()
    ensures back { RulesReadBack }
    ensures first { FirstTokensAreTokens }
{}
