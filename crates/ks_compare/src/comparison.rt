//! The names that changed between an old auto.conf and new settings.
//!
//! A name that is left out here is a stamp that is never touched, and an object that stays stale unseen; one too many
//! is work that make does for nothing. So the list is exact: one pass over two lists that rise by the same order.
//! What of an entry counts for a difference is said once, by `compared` of the definitions: its class and its text.
ghost use Rattle.std.specs.Prelude.{◌≡◌, IfOk, option_map};
ghost use Rattle.itertools.specs.EitherOrBoth.{map_any};
ghost use Rattle.ks_output.specs.OldConfig.{borrowed_old_entry};
ghost use Rattle.ks_symbols.specs.Configuration.{borrowed_entry};
ghost use Rattle.ks_compare.specs.Bases.{AreChangedEntries};
ghost use Rattle.ks_compare.specs.Changes.{AreChanges};
ghost use Rattle.ks_compare.specs.Pass as pass;

use crate::bases::{changed_companions, with_bases};
use itertools::{EitherOrBoth, merge_join_by};
use ks_output::OldConfig;
use ks_symbols::{Class, Kind, Name, Settings};
use std::alloc::{AllocError, Global};

type OldEntry<'a> = (&'a [u8], Option<Class>, &'a [u8]);

type NewEntry<'a> = (&'a [u8], Kind, &'a [u8]);

/// The name of an entry that stands in one of the two alone, or in both with another text or another class.
fn changed_name<'a>(pair: EitherOrBoth<OldEntry<'a>, NewEntry<'a>>) -> Option<&'a [u8]>
    ensures { option_map (λ n. n.now) result ≡ pass.changed_name (map_any borrowed_old_entry borrowed_entry pair.entry) }
{
    match pair {
        EitherOrBoth::Left((name, _, _)) | EitherOrBoth::Right((name, _, _)) => Some(name),
        EitherOrBoth::Both((name, class, was), (_, kind, is)) => {
            let differs = class != Some(kind.class()) || was != is;
            differs.then_some(name)
        }
    }
}

/// The names that have a text in one of the two alone, or in both another text or another class.
fn changed_entries(alloc: Global, old: &OldConfig, new: &Settings) -> Result<Vec<Name>, AllocError>
    ensures { IfOk result (λ names. AreChangedEntries old.now.texts new.now.entries names.items) }
{
    old.keeps_names();
    new.keeps_configuration();
    let mut names = Vec::new(alloc);
    for pair in merge_join_by(old.entries(), new.entries(), |was, is| was.0.cmp(is.0)) {
        if let Some(name) = changed_name(pair) {
            names.push(Name::new(alloc, name)?)?;
        }
    }
    Ok(names)
}

/// The names that have a text in one of the two alone, or in both another text or another class, or whose companions have: rising,
/// each once. A name that has no class yet, as in an auto.conf of the untyped form, has another one now.
pub fn changed(alloc: Global, old: &OldConfig, new: &Settings) -> Result<Vec<Name>, AllocError>
    ensures { IfOk result (λ names. AreChanges old.now.texts new.now.entries names.items) }
{
    let names = changed_entries(alloc, old, new)?;
    let companions = changed_companions(alloc, old, new, &names)?;
    if companions.is_empty() {
        return Ok(names);
    }
    with_bases(alloc, &names, &companions)
}
