//! The names whose companions changed.
//!
//! A companion has the macro of another name's module, and a source that has this macro waits for the stamp of that name. So
//! it changes with its companion.
ghost use Rattle.std.specs.Prelude.{◌≡◌, ◌∷◌, [], IfOk, OnOk, map as map_list, option_map};
ghost use Rattle.std.specs.FinMap as map;
ghost use Rattle.ks_symbols.specs.Names.{is_in};
ghost use Rattle.ks_output.specs.OldConfig.{as_companion};
ghost use Rattle.ks_compare.specs.Bases.{AreLegal, AreNoted, AreWithBases, base_of, changed_companions, is_base_of};
ghost use Rattle.ks_compare.specs.Changes.{companion_differs, compared};
ghost use Rattle.ks_compare.specs.Views.{seen_value};

use ks_output::OldConfig;
use ks_symbols::{Class, Draft, Kind, Name, Settings, Table};
use std::alloc::{AllocError, Global};

/// The name whose companion has this one, if that is a name.
fn base_of(name: &[u8]) -> Option<&[u8]>
    ensures { option_map (λ base. base.now) result ≡ base_of name.now }
{
    if name.len() > 7 && name.ends_with(b"_MODULE") {
        Some(&name[..name.len() - 7])
    } else {
        None
    }
}

/// What counts of a companion in auto.conf.
fn old_companion<'a>(old: &'a OldConfig, name: &[u8]) -> Option<(Option<Class>, &'a [u8])>
    ensures { option_map seen_value result ≡ as_companion (map.get old.now.texts name.now) }
{
    let text = old.get(name)?;
    match old.class(name) {
        Some(Class::Flag) => None,
        class => Some((class, text)),
    }
}

/// .. and in the settings.
fn new_companion<'a>(new: &'a Settings, name: &[u8]) -> Option<(Option<Class>, &'a [u8])>
    ensures { option_map seen_value result ≡ as_companion (option_map compared (map.get new.now.entries name.now)) }
{
    match new.get(name) {
        None | Some((Kind::Flag, _)) => None,
        Some((kind, text)) => Some((Some(kind.class()), text)),
    }
}

/// Whether what counts of a companion differs.
fn companion_differs(old: &OldConfig, new: &Settings, name: &[u8]) -> bool
    ensures { result ≡ companion_differs old.now.texts new.now.entries name.now }
{
    match (old_companion(old, name), new_companion(new, name)) {
        (None, None) => false,
        (Some((class, was)), Some((other, is))) => class != other || was != is,
        _ => true,
    }
}

/// Of changed names those that changed as companions. Almost always there is none, which takes no memory.
pub(crate) fn changed_companions(
    alloc: Global,
    old: &OldConfig,
    new: &Settings,
    names: &[Name],
) -> Result<Vec<Name>, AllocError>
    ensures { IfOk result (λ companions. companions.items ≡ changed_companions old.now.texts new.now.entries names.now) }
{
    let mut companions = Vec::new(alloc);
    for name in names {
        let name = name.as_bytes();
        if base_of(name).is_some() && companion_differs(old, new, name) {
            companions.push(Name::new(alloc, name)?)?;
        }
    }
    Ok(companions)
}

/// Notes the names.
fn note_names(names: &[Name], draft: &mut Draft<()>) -> Result<(), AllocError>
    requires { AreLegal draft.old }
    ensures noted { OnOk result (AreNoted draft.old (is_in names.now) draft.new) }
    ensures legal { OnOk result (AreLegal draft.new) }
{
    for name in names {
        draft.put(name.as_bytes(), (), b"")?;
    }
    Ok(())
}

/// Notes the name whose companion this one is.
fn note_base(name: &Name, draft: &mut Draft<()>) -> Result<(), AllocError>
    requires { AreLegal draft.old }
    ensures noted { OnOk result (AreNoted draft.old (is_base_of (name.now ∷ [])) draft.new) }
    ensures legal { OnOk result (AreLegal draft.new) }
{
    let name = name.as_bytes();
    if let Some(base) = base_of(name) {
        draft.put(base, (), b"")?;
    }
    Ok(())
}

/// Notes the names whose companions these are.
fn note_bases(companions: &[Name], draft: &mut Draft<()>) -> Result<(), AllocError>
    requires { AreLegal draft.old }
    ensures noted { OnOk result (AreNoted draft.old (is_base_of companions.now) draft.new) }
    ensures legal { OnOk result (AreLegal draft.new) }
{
    for name in companions {
        note_base(name, draft)?;
    }
    Ok(())
}

/// The names of a table.
fn names_of(alloc: Global, table: &Table<()>) -> Result<Vec<Name>, AllocError>
    requires { AreLegal table.now }
    ensures { IfOk result (λ names. names.items ≡ map_list (λ e. e.0) (map.entries table.now)) }
{
    let mut names = Vec::new(alloc);
    for (name, _, _) in table.rows() {
        names.push(Name::new(alloc, name)?)?;
    }
    Ok(names)
}

/// The names, and those whose companions these are: rising, each once.
pub(crate) fn with_bases(
    alloc: Global,
    names: &[Name],
    companions: &[Name],
) -> Result<Vec<Name>, AllocError>
    ensures { IfOk result (λ all. AreWithBases names.now companions.now all.items) }
{
    let mut draft = Draft::new(alloc);
    note_names(names, &mut draft)?;
    note_bases(companions, &mut draft)?;
    let table = draft.finish(alloc)?;
    names_of(alloc, &table)
}
