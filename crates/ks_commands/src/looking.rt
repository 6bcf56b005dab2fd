//! Whether an object may depend on more than the names that its files mention, which is looked at before a strict record.
//!
//! A build that leaves the header of all symbols out of an object's dependencies is right where nothing but these names can matter. What
//! the compiler has read says whether that is known. In doubt the object isn't recorded, and its dependencies stay.
ghost use Rattle.std.specs.Prelude.{◌≡◌, ◌⊎◌, ◌||◌, List, ℕ, Err, IfErr, IfOk, IsErrOf, IsTrue, None, OnOk, Some, is_some, map, slice_get, string_bytes, true, vec_items};
ghost use Rattle.ks_symbols.specs.Names.{is_path};
ghost use Rattle.ks_fixdep.specs.DependencyFile.{ends_in_path, is_directory, is_header};
ghost use Rattle.ks_fixdep.specs.declared.dependency_file.Role.{Role};
ghost use Rattle.ks_hidden.specs.Macros.{is_in};
ghost use Rattle.ks_hidden.specs.Precompiled.{is_among};
ghost use Rattle.ks_hidden.specs.declared.hidden.Hidden.TheVariants.{Precompiled};
ghost use Rattle.ks_tree.specs.Files.{content};
ghost use Rattle.ks_tree.specs.Frames.{Reads};
ghost use Rattle.ks_engine.specs.Places.{placed_by};
ghost use Rattle.ks_engine.specs.Refusals.{IsAborted};
ghost use Rattle.ks_requests.specs.Inputs.{given};
ghost use Rattle.ks_commands.specs.Looking.{AreListed, AreLookedAt, IsDefinition, IsFound, IsHeader, IsInput, IsListRefused, IsLooked, IsLookedAt, IsSought, IsUnread, IsUnreadAmong, IsUnreadDefinition, IsUnreadFile, IsUnreadListed, AreFilesLooked, AreTools, IsBadTool, is_program, file_includes, has_source, includes_macro, is_header_name, is_included, is_listed, is_of_system, is_own, is_read, is_source, looked_by, path_of};

use indexmap::IndexSet;
use ks_engine::{EngineError, RecordOptions, read_old};
use ks_fixdep::{Header, Prerequisites, placed_text, read_depfile_without};
use ks_hidden::{
    Hidden, defining_line, defining_word, foreign_line, hidden_line, lacks_definition,
    precompiled_candidates, unknown_argument,
};
use ks_output::OldConfig;
use ks_requests::{StrictPaths, read_given};
use ks_symbols::{Dialect, Path, Seed, path_is_legal};
use ks_tree::{Tree, header_path};
use std::alloc::{AllocError, Global};

/// How the files of an object are looked at.
#[derive(Drop)]
struct Looking<'a> {
    dialect: Dialect,
    header: Header<'a>,
    /// Another path that the header may have.
    alias: &'a [u8],
    /// What the last synchronisation wrote.
    config: OldConfig,
    /// The paths of all files.
    listed: IndexSet<&'a [u8], Seed>,
    command: &'a [u8],
}

/// Whether what stands before a path leaves it a path of its own.
fn names_directory(prefix: &[u8]) -> bool
    ensures { result ≡ is_directory prefix.now }
{
    prefix.is_empty() || prefix.ends_with(b"/")
}

/// Whether a path is another one, or ends in it after a slash.
fn ends_in_path(path: &[u8], end: &[u8]) -> bool
    ensures { result ≡ ends_in_path path.now end.now }
{
    match path.strip_suffix(end) {
        Some(prefix) => names_directory(prefix),
        None => false,
    }
}

/// Whether a path is the header's, by its end.
fn is_header(header: Header<'_>, path: &[u8]) -> bool
    ensures { result ≡ is_header header.entry path.now }
{
    match header {
        Header::Usual => path.ends_with(header_path()),
        Header::BusyBox => ends_in_path(path, b"include/autoconf.h"),
        Header::At(end) => ends_in_path(path, end),
    }
}

/// The path by which sources include the header.
fn path_of<'a>(header: Header<'a>) -> &'a [u8]
    ensures { result.now ≡ path_of header.entry }
{
    match header {
        Header::Usual => header_path(),
        Header::BusyBox => b"include/autoconf.h",
        Header::At(path) => path,
    }
}

/// Whether a path is that of the header of this directory.
fn is_own(header: Header<'_>, alias: &[u8], path: &[u8]) -> bool
    ensures { result ≡ is_own header.entry alias.now path.now }
{
    path == alias || path == path_of(header)
}

/// Whether a file is the system's.
fn is_of_system(path: &[u8]) -> bool
    ensures { result ≡ is_of_system path.now }
{
    path.starts_with(b"/usr/")
        && !path.starts_with(b"/usr/src/")
        && !path.starts_with(b"/usr/local/src/")
}

/// Whether a file is a header by its name.
fn is_header_name(path: &[u8]) -> bool
    ensures { result ≡ is_header_name path.now }
{
    path.ends_with(b".h")
        || path.ends_with(b".hh")
        || path.ends_with(b".hpp")
        || path.ends_with(b".hxx")
}

/// Looks at the header.
fn look_at_header<T: Tree>(
    alloc: Global,
    tree: &mut T,
    look: &Looking<'_>,
    path: &[u8],
) -> Result<Option<Hidden>, EngineError>
    requires legal { IsTrue (is_path path.now) }
    ensures reads { Reads T.Tree tree.old tree.new (IsErrOf result EngineError.Device) }
    ensures passed { OnOk result (T.failures tree.new ≡ T.failures tree.old) }
    ensures uncounted { IsErrOf result EngineError.OutOfMemory → T.failures tree.new ≡ T.failures tree.old }
    ensures looked { T.is_honest → IfOk result (IsHeader (looked_by look.now) (T.files tree.old) path.now) }
    ensures refused { T.is_honest → IfErr result (λ e. IsAborted e ⊎ ((is_own look.now.header look.now.alias.now path.now ≡ true) × (given (T.files tree.old) path.now ≡ Err e))) }
{
    if !is_own(look.header, look.alias, path) {
        return Ok(Some(Hidden::OtherHeader(Path::new(alloc, path)?)));
    }
    let text = read_given(alloc, tree, path)?;
    if let Some(line) = foreign_line(alloc, look.dialect, &look.config, &text)? {
        return Ok(Some(Hidden::Line(Path::new(alloc, path)?, line)));
    }
    if lacks_definition(alloc, Seed::new(tree.seed()), &look.config, &text)? {
        return Ok(Some(Hidden::MissingLine(Path::new(alloc, path)?)));
    }
    Ok(None)
}

/// Whether there is a file at a path.
fn is_there<T: Tree>(alloc: Global, tree: &mut T, path: &[u8]) -> Result<bool, EngineError>
    ensures reads { Reads T.Tree tree.old tree.new (IsErrOf result EngineError.Device) }
    ensures passed { OnOk result (T.failures tree.new ≡ T.failures tree.old) }
    ensures uncounted { IsErrOf result EngineError.OutOfMemory → T.failures tree.new ≡ T.failures tree.old }
    ensures given { IfErr result IsAborted }
    ensures found { T.is_honest → IfOk result (λ has. has ≡ is_some (content (T.files tree.old) path.now)) }
{
    Ok(tree.read_at(alloc, path, 0, &mut [0; 1])?.is_some())
}

/// Whether there is a file at one of these paths. One that is no path can't be looked at.
fn find_precompiled<T: Tree>(
    alloc: Global,
    tree: &mut T,
    source: &[u8],
    paths: &[Vec<u8>],
) -> Result<Option<Hidden>, EngineError>
    requires legal { IsTrue (is_path source.now) }
    ensures reads { Reads T.Tree tree.old tree.new (IsErrOf result EngineError.Device) }
    ensures passed { OnOk result (T.failures tree.new ≡ T.failures tree.old) }
    ensures uncounted { IsErrOf result EngineError.OutOfMemory → T.failures tree.new ≡ T.failures tree.old }
    ensures found { T.is_honest → IfOk result (IsSought (T.files tree.old) source.now (map vec_items paths.now)) }
    ensures given { IfErr result IsAborted }
{
    for place in 0..paths.len() {
        let path = paths[place].as_slice();
        if !path_is_legal(path) {
            return Ok(Some(Hidden::Precompiled(Path::new(alloc, source)?)));
        }
        if is_there(alloc, tree, path)? {
            return Ok(Some(Hidden::Precompiled(Path::new(alloc, path)?)));
        }
    }
    Ok(None)
}

/// Looks at a file that the compiler has read. The macros that it includes by their names are noted.
fn look_at_input<T: Tree>(
    alloc: Global,
    tree: &mut T,
    look: &Looking<'_>,
    included: &mut IndexSet<Vec<u8>, Seed>,
    path: &[u8],
) -> Result<Option<Hidden>, EngineError>
    requires legal { IsTrue (is_path path.now) }
    ensures reads { Reads T.Tree tree.old tree.new (IsErrOf result EngineError.Device) }
    ensures passed { OnOk result (T.failures tree.new ≡ T.failures tree.old) }
    ensures uncounted { IsErrOf result EngineError.OutOfMemory → T.failures tree.new ≡ T.failures tree.old }
    ensures looked { T.is_honest → IfOk result (IsInput (looked_by look.now) (T.files tree.old) path.now) }
    ensures noted { T.is_honest → IfOk result (λ found. found ≡ None → (name : List ℕ)
        → is_in included.new name ≡ (is_in included.old name || includes_macro (content (T.files tree.old) path.now) name)) }
    ensures refused { T.is_honest → IfErr result (λ e. IsAborted e ⊎ (given (T.files tree.old) path.now ≡ Err e)) }
{
    let text = read_given(alloc, tree, path)?;
    if let Some(line) = hidden_line(alloc, included, &text)? {
        return Ok(Some(Hidden::Input(Path::new(alloc, path)?, line)));
    }
    if is_header_name(path) {
        return Ok(None);
    }
    let paths = precompiled_candidates(alloc, &look.listed, path, &text, look.command)?;
    find_precompiled(alloc, tree, path, &paths)
}

/// Looks at a file that the dependency file lists.
fn look_at<T: Tree>(
    alloc: Global,
    tree: &mut T,
    look: &Looking<'_>,
    included: &mut IndexSet<Vec<u8>, Seed>,
    path: &[u8],
) -> Result<Option<Hidden>, EngineError>
    requires legal { IsTrue (is_path path.now) }
    ensures reads { Reads T.Tree tree.old tree.new (IsErrOf result EngineError.Device) }
    ensures passed { OnOk result (T.failures tree.new ≡ T.failures tree.old) }
    ensures uncounted { IsErrOf result EngineError.OutOfMemory → T.failures tree.new ≡ T.failures tree.old }
    ensures looked { T.is_honest → IfOk result (IsLookedAt (looked_by look.now) (T.files tree.old) path.now) }
    ensures noted { T.is_honest → IfOk result (λ found. found ≡ None → (name : List ℕ)
        → is_in included.new name ≡ (is_in included.old name || file_includes (looked_by look.now) (T.files tree.old) path.now name)) }
    ensures refused { T.is_honest → IfErr result (λ e. IsAborted e ⊎ ((is_read (looked_by look.now) path.now ≡ true) × (given (T.files tree.old) path.now ≡ Err e))) }
{
    if is_header(look.header, path) {
        return look_at_header(alloc, tree, look, path);
    }
    if is_of_system(path) {
        return Ok(None);
    }
    look_at_input(alloc, tree, look, included, path)
}

/// Whether a file is compiled, and not included.
fn is_source(header: Header<'_>, path: &[u8]) -> bool
    ensures { result ≡ is_source header.entry path.now }
{
    !is_header(header, path) && !is_of_system(path) && !is_header_name(path)
}

/// Whether one of the files that a dependency file lists is compiled.
fn has_source(header: Header<'_>, prerequisites: &Prerequisites) -> bool
    ensures { result ≡ has_source header.entry prerequisites.now }
{
    for place in 0..prerequisites.len() {
        let Some((path, _)) = prerequisites.get(place) else {
            unreachable!();
        };
        if is_source(header, path) {
            return true;
        }
    }
    false
}

/// The precompiled header that an object is, where none of its files is compiled.
fn without_source(
    alloc: Global,
    prerequisites: &Prerequisites,
) -> Result<Option<Hidden>, AllocError>
    ensures { IfOk result (λ found. (p : List ℕ × Role) × (slice_get prerequisites.now 0 ≡ Some p) × (found ≡ Some (Precompiled p.0))) }
{
    // By this call alone the proof knows that there is one.
    prerequisites.len();
    let Some((path, _)) = prerequisites.get(0) else {
        unreachable!();
    };
    Ok(Some(Hidden::Precompiled(Path::new(alloc, path)?)))
}

/// Looks at all files that a dependency file lists, in their order.
fn look_at_all<T: Tree>(
    alloc: Global,
    tree: &mut T,
    look: &Looking<'_>,
    included: &mut IndexSet<Vec<u8>, Seed>,
    prerequisites: &Prerequisites,
) -> Result<Option<Hidden>, EngineError>
    ensures reads { Reads T.Tree tree.old tree.new (IsErrOf result EngineError.Device) }
    ensures passed { OnOk result (T.failures tree.new ≡ T.failures tree.old) }
    ensures uncounted { IsErrOf result EngineError.OutOfMemory → T.failures tree.new ≡ T.failures tree.old }
    ensures found { T.is_honest → IfOk result (AreLookedAt (looked_by look.now) (T.files tree.old) prerequisites.now) }
    ensures noted { T.is_honest → IfOk result (λ found. found ≡ None → (name : List ℕ)
        → is_in included.new name ≡ (is_in included.old name || is_included (looked_by look.now) (T.files tree.old) prerequisites.now name)) }
    ensures refused { T.is_honest → IfErr result (λ e. IsAborted e ⊎ IsUnreadAmong (looked_by look.now) (T.files tree.old) prerequisites.now e) }
{
    for place in 0..prerequisites.len() {
        let Some((path, _)) = prerequisites.get(place) else {
            unreachable!();
        };
        if let Some(hidden) = look_at(alloc, tree, look, included, path)? {
            return Ok(Some(hidden));
        }
    }
    Ok(None)
}

/// What may define one of these macros, if anything: a word of the command, or a line of a file.
fn find_definition<T: Tree>(
    alloc: Global,
    tree: &mut T,
    macros: &IndexSet<Vec<u8>, Seed>,
    command: &[u8],
    prerequisites: &Prerequisites,
) -> Result<Option<Hidden>, EngineError>
    ensures reads { Reads T.Tree tree.old tree.new (IsErrOf result EngineError.Device) }
    ensures passed { OnOk result (T.failures tree.new ≡ T.failures tree.old) }
    ensures uncounted { IsErrOf result EngineError.OutOfMemory → T.failures tree.new ≡ T.failures tree.old }
    ensures found { T.is_honest → IfOk result (IsDefinition (is_in macros.now) (T.files tree.old) command.now prerequisites.now) }
    ensures refused { T.is_honest → IfErr result (λ e. IsAborted e ⊎ IsUnreadDefinition (is_in macros.now) (T.files tree.old) command.now prerequisites.now e) }
{
    if let Some(word) = defining_word(alloc, macros, command)? {
        return Ok(Some(Hidden::Argument(word)));
    }
    for place in 0..prerequisites.len() {
        let Some((path, _)) = prerequisites.get(place) else {
            unreachable!();
        };
        let text = read_given(alloc, tree, path)?;
        if let Some(line) = defining_line(macros, &text) {
            return Ok(Some(Hidden::Input(Path::new(alloc, path)?, line)));
        }
    }
    Ok(None)
}

/// What may matter to an object whose dependency file lists these, if anything.
fn look_for_cause<T: Tree>(
    alloc: Global,
    tree: &mut T,
    look: &Looking<'_>,
    prerequisites: &Prerequisites,
) -> Result<Option<Hidden>, EngineError>
    ensures reads { Reads T.Tree tree.old tree.new (IsErrOf result EngineError.Device) }
    ensures passed { OnOk result (T.failures tree.new ≡ T.failures tree.old) }
    ensures uncounted { IsErrOf result EngineError.OutOfMemory → T.failures tree.new ≡ T.failures tree.old }
    ensures found { T.is_honest → IfOk result (IsFound (looked_by look.now) (T.files tree.old) prerequisites.now) }
    ensures refused { T.is_honest → IfErr result (λ e. IsAborted e ⊎ IsUnreadListed (looked_by look.now) (T.files tree.old) prerequisites.now e) }
{
    let mut included = IndexSet::with_hasher(alloc, Seed::new(tree.seed()));
    if let Some(hidden) = look_at_all(alloc, tree, look, &mut included, prerequisites)? {
        return Ok(Some(hidden));
    }
    if !has_source(look.header, prerequisites) {
        return Ok(without_source(alloc, prerequisites)?);
    }
    if included.is_empty() {
        return Ok(None);
    }
    find_definition(alloc, tree, &included, look.command, prerequisites)
}

/// The files that a text lists, the header among them: no path ends in a line feed.
fn read_listed(alloc: Global, seed: Seed, text: &[u8]) -> Result<Prerequisites, EngineError>
    ensures listed { IfOk result (AreListed text.now) }
    ensures refused { IfErr result (λ e. IsAborted e ⊎ IsListRefused text.now e) }
    ensures no_device { IsErrOf result EngineError.Device → ⊥ }
{
    Ok(read_depfile_without(alloc, seed, Header::At(b"\n"), text)?)
}

/// The files that a dependency file lists, by the paths that they have here.
fn read_listed_at(
    alloc: Global,
    seed: Seed,
    options: RecordOptions<'_>,
    text: &[u8],
) -> Result<Prerequisites, EngineError>
    ensures listed { IfOk result (AreListed (placed_by options.entry text.now)) }
    ensures refused { IfErr result (λ e. IsAborted e ⊎ IsListRefused (placed_by options.entry text.now) e) }
    ensures no_device { IsErrOf result EngineError.Device → ⊥ }
{
    match options.elsewhere {
        Some(place) => read_listed(alloc, seed, &placed_text(alloc, place.directory, text)?),
        None => read_listed(alloc, seed, text),
    }
}

/// The paths of all files that a dependency file lists.
fn path_set<'a>(
    alloc: Global,
    seed: Seed,
    prerequisites: &'a Prerequisites,
) -> Result<IndexSet<&'a [u8], Seed>, AllocError>
    ensures { IfOk result (λ set. (path : List ℕ) → is_among set path ≡ is_listed prerequisites.now path) }
{
    let mut listed = IndexSet::with_hasher(alloc, seed);
    for place in 0..prerequisites.len() {
        let Some((path, _)) = prerequisites.get(place) else {
            unreachable!();
        };
        listed.insert(path)?;
    }
    Ok(listed)
}

/// Whether the file at a path is a program, and no script, which may bring words of its own.
fn is_program<T: Tree>(alloc: Global, tree: &mut T, tool: &[u8]) -> Result<bool, EngineError>
    ensures reads { Reads T.Tree tree.old tree.new (IsErrOf result EngineError.Device) }
    ensures passed { OnOk result (T.failures tree.new ≡ T.failures tree.old) }
    ensures uncounted { IsErrOf result EngineError.OutOfMemory → T.failures tree.new ≡ T.failures tree.old }
    ensures given { IfErr result IsAborted }
    ensures found { T.is_honest → IfOk result (λ is. is ≡ is_program (content (T.files tree.old) tool.now)) }
{
    let mut front = [0; 4];
    match tree.read_at(alloc, tool, 0, &mut front)? {
        Some(count) => Ok(&front[..count] == b"\x7FELF".as_slice()),
        None => Ok(false),
    }
}

/// Looks at the tools that make an object.
fn look_at_tools<T: Tree>(
    alloc: Global,
    tree: &mut T,
    tools: &[String],
) -> Result<Option<Hidden>, EngineError>
    ensures reads { Reads T.Tree tree.old tree.new (IsErrOf result EngineError.Device) }
    ensures passed { OnOk result (T.failures tree.new ≡ T.failures tree.old) }
    ensures uncounted { IsErrOf result EngineError.OutOfMemory → T.failures tree.new ≡ T.failures tree.old }
    ensures found { T.is_honest → IfOk result (AreTools (T.files tree.old) (map (λ tool. string_bytes tool) tools.now)) }
    ensures refused { T.is_honest → IfErr result (λ e. IsAborted e ⊎ IsBadTool (T.files tree.old) (map (λ tool. string_bytes tool) tools.now) e) }
{
    for place in 0..tools.len() {
        let tool = tools[place].as_bytes();
        if !path_is_legal(tool) {
            return Err(EngineError::BadPath(0));
        }
        if !is_program(alloc, tree, tool)? {
            return Ok(Some(Hidden::Input(Path::new(alloc, tool)?, 1)));
        }
    }
    Ok(None)
}

/// What may matter to an object by the files that its dependency file lists, if anything.
fn look_at_files<T: Tree>(
    alloc: Global,
    tree: &mut T,
    dialect: Dialect,
    header: Header<'_>,
    options: RecordOptions<'_>,
    alias: &[u8],
    depfile: &[u8],
    command: &[u8],
) -> Result<Option<Hidden>, EngineError>
    ensures reads { Reads T.Tree tree.old tree.new (IsErrOf result EngineError.Device) }
    ensures passed { OnOk result (T.failures tree.new ≡ T.failures tree.old) }
    ensures uncounted { IsErrOf result EngineError.OutOfMemory → T.failures tree.new ≡ T.failures tree.old }
    ensures looked { T.is_honest → IfOk result (AreFilesLooked dialect header.entry options.entry alias.now (T.files tree.old) depfile.now command.now) }
    ensures refused { T.is_honest → IfErr result (λ e. IsAborted e ⊎ IsUnreadFile dialect header.entry options.entry alias.now (T.files tree.old) depfile.now command.now e) }
{
    let text = read_given(alloc, tree, depfile)?;
    let prerequisites = read_listed_at(alloc, Seed::new(tree.seed()), options, &text)?;
    let config = read_old(alloc, tree)?;
    let listed = path_set(alloc, Seed::new(tree.seed()), &prerequisites)?;
    let look = Looking {
        dialect,
        header,
        alias,
        config,
        listed,
        command,
    };
    look_for_cause(alloc, tree, &look, &prerequisites)
}

/// What may matter to an object beside the names that its files mention, if anything: by its command, by the tools that make it, and by
/// the dependency file that the compiler wrote.
pub(crate) fn find_cause<T: Tree>(
    alloc: Global,
    tree: &mut T,
    dialect: Dialect,
    header: Header<'_>,
    options: RecordOptions<'_>,
    strict: &StrictPaths,
    depfile: &[u8],
    command: &[u8],
) -> Result<Option<Hidden>, EngineError>
    ensures reads { Reads T.Tree tree.old tree.new (IsErrOf result EngineError.Device) }
    ensures passed { OnOk result (T.failures tree.new ≡ T.failures tree.old) }
    ensures uncounted { IsErrOf result EngineError.OutOfMemory → T.failures tree.new ≡ T.failures tree.old }
    ensures looked { T.is_honest → IfOk result (IsLooked dialect header.entry options.entry strict.now (T.files tree.old) depfile.now command.now) }
    ensures refused { T.is_honest → IfErr result (λ e. IsAborted e ⊎ IsUnread dialect header.entry options.entry strict.now (T.files tree.old) depfile.now command.now e) }
{
    if let Some(word) = unknown_argument(alloc, command)? {
        return Ok(Some(Hidden::Argument(word)));
    }
    if let Some(hidden) = look_at_tools(alloc, tree, &strict.tools)? {
        return Ok(Some(hidden));
    }
    let alias = strict.alias.as_bytes();
    look_at_files(
        alloc, tree, dialect, header, options, alias, depfile, command,
    )
}
