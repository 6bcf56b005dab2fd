//! Dependency files, which a compiler writes with -MD: the files that an object was made from, in one rule or
//! several. Which file is scanned for names and which is listed for make follows from its place alone. Paths
//! that a makefile would read as something else are refused, so that no command file says what was not meant.
ghost use Rattle.std.specs.Prelude.{◌≡◌, ◌≤◌, ◌<◌, ◌+◌, ◌-◌, ◌^◌, ◌&&◌, ◌++◌, take, ◌∷◌, [], List, ℕ, IfOk, IfErr, IfSome, IsErrOf, OnOk, IsTrue, None, nat_eq, length, slice_get};
ghost use Rattle.std.specs.Iterator.{item_count};
ghost use Rattle.std.specs.List.{ends_with, list_all};
ghost use Rattle.std.specs.Map.Iter.{TakesFirst};
ghost use Rattle.std.specs.Option.{option_map};
ghost use Rattle.ks_symbols.specs.Lines.{max_bytes};
ghost use Rattle.ks_symbols.specs.Names.{is_path, header_path};
ghost use Rattle.ks_symbols.specs.Refusals.{IsRefusal, RefusedBy};
ghost use Rattle.ks_fixdep.specs.Tokens.{tokens};
ghost use Rattle.ks_fixdep.specs.DependencyFile.{is_target_token, is_directory, ends_in_path, is_header, usual_header, added, paths_of, borrowed_pair, prerequisites, prerequisites_without, token_refusal, dependency_refusal, refusal_without};
ghost use Rattle.ks_fixdep.specs.Progress.{after_target};

use crate::dep_error::DepError;
use crate::tokens::Tokens;
use indexmap::IndexMap;
use indexmap::map::Iter;
use ks_symbols::{Dialect, MAX_BYTES, Seed, path_is_legal, path_text};
use std::alloc::{AllocError, Global};
use std::marker::Model;

const HEADER: &[u8] = b"include/generated/autoconf.h";

/// The header of all symbols, which no object is said to be made of: what it defines is found by the names alone.
#[derive(Clone, Copy, Debug)]
pub enum Header<'a> {
    /// Whatever ends in `include/generated/autoconf.h`.
    Usual,
    /// What is, or whose end after a slash is, `include/autoconf.h`.
    BusyBox,
    /// The path that is, or whose end after a slash is, this one.
    At(&'a [u8]),
}

impl<'a> Header<'a> {
    /// The one that the sources of a dialect include.
    pub fn usual(dialect: Dialect) -> Header<'a>
        ensures { result ≡ usual_header dialect }
    {
        match dialect {
            Dialect::Linux | Dialect::UBoot | Dialect::Coreboot => Header::Usual,
            Dialect::BusyBox => Header::BusyBox,
        }
    }
}

/// What becomes of a prerequisite: the source is scanned and named as such, a scanned one is only scanned, a
/// listed one is also listed.
#[derive(Clone, Copy, Debug, PartialEq, Eq)]
pub enum Role {
    Source,
    Scanned,
    Listed,
}

/// The prerequisites of an object with their roles, in the order of their first places. There is one at least.
#[derive(Drop)]
pub struct Prerequisites {
    by_path: IndexMap<String, Role, Seed>,
}

impl Model for Prerequisites {
    ghost use Rattle.std.specs.Prelude.{List, ℕ};
    ghost use Rattle.ks_fixdep.specs.declared.dependency_file.Role.{Role};

    ghost Value = { List (List ℕ × Role) };

    ghost use Rattle.ks_fixdep.specs.DependencyFile.{ArePrerequisites, paths_of};

    ghost view = { λ p. paths_of p.by_path.entries };

    ghost invariant = { λ p. ArePrerequisites (paths_of p.by_path.entries) };
}

impl Prerequisites {
    /// How many there are.
    pub fn len(&self) -> usize
        ensures len { result ≡ length self.now }
        ensures some { 0 < result }
    {
        self.by_path.len()
    }

    /// The path and the role of the prerequisite at a place, counted from 0.
    pub fn get(&self, place: usize) -> Option<(&[u8], Role)>
        ensures value { option_map (λ p. (p.0.now, p.1)) result ≡ slice_get self.now place }
        ensures legal { IfSome result (λ p. IsTrue (is_path p.0.now)) }
    {
        match self.by_path.get_index(place) {
            Some((path, role)) => Some((path.as_bytes(), *role)),
            None => None,
        }
    }

    /// Their paths and roles, in their order.
    pub(crate) fn entries(&self) -> BorrowedPrerequisites<'_>
        ensures value { result ≡ self.now }
        ensures legal { IsTrue (list_all (λ p. is_path p.0) result) }
    {
        BorrowedPrerequisites {
            inner: self.by_path.iter(),
        }
    }
}

/// Paths and their roles, borrowed one by one.
#[derive(Drop)]
pub struct BorrowedPrerequisites<'a> {
    inner: Iter<'a, String, Role>,
}

impl<'a> Model for BorrowedPrerequisites<'a> {
    ghost use Rattle.std.specs.Prelude.{List, ℕ};
    ghost use Rattle.ks_fixdep.specs.declared.dependency_file.Role.{Role};

    ghost Value = { List (List ℕ × Role) };

    ghost use Rattle.ks_fixdep.specs.DependencyFile.{paths_of};

    ghost view = { λ p. paths_of p.inner };
}

impl<'a> Iterator for BorrowedPrerequisites<'a> {
    type Item = (&'a [u8], &'a Role);

    ghost next_gives = { TakesFirst borrowed_pair };

    ghost remaining = { item_count (λ rest. rest) };

    fn next(&mut self) -> Option<(&'a [u8], &'a Role)> {
        match self.inner.next() {
            Some((path, role)) => Some((path.as_bytes(), role)),
            None => None,
        }
    }
}

/// Whether a token is a target.
fn names_target(token: &[u8]) -> bool
    ensures { result ≡ is_target_token token.now }
{
    token.ends_with(b":")
}

/// Whether a token ends in the usual path of the header. Most tokens differ in their last four bytes, which are compared at once.
#[tactic(auto, using(crate::proofs::HeaderLemmas::no_header), unfolding(ks_symbols::specs::Names::header_path))]
fn ends_as_usual(token: &[u8]) -> bool
    ensures { result ≡ ends_with nat_eq token.now header_path }
{
    token.ends_with(b"nf.h") && token.ends_with(HEADER)
}

/// Whether what stands before a path leaves it a path of its own.
fn names_directory(prefix: &[u8]) -> bool
    ensures { result ≡ is_directory prefix.now }
{
    prefix.is_empty() || prefix.ends_with(b"/")
}

/// Whether a token is a path, or ends in it after a slash.
fn ends_in_path(token: &[u8], path: &[u8]) -> bool
    ensures { result ≡ ends_in_path token.now path.now }
{
    match token.strip_suffix(path) {
        Some(prefix) => names_directory(prefix),
        None => false,
    }
}

/// Whether a token is the header's.
fn names_header(header: Header<'_>, token: &[u8]) -> bool
    ensures { result ≡ is_header header.entry token.now }
{
    match header {
        Header::Usual => ends_as_usual(token),
        Header::BusyBox => ends_in_path(token, b"include/autoconf.h"),
        Header::At(path) => ends_in_path(token, path),
    }
}

/// The role of the next kept token once a target was read, by what it was before.
fn after_target(next: Role) -> Role
    ensures { result ≡ after_target next }
{
    match next {
        Role::Source => Role::Source,
        Role::Scanned | Role::Listed => Role::Scanned,
    }
}

/// Notes a prerequisite, unless its path was noted before. Few were, so the path is copied and then hashed once.
fn note(
    alloc: Global,
    by_path: &mut IndexMap<String, Role, Seed>,
    path: &str,
    role: Role,
) -> Result<(), AllocError>
    ensures { OnOk result (paths_of by_path.new.entries ≡ added (paths_of by_path.old.entries) (path.now, role)) }
{
    let owned = String::from_str(alloc, path)?;
    by_path.entry(owned)?.or_insert(role);
    Ok(())
}

/// What is known of the tokens so far. Until a token is kept, the next one is the source.
#[derive(Drop)]
struct Progress {
    alloc: Global,
    number: u64,
    has_target: bool,
    next: Role,
    by_path: IndexMap<String, Role, Seed>,
}

impl Progress {
    ghost use Rattle.ks_fixdep.specs.Progress.{Stands};
    ghost use Rattle.ks_fixdep.specs.DependencyFile.{fault_after};
    ghost use Rattle.ks_fixdep.specs.declared.dependency_file.Header.{Header};

    /// No token was read yet.
    fn new(alloc: Global, seed: Seed) -> Progress
        ensures { (header : Header) → Stands header result [] }
    {
        Progress {
            alloc,
            number: 0,
            has_target: false,
            next: Role::Source,
            by_path: IndexMap::with_hasher(alloc, seed),
        }
    }

    /// Takes one more token.
    fn take(&mut self, header: Header<'_>, token: &[u8]) -> Result<(), DepError>
        requires { self.old.number < 2 ^ 63 }
        ensures stands { OnOk result ((seen : List (List ℕ)) → Stands header.entry self.old seen → Stands header.entry self.new (seen ++ token.now ∷ [])) }
        ensures fits { OnOk result ((seen : List (List ℕ)) → Stands header.entry self.old seen → fault_after header.entry seen token.now ≡ None) }
        ensures refusal { IfErr result (λ e. (seen : List (List ℕ)) → Stands header.entry self.old seen
            → IsRefusal DepError.OutOfMemory e (fault_after header.entry seen token.now)) }
        ensures memory { IsErrOf result DepError.OutOfMemory → (seen : List (List ℕ)) → Stands header.entry self.old seen → fault_after header.entry seen token.now ≡ None }
    {
        self.number += 1;
        if names_target(token) {
            self.has_target = true;
            self.next = after_target(self.next);
            return Ok(());
        }
        if !self.has_target {
            return Err(DepError::NoTarget);
        }
        if names_header(header, token) {
            return Ok(());
        }
        if !path_is_legal(token) {
            return Err(DepError::BadPath(self.number));
        }
        note(self.alloc, &mut self.by_path, path_text(token), self.next)?;
        self.next = Role::Listed;
        Ok(())
    }
}

/// The prerequisites of a dependency file of bounded length.
fn prerequisites_of(
    alloc: Global,
    seed: Seed,
    header: Header<'_>,
    text: &[u8],
) -> Result<Prerequisites, DepError>
    requires { length text.now ≤ max_bytes }
    ensures value { IfOk result (λ p. p ≡ prerequisites_without header.entry text.now) }
    ensures refusal { RefusedBy DepError.OutOfMemory result (token_refusal header.entry (tokens text.now)) }
{
    let mut progress = Progress::new(alloc, seed);
    for token in Tokens::new(text) {
        progress.take(header, token)?;
    }
    if progress.next == Role::Source {
        return Err(DepError::NoTarget);
    }
    Ok(Prerequisites {
        by_path: progress.by_path,
    })
}

/// The prerequisites of a dependency file. Of several faults the first token that is at fault counts; that there
/// is no prerequisite is reported at the end.
pub fn read_depfile(alloc: Global, text: &[u8]) -> Result<Prerequisites, DepError>
    ensures value { IfOk result (λ p. p ≡ prerequisites text.now) }
    ensures refusal { RefusedBy DepError.OutOfMemory result (dependency_refusal text.now) }
{
    read_depfile_without(alloc, Seed::new(0), Header::Usual, text)
}

/// The same, with paths that are sought by a seed, and where another header is that of all symbols.
#[tactic(auto, unfolding(crate::specs::DependencyFile::refusal_without))]
pub fn read_depfile_without(
    alloc: Global,
    seed: Seed,
    header: Header<'_>,
    text: &[u8],
) -> Result<Prerequisites, DepError>
    ensures value { IfOk result (λ p. p ≡ prerequisites_without header.entry text.now) }
    ensures refusal { RefusedBy DepError.OutOfMemory result (refusal_without header.entry text.now) }
    ensures memory { IsErrOf result DepError.OutOfMemory → length text.now ≤ max_bytes }
{
    if text.len() > MAX_BYTES {
        return Err(DepError::TooLarge);
    }
    prerequisites_of(alloc, seed, header, text)
}
