//! The words and the lines of a command file, by which it is written and read alike.
ghost use Rattle.std.specs.Prelude.{◌≡◌};
ghost use Rattle.ks_fixdep.specs.CommandLayout.{deps_begin, deps_end, target_line};
ghost use Rattle.ks_fixdep.specs.CommandWriting.{joined};

/// What the line of the command begins with, before the target.
pub(super) const SAVED_MARK: &[u8] = b"savedcmd_";
/// What the line of the source begins with, before the target.
pub(super) const SOURCE_MARK: &[u8] = b"source_";
/// What stands between the target and the command or the source.
pub(super) const ASSIGNMENT: &[u8] = b" := ";
/// What the line of a listed file begins with.
pub(super) const FILE_MARK: &[u8] = b"  ";
/// What the line of a listed file ends with.
pub(super) const FILE_END: &[u8] = b" \\";
/// What the line of a name begins with.
pub(super) const NAME_MARK: &[u8] = b"    $(wildcard include/config/";
/// What the line of a name ends with.
pub(super) const NAME_END: &[u8] = b") \\";
/// What the line of the generation begins with.
pub(super) const GENERATION_MARK: &[u8] = b"#generation ";

/// The line that those of the dependencies follow.
pub(super) fn deps_begin(target: &[u8]) -> [&[u8]; 3]
    ensures { joined result ≡ deps_begin target.now }
{
    [b"deps_", target, b" := \\"]
}

/// The line that makes the target depend on what is listed.
pub(super) fn target_line(target: &[u8]) -> [&[u8]; 4]
    ensures { joined result ≡ target_line target.now }
{
    [target, b": $(deps_", target, b")"]
}

/// The last line but for that of the generation.
pub(super) fn deps_end(target: &[u8]) -> [&[u8]; 3]
    ensures { joined result ≡ deps_end target.now }
{
    [b"$(deps_", target, b"):"]
}
