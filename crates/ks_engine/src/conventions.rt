//! What is particular to the project that a tree belongs to, and to the build. The makefiles are of one kind, but not the header of
//! all symbols, nor the words by which sources ask for one, nor what else than the sources may ask.
ghost use Rattle.std.specs.Prelude.{◌≡◌};
ghost use Rattle.ks_engine.specs.Recorded.{usual_with};

use ks_fixdep::Header;
use ks_symbols::Dialect;

/// A compiler that ran in another directory than that of the tree.
#[derive(Clone, Copy, Debug)]
pub struct Elsewhere<'a> {
    /// That directory, from the root: what the compiler names is below it, unless it is named from the root as well.
    pub directory: &'a [u8],
    /// The tree by the name that the build has for it there.
    pub tree: &'a [u8],
}

/// How a build asks for a record.
#[derive(Clone, Copy, Debug)]
pub struct RecordOptions<'a> {
    /// Whether lines follow for a make that looks for the command under `cmd_`, and in other projects than Linux for stamps of its own.
    pub adds_own_lines: bool,
    /// Whether an object has generation 0 where there is no auto.conf yet, as a program of the build itself.
    pub before_sync: bool,
    /// Where the compiler ran, if not in the directory of the tree.
    pub elsewhere: Option<Elsewhere<'a>>,
}

/// Nothing beside the record.
pub(crate) const NO_OPTIONS: RecordOptions<'static> = RecordOptions {
    adds_own_lines: false,
    before_sync: false,
    elsewhere: None,
};

/// How the sources of an object are read, and what is written of them.
#[derive(Clone, Copy, Debug)]
pub struct Conventions<'a> {
    /// The prerequisite that is left out.
    pub header: Header<'a>,
    /// Whose words name symbols.
    pub dialect: Dialect,
    /// Whether the words of the command name symbols too, like those of a source that comes after all prerequisites.
    pub scans_command: bool,
    /// How the build asks for it.
    pub options: RecordOptions<'a>,
}

impl<'a> Conventions<'a> {
    /// Those of a record: the usual header of the project is left out, and the words of the command aren't looked at.
    pub(crate) fn of_record(dialect: Dialect, options: RecordOptions<'a>) -> Conventions<'a>
        ensures { result ≡ usual_with options.entry dialect }
    {
        Conventions {
            header: Header::usual(dialect),
            dialect,
            scans_command: false,
            options,
        }
    }
}
