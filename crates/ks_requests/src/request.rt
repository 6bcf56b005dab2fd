//! What the program can be asked to do.
use crate::report_style::ReportStyle;
use ks_engine::{BackdateScope, ConfigForm};

/// The objects that a question is about: those among the arguments, and after them those of a file, one a line.
#[derive(Debug, Drop)]
pub struct Targets {
    pub args: Vec<String>,
    pub from: Option<String>,
}

/// The two files of a configuration, by what they are.
#[derive(Debug, Drop)]
pub struct ConfigPaths {
    pub form: ConfigForm,
    /// A Kconfig, or the auto.conf that conf wrote.
    pub first: String,
    /// A `.config`, or the header that conf wrote.
    pub second: String,
}

/// What somebody kept of the last completed synchronisation.
#[derive(Debug, Drop)]
pub struct KeptPaths {
    pub auto: String,
    pub header: String,
}

/// By what a strict record is refused, beside the files that the compiler lists.
#[derive(Debug, Drop)]
pub struct StrictPaths {
    /// Another path that the header may have.
    pub alias: String,
    /// The compiler, and what runs it.
    pub tools: Vec<String>,
}

/// A compiler that ran in another directory than that of the tree.
#[derive(Debug, Drop)]
pub struct ElsewherePaths {
    /// That directory, from the root.
    pub directory: String,
    /// The tree by the name that the build has for it there.
    pub tree: String,
}

/// How a build asks for a record.
#[derive(Debug, Drop)]
pub struct RecordWords {
    /// Whether lines follow for a make that looks for the command under `cmd_`, and in other projects than Linux for stamps of its own.
    pub adds_own_lines: bool,
    /// Whether an object has generation 0 where there is no auto.conf yet.
    pub before_sync: bool,
    pub elsewhere: Option<ElsewherePaths>,
}

/// How the answers about objects are printed.
#[derive(Clone, Copy, Debug, PartialEq, Eq)]
pub enum OutputFormat {
    /// Lines for people.
    Text,
    /// A line of JSON for each object, for scripts.
    Json,
}

/// Which stamps a synchronisation leaves.
#[derive(Clone, Copy, Debug, PartialEq, Eq)]
pub enum Stamps {
    /// Those of the symbols that were ever touched.
    Touched,
    /// One of each symbol that a Kconfig declares: an empty one where there would be none.
    Declared,
}

/// What is left of a dependency file that was recorded.
#[derive(Clone, Copy, Debug, PartialEq, Eq)]
pub enum DepfileAfter {
    /// The file as it was.
    Kept,
    /// Nothing: once the object is recorded the program removes the file.
    Removed,
}

/// One command of the program, with its arguments in order.
#[derive(Debug, Drop)]
pub enum Request {
    /// Bring the tree to a configuration.
    Sync {
        config: ConfigPaths,
        stamps: Stamps,
    },
    /// Put back what was kept of the last completed synchronisation, where another tool was at work. One file lists the names that
    /// have a stamp, the other one the objects.
    Repair {
        stamps: String,
        targets: String,
        kept: Option<KeptPaths>,
    },
    /// What a synchronisation would do, over an old auto.conf or as the first one.
    Preview {
        config: ConfigPaths,
        old: Option<String>,
    },
    /// What a synchronisation would touch, with the old and the new texts.
    Diff {
        config: ConfigPaths,
        report_style: ReportStyle,
    },
    /// Whether the tree is that of its last completed synchronisation, and whether that was one of a configuration, if one is named.
    Status {
        config: Option<ConfigPaths>,
    },
    /// The command file of an object, without a generation.
    Fixdep {
        depfile: String,
        target: String,
        command: String,
    },
    /// Write the command file of an object that was just compiled.
    Record {
        depfile: String,
        target: String,
        command: String,
        after: DepfileAfter,
        options: RecordWords,
    },
    /// Record an object for a build that goes by its dependency file, which gets the stamps of the names that were found in the
    /// place of the header. The header is named by the end of its path, or it is the usual one. Where the record is strict, an object is
    /// refused that may depend on more than names.
    Depfile {
        header: Option<String>,
        strict: Option<StrictPaths>,
        elsewhere: Option<ElsewherePaths>,
        depfile: String,
        target: String,
        command: String,
    },
    /// Which of these objects are stale.
    Stale {
        targets: Targets,
        format: OutputFormat,
    },
    /// Why these objects are stale.
    Why {
        targets: Targets,
        format: OutputFormat,
    },
    /// Which of these objects would be stale after a synchronisation.
    Impact {
        config: ConfigPaths,
        targets: Targets,
        format: OutputFormat,
    },
    /// Which of these objects are stale, and those of them are aged.
    Backdate {
        which: BackdateScope,
        targets: Targets,
    },
    /// Mark those of these objects that are stale, so that make compiles them.
    Mark {
        which: BackdateScope,
        targets: Targets,
    },
    /// Whether an object was built by another command, or is stale.
    Outdated {
        target: String,
        command: String,
    },
    /// The commands of a script, in one run.
    Batch {
        script: String,
    },
    /// Which of these objects name one of these symbols.
    Users {
        symbols: Vec<String>,
        targets: Targets,
    },
    /// What each symbol costs: how many of these objects name it. Of the most expensive so many, or all.
    Cost {
        top: Option<u64>,
        targets: Targets,
    },
}
