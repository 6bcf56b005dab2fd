//! What each command is for and which arguments it takes: the table from which the command line and its help are made.

/// What the program is for.
pub(crate) const ABOUT: &str =
    "Which objects of a kernel build are stale after a change of .config";

/// How the program is called.
pub(crate) const USAGE: &str =
    "confstamp [-C DIR]... [--begin] [--dialect NAME] [--wait SECONDS] <COMMAND>";

/// What holds for all commands.
pub(crate) const AFTER_HELP: &str = "\
Paths are relative to the current directory, or to DIR with -C DIR in front of the command.
--begin lets sync number from 1 again where files have numbers and auto.conf has no generation.
--dialect says whose macros and Kconfig are read: linux (the default), u-boot, busybox or coreboot.
--wait tries again for SECONDS seconds while another confstamp is at work in the directory.
An argument that begins with - has to stand after --.

Exit status:
  0    done, and nothing is stale
  1    an object is stale, or was built by another command; with status, diff --exit-code or --quiet, something differs
  2    an error, or the arguments are wrong
  65   numbers would be lost, so nothing was done
  75   another confstamp is at work in the directory, so nothing was done
  141  nobody reads the output any more; all else is done

An error has a number, a name and often a place; confstamp explain NUMBER says what to do. By what they are about:
  Kconfig       1 NotBare, 2 BadName, 3 ModuleName, 4 NoType, 5 TypeClash, 6 BadTitle
  .config       7 NotAConfigLine, 8 BadValue
  any file      9 TooLarge, 40 MissingFile
  auto.conf     11 BadAuto, 41 NeverSynced, 42 GenerationFull
  conf's files  12 BadHeading, 13 NotAnEntry, 14 ModuleSymbol, 15 Unexplained, 16 Undefined, 17 Undeclared, 18 Twice
  DEPFILE       20 NoTarget, 21 BadPath; token 0 is an argument of the command line
  COMMAND       22 BadCommand
  command file  23 BadCommandFile
  --strict      24 HiddenInput, 25 ForeignLine, 26 OtherHeader, 27 Precompiled, 28 MissingLine, 29 UnknownArgument
  stamp         31 BadStamp
  SCRIPT        50 BadScript
  the system    10 OutOfMemory, 30 Device, 51 Output";

/// How often an argument may stand there, and after what.
#[derive(Clone, Copy)]
pub(crate) enum NumArgs {
    Once,
    AtMostOnce,
    AnyNumber,
    /// After the option of this name, at most once.
    Following(&'static str),
    /// It is an option itself, of its own name, and takes no value.
    Flag,
    AtLeastOnce,
    /// After the option of this name, once.
    OnceAfter(&'static str),
    /// A number after the option of this name, at most once.
    NumberAfter(&'static str),
    /// Any number of them after the option of this name.
    AnyAfter(&'static str),
}

/// An argument of a command.
#[derive(Clone, Copy)]
pub(crate) struct ArgUsage {
    pub(crate) name: &'static str,
    pub(crate) num_args: NumArgs,
    pub(crate) help: &'static str,
}

/// A command. Its notes say what it prints, and give an example.
#[derive(Clone, Copy)]
pub(crate) struct Usage {
    pub(crate) name: &'static str,
    pub(crate) about: &'static str,
    pub(crate) args: &'static [ArgUsage],
    /// How it is called, where `clap` would not say so.
    pub(crate) override_usage: Option<&'static str>,
    /// Whether its help is printed where it has no argument.
    pub(crate) needs_args: bool,
    pub(crate) after_help: &'static str,
}

// The arguments that several commands take. One of a single command stands in its row of the table.

const KCONFIG: ArgUsage = ArgUsage {
    name: "KCONFIG",
    num_args: NumArgs::Once,
    help: "The Kconfig file: the title, and each symbol with its kind",
};

const DOTCONFIG: ArgUsage = ArgUsage {
    name: "DOTCONFIG",
    num_args: NumArgs::Once,
    help: "The .config file: what the symbols are set to",
};

const WRITTEN: ArgUsage = ArgUsage {
    name: "written",
    num_args: NumArgs::Flag,
    help: "Take the auto.conf and the header that conf wrote, in place of KCONFIG and DOTCONFIG",
};

const DEPFILE: ArgUsage = ArgUsage {
    name: "DEPFILE",
    num_args: NumArgs::Once,
    help: "The dependency file that the compiler wrote with -MD",
};

const TARGET: ArgUsage = ArgUsage {
    name: "TARGET",
    num_args: NumArgs::Once,
    help: "The object; the command file of d/x.o is d/.x.o.cmd",
};

const TARGETS: ArgUsage = ArgUsage {
    name: "TARGET",
    num_args: NumArgs::AnyNumber,
    help: "The objects; the command file of d/x.o is d/.x.o.cmd",
};

const FROM: ArgUsage = ArgUsage {
    name: "FILE",
    num_args: NumArgs::Following("from"),
    help: "A file with further objects, one a line; they come after the others, and empty lines are skipped",
};

const IN: ArgUsage = ArgUsage {
    name: "DIR",
    num_args: NumArgs::Following("in"),
    help: "Where the compiler ran, from the root: what it named is below DIR",
};

const TREE: ArgUsage = ArgUsage {
    name: "TREE",
    num_args: NumArgs::Following("tree"),
    help: "With --in: this directory, by the name that the build has for it there; the stamps are named so",
};

const JSON: ArgUsage = ArgUsage {
    name: "json",
    num_args: NumArgs::Flag,
    help: "Print a line of JSON for each object: its target, its verdict and the causes",
};

const UNRECORDED: ArgUsage = ArgUsage {
    name: "unrecorded",
    num_args: NumArgs::Flag,
    help: "Backdate objects without a command file or without a number too",
};

const UNNUMBERED: ArgUsage = ArgUsage {
    name: "unrecorded",
    num_args: NumArgs::Flag,
    help: "Mark objects too that are refused, or whose command file has no number",
};

const COMMAND: ArgUsage = ArgUsage {
    name: "COMMAND",
    num_args: NumArgs::Once,
    help: "The command line that builds the object, as one argument",
};

/// The commands that write a configuration or a record, or show what they would write.
pub(crate) const WRITING_USAGES: &[Usage] = &[
    Usage {
        name: "sync",
        about: "Write auto.conf, the header and the stamps of all symbols that changed",
        args: &[
            ArgUsage {
                name: "stamps",
                num_args: NumArgs::Flag,
                help: "Make the missing stamp of each symbol of KCONFIG too, empty, so that a build can list them all",
            },
            WRITTEN,
            KCONFIG,
            DOTCONFIG,
        ],
        override_usage: Some("confstamp sync [--stamps | --written] <KCONFIG> <DOTCONFIG>"),
        needs_args: true,
        after_help: "\
Prints the generation, touch NAME for each stamp, and how many lines name an unknown symbol.

Example: confstamp sync Kconfig .config",
    },
    Usage {
        name: "preview",
        about: "Show what sync would touch, and the auto.conf that it would write",
        args: &[
            WRITTEN,
            KCONFIG,
            DOTCONFIG,
            ArgUsage {
                name: "OLDAUTO",
                num_args: NumArgs::AtMostOnce,
                help: "The auto.conf to start from; without it, as if nothing had been synchronised yet",
            },
        ],
        override_usage: Some("confstamp preview [--written] <KCONFIG> <DOTCONFIG> [OLDAUTO]"),
        needs_args: true,
        after_help: "\
Prints touch NAME for each stamp, then auto.conf. Writes no file.

Example: confstamp preview Kconfig .config include/config/auto.conf",
    },
    Usage {
        name: "diff",
        about: "Show what sync would touch, with the old and the new value of each symbol",
        args: &[
            ArgUsage {
                name: "exit-code",
                num_args: NumArgs::Flag,
                help: "End with status 1 where a symbol differs",
            },
            ArgUsage {
                name: "quiet",
                num_args: NumArgs::Flag,
                help: "Print nothing, and end with status 1 where a symbol differs",
            },
            WRITTEN,
            KCONFIG,
            DOTCONFIG,
        ],
        override_usage: Some(
            "confstamp diff [--exit-code] [--quiet] [--written] <KCONFIG> <DOTCONFIG>",
        ),
        needs_args: true,
        after_help: "\
Prints NAME OLD -> NEW for each, n where a symbol has no value, and both kinds where the values are alike.
To standard error goes unknown NAME for each line of DOTCONFIG that names no symbol of KCONFIG. Writes no file.

Example: confstamp diff --exit-code Kconfig .config",
    },
    Usage {
        name: "status",
        about: "Say whether the tree is as its last synchronisation left it, and of which configuration that was",
        args: &[
            WRITTEN,
            ArgUsage {
                name: "KCONFIG",
                num_args: NumArgs::AtMostOnce,
                help: "The Kconfig file; without it no configuration is looked at",
            },
            ArgUsage {
                name: "DOTCONFIG",
                num_args: NumArgs::AtMostOnce,
                help: "The .config file: what the symbols are set to",
            },
        ],
        override_usage: Some("confstamp status [--written] [KCONFIG DOTCONFIG]"),
        needs_args: false,
        after_help: "\
Prints the generation of auto.conf, whether the header defines what auto.conf says, and how many symbols sync would touch.
The status is 1 unless there is a generation, the header is the same and no symbol would be touched. Writes no file.

Example: confstamp status Kconfig .config",
    },
    Usage {
        name: "fixdep",
        about: "Show the command file of an object, from the compiler's dependency file",
        args: &[DEPFILE, TARGET, COMMAND],
        override_usage: None,
        needs_args: false,
        after_help: "\
Prints what record would write, but for its generation. Writes no file.

Example: confstamp fixdep x.d x.o 'cc -c x.c'",
    },
    Usage {
        name: "record",
        about: "Write the command file of an object that was just built",
        args: &[
            ArgUsage {
                name: "remove-depfile",
                num_args: NumArgs::Flag,
                help: "Remove DEPFILE once the object is recorded; refused, it stays",
            },
            ArgUsage {
                name: "cmd",
                num_args: NumArgs::Flag,
                help: "Add cmd_TARGET, as make looks for it before Linux 6.3; outside of Linux the project's own stamps too",
            },
            ArgUsage {
                name: "before-sync",
                num_args: NumArgs::Flag,
                help: "Where there is no auto.conf yet: record the object under generation 0",
            },
            IN,
            TREE,
            DEPFILE,
            TARGET,
            COMMAND,
        ],
        override_usage: Some(
            "confstamp record [--remove-depfile] [--cmd] [--before-sync] [--in DIR --tree TREE] <DEPFILE> <TARGET> <COMMAND>",
        ),
        needs_args: true,
        after_help: "\
Is run directly after the compiler. Prints the generation, and how many names were found.

Example: confstamp record x.d x.o 'cc -c x.c'",
    },
    Usage {
        name: "depfile",
        about: "Record an object, and put the stamps of its names into its dependency file, for ninja",
        args: &[
            ArgUsage {
                name: "SUFFIX",
                num_args: NumArgs::Following("header"),
                help: "The header of all symbols, by the end of its path; without it, include/generated/autoconf.h",
            },
            ArgUsage {
                name: "PATH",
                num_args: NumArgs::Following("strict"),
                help: "Refuse an object to which more than names may matter; PATH: how the compiler may name the header",
            },
            ArgUsage {
                name: "TOOL",
                num_args: NumArgs::AnyAfter("tools"),
                help: "With --strict: the compiler and what runs it, each of which must be a program and no script",
            },
            IN,
            TREE,
            DEPFILE,
            TARGET,
            COMMAND,
        ],
        override_usage: Some(
            "confstamp depfile [--header SUFFIX] [--strict PATH [--tools TOOL...]] [--in DIR --tree TREE] [--] <DEPFILE> <TARGET> <COMMAND>",
        ),
        needs_args: true,
        after_help: "\
Does what record does. Then it makes the missing stamps, empty, and leaves one rule in DEPFILE: without the header,
and with the stamp of each name. Refused, it leaves DEPFILE as it was. Prints what record prints.

Example: confstamp depfile x.d x.o 'cc -c x.c'",
    },
    Usage {
        name: "repair",
        about: "Put back auto.conf, the header and the lost stamps, where another tool wrote them",
        args: &[
            ArgUsage {
                name: "STAMPS",
                num_args: NumArgs::OnceAfter("stamps"),
                help: "A file with the names of all stamps, one a line",
            },
            ArgUsage {
                name: "TARGETS",
                num_args: NumArgs::OnceAfter("targets"),
                help: "A file with the objects that were recorded, one a line",
            },
            ArgUsage {
                name: "AUTO",
                num_args: NumArgs::AtMostOnce,
                help: "The auto.conf of the last completed sync, as it was kept",
            },
            ArgUsage {
                name: "HEADER",
                num_args: NumArgs::AtMostOnce,
                help: "The header of that sync; needed with AUTO",
            },
        ],
        override_usage: Some("confstamp repair --stamps FILE --targets FILE [AUTO HEADER]"),
        needs_args: true,
        after_help: "\
Each stamp that is empty, 0, faulty or missing counts as changed after that sync: put back GENERATION touched N. Where a
number is higher than AUTO's, or AUTO isn't given, no object keeps its number, and numbers begin again above all others:
began again GENERATION. Where there are none, nothing is written: no numbers.

Example: confstamp repair --stamps stamps --targets objects kept.auto kept.h",
    },
];

/// The commands about objects, the scripts and the errors, which come after them.
pub(crate) const ASKING_USAGES: &[Usage] = &[
    Usage {
        name: "stale",
        about: "Say which objects have to be built again because the configuration changed",
        args: &[TARGETS, FROM, JSON],
        override_usage: Some("confstamp stale [--json] [--from FILE] [TARGET]..."),
        needs_args: true,
        after_help: "\
Prints a line for each object: fresh, stale and why, or refused and why. A TARGET or --from is needed.

Example: confstamp stale x.o y.o",
    },
    Usage {
        name: "why",
        about: "Say which objects are stale, and list every symbol that changed since each was built",
        args: &[TARGETS, FROM, JSON],
        override_usage: Some("confstamp why [--json] [--from FILE] [TARGET]..."),
        needs_args: true,
        after_help: "\
Prints the lines of stale, and below an object NAME generation N PLACE for each symbol: when it changed, and where
it was found; or recorded as PATH, where that is another spelling of its path. A TARGET or --from is needed.

Example: confstamp why x.o y.o",
    },
    Usage {
        name: "impact",
        about: "Say which objects would have to be built again after a sync",
        args: &[WRITTEN, KCONFIG, DOTCONFIG, TARGETS, FROM, JSON],
        override_usage: Some(
            "confstamp impact [--json] [--from FILE] [--written] <KCONFIG> <DOTCONFIG> [TARGET]...",
        ),
        needs_args: true,
        after_help: "\
Prints what stale would print after sync KCONFIG DOTCONFIG, and N of M stale to standard error. Writes no file.

Example: confstamp impact Kconfig .config x.o y.o",
    },
    Usage {
        name: "backdate",
        about: "Say which objects are stale, and backdate them, so that make builds them whatever their times",
        args: &[UNRECORDED, TARGETS, FROM],
        override_usage: Some("confstamp backdate [--unrecorded] [--from FILE] [TARGET]..."),
        needs_args: true,
        after_help: "\
Prints the lines of stale. The file of an object that is stale by its record gets the first second of 1970 as its
time, and keeps its bytes. A TARGET or --from is needed.

Example: confstamp backdate --from objects",
    },
    Usage {
        name: "age",
        about: "The old name of backdate, which the next release takes no longer",
        args: &[UNRECORDED, TARGETS, FROM],
        override_usage: Some("confstamp age [--unrecorded] [--from FILE] [TARGET]..."),
        needs_args: true,
        after_help: "\
Does what backdate does. A TARGET or --from is needed.

Example: confstamp age --from objects",
    },
    Usage {
        name: "mark",
        about: "Mark the command files of stale objects, so that make compiles these whatever their times",
        args: &[UNNUMBERED, TARGETS, FROM],
        override_usage: Some("confstamp mark [--unrecorded] [--from FILE] [TARGET]..."),
        needs_args: true,
        after_help: "\
At the end of the command file of an object that is stale by its record the path of the stamp that says so becomes the saved
command, and make compiles what has another command. A command file that is refused is emptied. The next record has no mark.
Prints marked N. A TARGET or --from is needed.

Example: confstamp mark --from objects",
    },
    Usage {
        name: "batch",
        about: "Run the commands of a script, one after the other",
        args: &[ArgUsage {
            name: "SCRIPT",
            num_args: NumArgs::Once,
            help: "A file with a command sync, record or stale on each line; empty lines and those that begin with # are skipped",
        }],
        override_usage: None,
        needs_args: false,
        after_help: "\
Prints a line for each command of the script. A refused one does not end it.

Example: confstamp batch steps",
    },
    Usage {
        name: "outdated",
        about: "Say whether an object was built by another command, or is stale",
        args: &[TARGET, COMMAND],
        override_usage: None,
        needs_args: false,
        after_help: "\
Prints command-differs after the object, or what stale prints.

Example: confstamp outdated x.o 'cc -c x.c'",
    },
    Usage {
        name: "users",
        about: "Say which objects name a symbol, so that a change of it makes them stale",
        args: &[
            ArgUsage {
                name: "FILE",
                num_args: NumArgs::OnceAfter("from"),
                help: "A file with the objects, one a line; empty lines are skipped",
            },
            ArgUsage {
                name: "SYMBOL",
                num_args: NumArgs::AtLeastOnce,
                help: "The symbols, with or without CONFIG_ in front",
            },
        ],
        override_usage: Some("confstamp users --from FILE <SYMBOL>..."),
        needs_args: true,
        after_help: "\
Prints OBJECT SYMBOL PLACE for each, with the first file that mentions the symbol, and N of M objects to standard
error. Looks at each object once, and only at command files.

Example: confstamp users --from objects PRINTK",
    },
    Usage {
        name: "cost",
        about: "Say how many objects name each symbol, so that a change of it makes them stale",
        args: &[
            TARGETS,
            FROM,
            ArgUsage {
                name: "N",
                num_args: NumArgs::NumberAfter("top"),
                help: "Print only the N most expensive symbols",
            },
        ],
        override_usage: Some("confstamp cost [--from FILE] [--top N] [TARGET]..."),
        needs_args: true,
        after_help: "\
Prints SYMBOL N for each, the most expensive first. Looks at each object once, and only at command files. A TARGET or
--from is needed.

Example: confstamp cost --from objects --top 20",
    },
    Usage {
        name: "explain",
        about: "Say what an error means, with an example, and what to do",
        args: &[ArgUsage {
            name: "NUMBER",
            num_args: NumArgs::AtMostOnce,
            help: "The number of the error, or its name; without it, all errors are listed",
        }],
        override_usage: None,
        needs_args: false,
        after_help: "\
Reads and writes no file.

Example: confstamp explain 41",
    },
];
