//! The table of errors. A text is plain, but for backticks around what a user types or sees; it has no line feed, and no full stop at
//! its end. What to do has to fit into one line of standard error.
ghost use Rattle.std.specs.Prelude.{◌≡◌};
ghost use Rattle.ks_errors.specs.Errors.{seen, texts_of};

/// A row: the number, the name, the meaning, the example, and what to do. It is a tuple, since a definition can name a constant of tuples.
pub type Row = (
    &'static str,
    &'static str,
    &'static str,
    &'static str,
    &'static str,
);

/// What is known of an error.
#[derive(Clone, Copy)]
pub struct KnownError {
    /// As users see it, in decimal.
    pub number: &'static str,
    pub name: &'static str,
    pub meaning: &'static str,
    /// A smallest input or command that is refused so.
    pub example: &'static str,
    pub advice: &'static str,
}

impl KnownError {
    /// What a row says.
    pub fn of(row: &Row) -> KnownError
        ensures { seen result ≡ texts_of row.now }
    {
        let (number, name, meaning, example, advice) = *row;
        KnownError {
            number,
            name,
            meaning,
            example,
            advice,
        }
    }
}

pub const NOT_BARE: Row = (
    "1",
    "NotBare",
    "a line of Kconfig that is not supported: it is no title, entry or type, or a type that follows no entry",
    "`choice`",
    "leave the line out, or make a Kconfig without such lines: `bare-kconfig .config . > Kconfig.bare`",
);

pub const BAD_NAME: Row = (
    "2",
    "BadName",
    "the name of an entry isn't 1 to 128 letters, digits and `_`",
    "`config A-B`",
    "rename the symbol",
);

pub const MODULE_NAME: Row = (
    "3",
    "ModuleName",
    "the name of an entry ends in `_MODULE`, as the macro of another symbol with the value m",
    "`config A_MODULE`",
    "rename the symbol; in BusyBox write `--dialect busybox` in front of the command",
);

pub const NO_TYPE: Row = (
    "4",
    "NoType",
    "an entry has no type: the next line that isn't empty or a comment is another entry, `mainmenu`, or the end",
    "`config A`",
    "write `bool`, `tristate`, `string`, `int` or `hex` into the line after the entry",
);

pub const TYPE_CLASH: Row = (
    "5",
    "TypeClash",
    "a symbol is declared again with another type",
    "`config A`, `bool`, `config A`, `int`",
    "give both entries one type",
);

pub const BAD_TITLE: Row = (
    "6",
    "BadTitle",
    "a line whose first word is `mainmenu` is no title, is repeated, or stands after an entry",
    "`mainmenu`",
    "write `mainmenu \"TITLE\"` into the first line, or leave it out",
);

pub const NOT_A_CONFIG_LINE: Row = (
    "7",
    "NotAConfigLine",
    "a line of `.config` is no value, no \"is not set\", no comment and not empty",
    "`A=y`",
    "correct the line, as `CONFIG_A=y`; no blanks stand around `=`",
);

pub const BAD_VALUE: Row = (
    "8",
    "BadValue",
    "a value of `.config` is none of the symbol's type",
    "`CONFIG_A=m`",
    "correct the value or the type; leave out an empty int or hex; for raw strings write `--dialect u-boot` or `busybox` in front",
);

pub const TOO_LARGE: Row = (
    "9",
    "TooLarge",
    "an input, or an auto.conf or `.cmd` file to be written, has more than 67,108,864 bytes",
    "67,108,865 line feeds",
    "look at what made the file",
);

pub const OUT_OF_MEMORY: Row = (
    "10",
    "OutOfMemory",
    "memory was refused; this may replace any other answer",
    "depends on the machine",
    "free memory, and repeat the command",
);

pub const BAD_AUTO: Row = (
    "11",
    "BadAuto",
    "a line of auto.conf is damaged",
    "`x`",
    "restore `include/config` and all `.cmd` files from one copy; or remove them, synchronise, and build everything",
);

pub const BAD_HEADING: Row = (
    "12",
    "BadHeading",
    "conf's auto.conf (BusyBox: `.config`) and header don't begin with conf's first lines and one title",
    "`confstamp sync --written .config autoconf.h`",
    "pass conf's auto.conf first, and then its header",
);

pub const NOT_AN_ENTRY: Row = (
    "13",
    "NotAnEntry",
    "a line of conf's auto.conf (BusyBox: `.config`) gives no name a value, or doesn't end in a line feed",
    "`# CONFIG_A is not set`",
    "let conf write both files again",
);

pub const MODULE_SYMBOL: Row = (
    "14",
    "ModuleSymbol",
    "a name in conf's auto.conf (BusyBox: `.config`) ends in `_MODULE`, and its symbol is no bool `y`",
    "`CONFIG_A_MODULE=m`",
    "rename the symbol, or synchronise with a Kconfig and `.config`",
);

pub const UNEXPLAINED: Row = (
    "15",
    "Unexplained",
    "a line of conf's header defines something else than that line of conf's auto.conf (BusyBox: `.config`) says",
    "`CONFIG_A=y` beside `#define CONFIG_A 2`",
    "let conf write both files again",
);

pub const UNDEFINED: Row = (
    "16",
    "Undefined",
    "conf's header ends before this line of its auto.conf (BusyBox: `.config`)",
    "`CONFIG_A=y` beside no line",
    "let conf write both files again",
);

pub const UNDECLARED: Row = (
    "17",
    "Undeclared",
    "conf's auto.conf (BusyBox: `.config`) ends before this line of the header",
    "no line beside `#define CONFIG_A 1`",
    "let conf write both files again",
);

pub const TWICE: Row = (
    "18",
    "Twice",
    "an earlier line of conf's auto.conf (BusyBox: `.config`) gives the name of this one",
    "`CONFIG_A=y`, `CONFIG_A=y`",
    "let conf write both files again",
);

pub const NO_TARGET: Row = (
    "20",
    "NoTarget",
    "a dependency file has a prerequisite before any target, or none at all",
    "an empty `x.d`",
    "let the compiler write it with `-MD`",
);

pub const BAD_PATH: Row = (
    "21",
    "BadPath",
    "token N of the dependency file is no path; token 0: an argument isn't, or a target ends in `/`",
    "`x.o: x.c a$b.h`",
    "rename the file: a path has no spaces, `$`, `#`, `\\` or non-ASCII bytes",
);

pub const BAD_COMMAND: Row = (
    "22",
    "BadCommand",
    "the command contains LF, CR or NUL",
    "`confstamp fixdep x.d x.o \"$(printf 'a\\nb')\"`",
    "pass the command on one line",
);

pub const BAD_COMMAND_FILE: Row = (
    "23",
    "BadCommandFile",
    "the first line of a `.cmd` file that doesn't fit or is missing; line 1 also if the file is of another target",
    "an empty `.x.o.cmd`",
    "build and record the object again; `confstamp why` names another spelling under which it is recorded",
);

pub const HIDDEN_INPUT: Row = (
    "24",
    "HiddenInput",
    "with `--strict`: a file of the object may read another one that no dependency file lists, embeds one, or has the time of the compile; or a tool is a script",
    "`__TIME__` or `.incbin` in x.c",
    "don't record the object: compile it after each change",
);

pub const FOREIGN_LINE: Row = (
    "25",
    "ForeignLine",
    "with `--strict`: a line of the header is none that was synchronised",
    "`#define HAVE_X 1`",
    "synchronise, or keep only the configuration in that header",
);

pub const OTHER_HEADER: Row = (
    "26",
    "OtherHeader",
    "with `--strict`: a file ends as the header's path, and is another one",
    "`x.o: x.c other/include/generated/autoconf.h`",
    "synchronise where that header is",
);

pub const PRECOMPILED: Row = (
    "27",
    "Precompiled",
    "with `--strict`: the object may be made of a precompiled header",
    "`all.h.gch` beside `all.h`",
    "don't record the object: compile it after each change",
);

pub const MISSING_LINE: Row = (
    "28",
    "MissingLine",
    "with `--strict`: the header lacks a line that was synchronised",
    "autoconf.h without the line of A",
    "run the tool that writes that header, then synchronise",
);

pub const UNKNOWN_ARGUMENT: Row = (
    "29",
    "UnknownArgument",
    "with `--strict`: this word of the command may bring a file that no dependency file lists, or the header's text; or, in a compile, which has `-c`, it isn't known",
    "`@x.rsp`, `-fplugin=x.so`",
    "don't record the object: compile it after each change",
);

pub const DEVICE: Row = (
    "30",
    "Device",
    "the system failed (no permission, a full disk, a directory where a file should be), another program is writing the same temporary file, or there is no random number",
    "`confstamp preview . .config`",
    "remove the cause, and repeat the command: it completes what was interrupted",
);

pub const BAD_STAMP: Row = (
    "31",
    "BadStamp",
    "a stamp is neither empty nor a decimal and LF",
    "`include/config/A` of `x`",
    "write auto.conf's generation plus one and a line feed into the stamp; don't remove it",
);

pub const MISSING_FILE: Row = (
    "40",
    "MissingFile",
    "a file that an argument, a script or a dependency file names isn't there",
    "`confstamp preview Kconfig none`",
    "give the path below the current directory, or below that of `-C`",
);

pub const NEVER_SYNCED: Row = (
    "41",
    "NeverSynced",
    "auto.conf is missing or has no generation",
    "`confstamp record x.d x.o cc` in a new tree",
    "synchronise first: `confstamp sync Kconfig .config`",
);

pub const GENERATION_FULL: Row = (
    "42",
    "GenerationFull",
    "auto.conf has the greatest generation, 18446744073709551615",
    "that in OLDAUTO",
    "start over: remove `include/config` and all `.cmd` files, synchronise, and build everything",
);

pub const BAD_SCRIPT: Row = (
    "50",
    "BadScript",
    "a line of a script is no command; nothing was run",
    "`stale`",
    "write one space between arguments, and one target for each `stale`",
);

pub const OUTPUT: Row = (
    "51",
    "Output",
    "standard output couldn't be written. A reader who has gone, as after `head`, is status 141 instead",
    "`confstamp preview Kconfig .config > /dev/full`",
    "the work of `sync`, `record`, `depfile` and `batch` is done; repeat others",
);

/// All of them, in rising order.
pub const ERRORS: &[Row] = &[
    NOT_BARE,
    BAD_NAME,
    MODULE_NAME,
    NO_TYPE,
    TYPE_CLASH,
    BAD_TITLE,
    NOT_A_CONFIG_LINE,
    BAD_VALUE,
    TOO_LARGE,
    OUT_OF_MEMORY,
    BAD_AUTO,
    BAD_HEADING,
    NOT_AN_ENTRY,
    MODULE_SYMBOL,
    UNEXPLAINED,
    UNDEFINED,
    UNDECLARED,
    TWICE,
    NO_TARGET,
    BAD_PATH,
    BAD_COMMAND,
    BAD_COMMAND_FILE,
    HIDDEN_INPUT,
    FOREIGN_LINE,
    OTHER_HEADER,
    PRECOMPILED,
    MISSING_LINE,
    UNKNOWN_ARGUMENT,
    DEVICE,
    BAD_STAMP,
    MISSING_FILE,
    NEVER_SYNCED,
    GENERATION_FULL,
    BAD_SCRIPT,
    OUTPUT,
];
