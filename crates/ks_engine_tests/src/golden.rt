//! Inputs and whole files of the examples.
use crate::steps::Step;

pub(crate) const KCONFIG: &str = "mainmenu \"Demo\"\nconfig A\n\tbool\nconfig B\n\ttristate\n";

pub(crate) const KCONFIG_D: &str =
    "mainmenu \"Demo\"\nconfig A\n\tbool\nconfig B\n\ttristate\nconfig D\n\tbool\n";

pub(crate) const WITHOUT_A: &str = "mainmenu \"Demo\"\nconfig B\n\ttristate\n";

pub(crate) const STRING: &str = "config S\n\tstring\n";

pub(crate) const BOTH: &str = "CONFIG_A=y\nCONFIG_B=m\n";

pub(crate) const ONLY_B: &str = "CONFIG_B=m\n";

pub(crate) const AUTO: &str =
    "#\n# Automatically generated file; DO NOT EDIT.\n# Demo\n#\n#typed\nCONFIG_A=y\nCONFIG_B=m\n#generation 1\n";

/// The same in the untyped form.
pub(crate) const UNTYPED_AUTO: &str =
    "#\n# Automatically generated file; DO NOT EDIT.\n# Demo\n#\nCONFIG_A=y\nCONFIG_B=m\n#generation 1\n";

pub(crate) const HEADER: &str =
    "/*\n * Automatically generated file; DO NOT EDIT.\n * Demo\n */\n#define CONFIG_A 1\n#define CONFIG_B_MODULE 1\n";

pub(crate) const COMMAND_FILE: &str =
    "savedcmd_x.o := cc -c x.c\n\nsource_x.o := x.c\n\ndeps_x.o := \\\n    $(wildcard include/config/A) \\\n    $(wildcard include/config/B) \\\n  a.h \\\n    $(wildcard include/config/C) \\\n  b.h \\\n\nx.o: $(deps_x.o)\n\n$(deps_x.o):\n#generation 1\n";

/// What it is without a number, with a number above that of auto.conf, and cut after its eighth line.
pub(crate) const UNNUMBERED: &str =
    "savedcmd_x.o := cc -c x.c\n\nsource_x.o := x.c\n\ndeps_x.o := \\\n    $(wildcard include/config/A) \\\n    $(wildcard include/config/B) \\\n  a.h \\\n    $(wildcard include/config/C) \\\n  b.h \\\n\nx.o: $(deps_x.o)\n\n$(deps_x.o):\n";

pub(crate) const NUMBERED_FIVE: &str =
    "savedcmd_x.o := cc -c x.c\n\nsource_x.o := x.c\n\ndeps_x.o := \\\n    $(wildcard include/config/A) \\\n    $(wildcard include/config/B) \\\n  a.h \\\n    $(wildcard include/config/C) \\\n  b.h \\\n\nx.o: $(deps_x.o)\n\n$(deps_x.o):\n#generation 5\n";

pub(crate) const CUT: &str =
    "savedcmd_x.o := cc -c x.c\n\nsource_x.o := x.c\n\ndeps_x.o := \\\n    $(wildcard include/config/A) \\\n    $(wildcard include/config/B) \\\n  a.h \\\n";

/// The auto.conf and the header of the same Kconfig with B alone.
pub(crate) const AUTO_B: &str =
    "#\n# Automatically generated file; DO NOT EDIT.\n# Demo\n#\n#typed\nCONFIG_B=m\n#generation 2\n";

pub(crate) const UNTYPED_AUTO_B: &str =
    "#\n# Automatically generated file; DO NOT EDIT.\n# Demo\n#\nCONFIG_B=m\n#generation 2\n";

pub(crate) const HEADER_B: &str =
    "/*\n * Automatically generated file; DO NOT EDIT.\n * Demo\n */\n#define CONFIG_B_MODULE 1\n";

/// An object's sources and its dependency file.
pub(crate) const SOURCES: &[(Step<'_>, &str)] = &[
    (
        Step::Put(
            "x.d",
            "x.o: x.c a.h \\\n include/generated/autoconf.h a.h b.h\n",
        ),
        "done",
    ),
    (Step::Put("x.c", "#ifdef CONFIG_A\nCONFIG_B\n"), "done"),
    (Step::Put("a.h", "CONFIG_B CONFIG_C_MODULE\n"), "done"),
    (Step::Put("b.h", "CONFIG_A\n"), "done"),
];

#[rattlefmt::skip]
pub(crate) const CHANGE_AND_BACK: &[(Step<'_>, &str)] = &[
    (Step::Sync(KCONFIG_D, BOTH), "generation 1 touched A B unknown 0"),
    (Step::Record("x.d", "x.o", "cc -c x.c"), "generation 1 names 3"),
    (Step::Sync(KCONFIG_D, "CONFIG_A=y\nCONFIG_B=m\nCONFIG_D=y\n"), "generation 2 touched D unknown 0"),
    (Step::Stale("x.o"), "fresh"),
    (Step::Sync(KCONFIG_D, "CONFIG_B=m\nCONFIG_D=y\n"), "generation 3 touched A unknown 0"),
    (Step::Stale("x.o"), "stale A"),
    (Step::Sync(KCONFIG_D, "CONFIG_A=y\nCONFIG_B=m\nCONFIG_D=y\n"), "generation 4 touched A unknown 0"),
    (Step::Stale("x.o"), "stale A"),
    (Step::Record("x.d", "x.o", "cc -c x.c"), "generation 4 names 3"),
    (Step::Stale("x.o"), "fresh"),
];

#[rattlefmt::skip]
pub(crate) const FIRST_FILES: &[(Step<'_>, &str)] = &[
    (Step::Sync(KCONFIG, BOTH), "generation 1 touched A B unknown 0"),
    (Step::Read("include/config/auto.conf"), AUTO),
    (Step::Read("include/generated/autoconf.h"), HEADER),
    (Step::Read("include/config/A"), "1\n"),
    (Step::Read("include/config/B"), "1\n"),
    (Step::Record("x.d", "x.o", "cc -c x.c"), "generation 1 names 3"),
    (Step::Read(".x.o.cmd"), COMMAND_FILE),
    (Step::Stale("d/x.o"), "no-command-file"),
    (Step::Put(".y.o.cmd", COMMAND_FILE), "done"),
    (Step::Stale("y.o"), "23 BadCommandFile line 1"),
    (Step::Sync(WITHOUT_A, ONLY_B), "generation 2 touched A unknown 0"),
    (Step::Stale("x.o"), "stale A"),
    (Step::Read("x.c"), "#ifdef CONFIG_A\nCONFIG_B\n"),
];

#[rattlefmt::skip]
pub(crate) const REFUSALS: &[(Step<'_>, &str)] = &[
    (Step::Put("x.d", "x.o: x.c b.h\n"), "done"),
    (Step::Put("x.c", "CONFIG_A\n"), "done"),
    (Step::Record("x.d", "x.o", "cc"), "41 NeverSynced"),
    (Step::Read(".x.o.cmd"), "none"),
    (Step::Sync("config A\n\tbool\n\thelp\n", ""), "1 NotBare line 3"),
    (Step::Sync(KCONFIG, "CONFIG_A=m\n"), "8 BadValue line 1"),
    (Step::Put("include/config/auto.conf", "#\n#\n#\n#\nCONFIG_../x=y\n"), "done"),
    (Step::Sync(KCONFIG, BOTH), "11 BadAuto line 5"),
    (Step::Put("include/config/auto.conf", "#generation 18446744073709551615\n"), "done"),
    (Step::Sync(KCONFIG, BOTH), "42 GenerationFull"),
    (Step::Put("include/config/auto.conf", "CONFIG_A=y\n"), "done"),
    (Step::Put("include/config/A", ""), "done"),
    (Step::Record("x.d", "x.o", "cc"), "41 NeverSynced"),
    (Step::Sync(KCONFIG, BOTH), "generation 1 touched A B unknown 0"),
    (Step::Read("include/config/A"), "1\n"),
    (Step::Record("x.d", "x.o", "cc"), "40 MissingFile b.h"),
    (Step::Record("y.d", "x.o", "cc"), "40 MissingFile y.d"),
    (Step::Record("a$b", "x.o", "cc"), "21 BadPath token 0"),
    (Step::Record("x.d", "d/", "cc"), "21 BadPath token 0"),
    (Step::Record("x.d", "x.o", "a\nb"), "22 BadCommand"),
    (Step::Put("x.d", "x.o: x.c a$b.h\n"), "done"),
    (Step::Record("x.d", "x.o", "cc"), "21 BadPath token 3"),
    (Step::Put("x.d", "a.h b.h\n"), "done"),
    (Step::Record("x.d", "x.o", "cc"), "20 NoTarget"),
    (Step::Put("x.d", "x.o: x.c\n"), "done"),
    (Step::Record("x.d", "x.o", "cc"), "generation 1 names 1"),
    (Step::Stale("x.o"), "fresh"),
    (Step::Put("include/config/A", "01\n"), "done"),
    (Step::Stale("x.o"), "31 BadStamp A"),
    (Step::Put("include/config/A", "7"), "done"),
    (Step::Stale("x.o"), "31 BadStamp A"),
    (Step::Put(".x.o.cmd", "savedcmd_x.o := cc\n\nsource_x.o := x.c\n\ndeps_x.o := \\\n\nx.o: $(deps_x.o)\n\n$(deps_x.o):\n"), "done"),
    (Step::Stale("x.o"), "not-numbered"),
    (Step::Put(".x.o.cmd", "savedcmd_x.o := cc\n\nsource_x.o := x.c\n\ndeps_x.o := \\\n\nx.o: $(deps_x.o)\n\n$(deps_x.o):\n#generation 5\n"), "done"),
    (Step::Stale("x.o"), "generation-ahead"),
    (Step::Put(".x.o.cmd", "savedcmd_x.o := cc\n\nsource_x.o := x.c\n\ndeps_x.o := \\\n  a.h \\\n"), "done"),
    (Step::Stale("x.o"), "23 BadCommandFile line 7"),
    (Step::Stale("a$b"), "21 BadPath token 0"),
];

#[rattlefmt::skip]
pub(crate) const COMMANDS: &[(Step<'_>, &str)] = &[
    (Step::Sync(KCONFIG, BOTH), "generation 1 touched A B unknown 0"),
    (Step::Record("x.d", "x.o", "cc -c x.c"), "generation 1 names 3"),
    (Step::Outdated("x.o", "cc -c x.c"), "fresh"),
    (Step::Outdated("x.o", "cc -O2 -c x.c"), "command-differs"),
    (Step::Outdated("x.o", "cc -c y.c"), "command-differs"),
    (Step::Outdated("a$b", "cc"), "21 BadPath token 0"),
    (Step::Outdated("x.o", "a\nb"), "22 BadCommand"),
    (Step::Outdated("z.o", ""), "no-command-file"),
    (Step::Sync(KCONFIG, ONLY_B), "generation 2 touched A unknown 0"),
    (Step::Outdated("x.o", "cc -c x.c"), "stale A"),
    (Step::Put("include/config/auto.conf", "CONFIG_A=y\n"), "done"),
    (Step::Outdated("x.o", "cc -O2 -c x.c"), "command-differs"),
    (Step::Outdated("x.o", "cc -c x.c"), "41 NeverSynced"),
];

/// A dependency file becomes one rule, after a record.
#[rattlefmt::skip]
pub(crate) const RULES: &[(Step<'_>, &str)] = &[
    (Step::Put("x.d", "x.o: x.c a.h \\\n config.h my_config.h a.h b.h\n\na.h:\n"), "done"),
    (Step::Put("my_config.h", ""), "done"),
    (Step::Sync(KCONFIG, BOTH), "generation 1 touched A B unknown 0"),
    (Step::Depfile("config.h", "x.d", "x.o", "cc"), "generation 1 names 3"),
    (Step::Read("x.d"), "x.o: \\\n  x.c \\\n  a.h \\\n  my_config.h \\\n  b.h \\\n  include/config/A \\\n  include/config/B \\\n  include/config/C\n"),
    (Step::Read("x.d.tmp"), "none"),
    // a stamp that is there is kept, and one that is made says what a missing one does
    (Step::Read("include/config/A"), "1\n"),
    (Step::Read("include/config/C"), ""),
    (Step::Stale("x.o"), "fresh"),
    (Step::Sync(KCONFIG, ONLY_B), "generation 2 touched A unknown 0"),
    (Step::Stale("x.o"), "stale A"),
    // the words of the command name symbols too, after those of all files; to a record they name none
    (Step::Put("x.d", "x.o: b.h c.h\n"), "done"),
    (Step::Put("c.h", ""), "done"),
    (Step::Depfile("config.h", "x.d", "x.o", "cc -DFEATURE=CONFIG_B -DCONFIG_D CONFIG_A"), "generation 2 names 2"),
    (Step::Read(".x.o.cmd"), "savedcmd_x.o := cc -DFEATURE=CONFIG_B -DCONFIG_D CONFIG_A\n\nsource_x.o := b.h\n\ndeps_x.o := \\\n    $(wildcard include/config/A) \\\n  c.h \\\n    $(wildcard include/config/B) \\\n\nx.o: $(deps_x.o)\n\n$(deps_x.o):\n#generation 2\n"),
    (Step::Read("x.d"), "x.o: \\\n  b.h \\\n  c.h \\\n  include/config/A \\\n  include/config/B\n"),
    (Step::Stale("x.o"), "fresh"),
    (Step::Sync(KCONFIG, ""), "generation 3 touched B unknown 0"),
    (Step::Stale("x.o"), "stale B"),
    (Step::Put("x.d", "x.o: b.h c.h\n"), "done"),
    (Step::Record("x.d", "x.o", "cc -DFEATURE=CONFIG_B"), "generation 3 names 1"),
    // refused, and the dependency file stays
    (Step::Put("x.d", "x.o: x.c none.h\n"), "done"),
    (Step::Depfile("config.h", "x.d", "x.o", "cc"), "40 MissingFile none.h"),
    (Step::Read("x.d"), "x.o: x.c none.h\n"),
    (Step::Depfile("config.h", ".y.o.cmd", "x.o", "cc"), "21 BadPath token 0"),
    (Step::Depfile("config.h", "include/config/A", "x.o", "cc"), "21 BadPath token 0"),
    (Step::Read("include/config/A"), "2\n"),
];
