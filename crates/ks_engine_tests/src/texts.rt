//! What the files hold after synchronisations with values of each kind, and which files are refused with the tree as it was.
use crate::golden::*;
use crate::steps::{Step, example};
use std::alloc::AllocError;

const HEX: &str = "config H\n\thex\n";

const NO_SETTINGS_AUTO: &str =
    "#\n# Automatically generated file; DO NOT EDIT.\n# Main menu\n#\n#typed\n#generation 1\n";

const NO_SETTINGS_HEADER: &str =
    "/*\n * Automatically generated file; DO NOT EDIT.\n * Main menu\n */\n";

const FULL: &str =
    "#\n# Automatically generated file; DO NOT EDIT.\n# Demo\n#\n#typed\nCONFIG_A=y\nCONFIG_B=m\n#generation 18446744073709551615\n";

const NEARLY_FULL: &str =
    "#\n# Automatically generated file; DO NOT EDIT.\n# Demo\n#\nCONFIG_A=y\nCONFIG_B=m\n#generation 18446744073709551614\n";

const STRANGE_NAME: &str =
    "#\n# Automatically generated file; DO NOT EDIT.\n# Demo\n#\nCONFIG_../x=y\nCONFIG_B=m\n#generation 1\n";

const LAST_LINE_CUT: &str =
    "#\n# Automatically generated file; DO NOT EDIT.\n# Demo\n#\nCONFIG_A=y\nCONFIG_B=m\n#generation 1";

const USUAL_AUTO: &str = "#\n# Automatically generated file; DO NOT EDIT.\n# Demo\n#\nCONFIG_A=y\n";

#[rattlefmt::skip]
const NO_SETTINGS: &[(Step<'_>, &str)] = &[
    (Step::Sync("", ""), "generation 1 touched unknown 0"),
    (Step::Read("include/config/auto.conf"), NO_SETTINGS_AUTO),
    (Step::Read("include/generated/autoconf.h"), NO_SETTINGS_HEADER),
];

#[rattlefmt::skip]
const UNSET_BY_ITS_LAST_LINE: &[(Step<'_>, &str)] = &[
    (Step::Sync(KCONFIG, "CONFIG_A=y\n# CONFIG_A is not set\nCONFIG_ZZ=7\n"), "generation 1 touched unknown 1"),
    (Step::Read("include/config/auto.conf"), "#\n# Automatically generated file; DO NOT EDIT.\n# Demo\n#\n#typed\n#generation 1\n"),
    (Step::Read("include/generated/autoconf.h"), "/*\n * Automatically generated file; DO NOT EDIT.\n * Demo\n */\n"),
    (Step::Read("include/config/A"), "none"),
];

#[rattlefmt::skip]
const ESCAPED_STRING: &[(Step<'_>, &str)] = &[
    (Step::Sync(STRING, "CONFIG_S=\"a\\\"b\\\\c\"\n"), "generation 1 touched S unknown 0"),
    (Step::Read("include/config/auto.conf"), "#\n# Automatically generated file; DO NOT EDIT.\n# Main menu\n#\n#typed\n#type S string\nCONFIG_S=a\"b\\c\n#generation 1\n"),
    (Step::Read("include/generated/autoconf.h"), "/*\n * Automatically generated file; DO NOT EDIT.\n * Main menu\n */\n#define CONFIG_S \"a\\\"b\\\\c\"\n"),
    (Step::Sync(STRING, "CONFIG_S=\"a\\n\"\n"), "8 BadValue line 1"),
    (Step::Sync(STRING, "CONFIG_S=\"a\n"), "8 BadValue line 1"),
    (Step::Sync(STRING, "CONFIG_S=a\n"), "8 BadValue line 1"),
    (Step::Sync(STRING, "CONFIG_S=\"a\"b\n"), "8 BadValue line 1"),
];

#[rattlefmt::skip]
const EMPTY_STRING: &[(Step<'_>, &str)] = &[
    (Step::Sync(STRING, ""), "generation 1 touched unknown 0"),
    (Step::Sync(STRING, "CONFIG_S=\"\"\n"), "generation 2 touched S unknown 0"),
    (Step::Read("include/config/auto.conf"), "#\n# Automatically generated file; DO NOT EDIT.\n# Main menu\n#\n#typed\n#type S string\nCONFIG_S=\n#generation 2\n"),
    (Step::Read("include/generated/autoconf.h"), "/*\n * Automatically generated file; DO NOT EDIT.\n * Main menu\n */\n#define CONFIG_S \"\"\n"),
    (Step::Sync(STRING, ""), "generation 3 touched S unknown 0"),
];

#[rattlefmt::skip]
const STRING_N: &[(Step<'_>, &str)] = &[
    (Step::Sync(STRING, "CONFIG_S=\"n\"\n"), "generation 1 touched S unknown 0"),
    (Step::Read("include/config/auto.conf"), "#\n# Automatically generated file; DO NOT EDIT.\n# Main menu\n#\n#typed\n#type S string\nCONFIG_S=n\n#generation 1\n"),
    (Step::Read("include/generated/autoconf.h"), "/*\n * Automatically generated file; DO NOT EDIT.\n * Main menu\n */\n#define CONFIG_S \"n\"\n"),
    (Step::Sync(STRING, "CONFIG_S=\"n\"\n"), "generation 2 touched unknown 0"),
];

#[rattlefmt::skip]
const HEX_AS_WRITTEN: &[(Step<'_>, &str)] = &[
    (Step::Sync(HEX, "CONFIG_H=1f\n"), "generation 1 touched H unknown 0"),
    (Step::Read("include/config/auto.conf"), "#\n# Automatically generated file; DO NOT EDIT.\n# Main menu\n#\n#typed\n#type H hex\nCONFIG_H=1f\n#generation 1\n"),
    (Step::Read("include/generated/autoconf.h"), "/*\n * Automatically generated file; DO NOT EDIT.\n * Main menu\n */\n#define CONFIG_H 0x1f\n"),
    (Step::Sync(HEX, "CONFIG_H=0x1f\n"), "generation 2 touched H unknown 0"),
    (Step::Read("include/config/auto.conf"), "#\n# Automatically generated file; DO NOT EDIT.\n# Main menu\n#\n#typed\n#type H hex\nCONFIG_H=0x1f\n#generation 2\n"),
    (Step::Read("include/generated/autoconf.h"), "/*\n * Automatically generated file; DO NOT EDIT.\n * Main menu\n */\n#define CONFIG_H 0x1f\n"),
    (Step::Sync(HEX, "CONFIG_H=0X1F\n"), "generation 3 touched H unknown 0"),
    (Step::Read("include/generated/autoconf.h"), "/*\n * Automatically generated file; DO NOT EDIT.\n * Main menu\n */\n#define CONFIG_H 0X1F\n"),
    (Step::Sync(HEX, "CONFIG_H=0x\n"), "8 BadValue line 1"),
];

// A symbol whose kind changes is touched, though its text stays; bool and tristate are one class.
#[rattlefmt::skip]
const RETYPED: &[(Step<'_>, &str)] = &[
    (Step::Sync("config S\n\tbool\n", "CONFIG_S=y\n"), "generation 1 touched S unknown 0"),
    (Step::Read("include/config/auto.conf"), "#\n# Automatically generated file; DO NOT EDIT.\n# Main menu\n#\n#typed\nCONFIG_S=y\n#generation 1\n"),
    (Step::Read("include/generated/autoconf.h"), "/*\n * Automatically generated file; DO NOT EDIT.\n * Main menu\n */\n#define CONFIG_S 1\n"),
    (Step::Put("s.d", "s.o: s.c\n"), "done"),
    (Step::Put("s.c", "CONFIG_S\n"), "done"),
    (Step::Record("s.d", "s.o", "cc"), "generation 1 names 1"),
    (Step::Sync("config S\n\ttristate\n", "CONFIG_S=y\n"), "generation 2 touched unknown 0"),
    (Step::Stale("s.o"), "fresh"),
    (Step::Sync(STRING, "CONFIG_S=\"y\"\n"), "generation 3 touched S unknown 0"),
    (Step::Stale("s.o"), "stale S"),
    (Step::Read("include/config/auto.conf"), "#\n# Automatically generated file; DO NOT EDIT.\n# Main menu\n#\n#typed\n#type S string\nCONFIG_S=y\n#generation 3\n"),
    (Step::Read("include/generated/autoconf.h"), "/*\n * Automatically generated file; DO NOT EDIT.\n * Main menu\n */\n#define CONFIG_S \"y\"\n"),
];

#[rattlefmt::skip]
const RETYPED_NUMBER: &[(Step<'_>, &str)] = &[
    (Step::Sync("config H\n\tint\n", "CONFIG_H=10\n"), "generation 1 touched H unknown 0"),
    (Step::Read("include/generated/autoconf.h"), "/*\n * Automatically generated file; DO NOT EDIT.\n * Main menu\n */\n#define CONFIG_H 10\n"),
    (Step::Sync(HEX, "CONFIG_H=10\n"), "generation 2 touched H unknown 0"),
    (Step::Read("include/config/auto.conf"), "#\n# Automatically generated file; DO NOT EDIT.\n# Main menu\n#\n#typed\n#type H hex\nCONFIG_H=10\n#generation 2\n"),
    (Step::Read("include/generated/autoconf.h"), "/*\n * Automatically generated file; DO NOT EDIT.\n * Main menu\n */\n#define CONFIG_H 0x10\n"),
];

// The untyped form knows no class, so all of its names are touched, once.
#[rattlefmt::skip]
const UNTYPED_STRING: &[(Step<'_>, &str)] = &[
    (Step::Put("include/config/auto.conf", "#\n# Automatically generated file; DO NOT EDIT.\n# Main menu\n#\nCONFIG_S=y\n#generation 1\n"), "done"),
    (Step::Put("include/config/S", "1\n"), "done"),
    (Step::Sync(STRING, "CONFIG_S=\"y\"\n"), "generation 2 touched S unknown 0"),
    (Step::Read("include/config/auto.conf"), "#\n# Automatically generated file; DO NOT EDIT.\n# Main menu\n#\n#typed\n#type S string\nCONFIG_S=y\n#generation 2\n"),
    (Step::Sync(STRING, "CONFIG_S=\"y\"\n"), "generation 3 touched unknown 0"),
];

#[rattlefmt::skip]
const UNTYPED_TREE: &[(Step<'_>, &str)] = &[
    (Step::Put("include/config/auto.conf", UNTYPED_AUTO), "done"),
    (Step::Put("include/generated/autoconf.h", HEADER), "done"),
    (Step::Put("include/config/A", "1\n"), "done"),
    (Step::Put("include/config/B", "1\n"), "done"),
    (Step::Record("x.d", "x.o", "cc -c x.c"), "generation 1 names 3"),
    (Step::Read(".x.o.cmd"), COMMAND_FILE),
    (Step::Stale("x.o"), "fresh"),
    (Step::Sync(KCONFIG, BOTH), "generation 2 touched A B unknown 0"),
    (Step::Stale("x.o"), "stale A"),
    (Step::Record("x.d", "x.o", "cc -c x.c"), "generation 2 names 3"),
    (Step::Sync(KCONFIG, BOTH), "generation 3 touched unknown 0"),
    (Step::Stale("x.o"), "fresh"),
];

#[rattlefmt::skip]
const VANISHED_WHILE_UNSET: &[(Step<'_>, &str)] = &[
    (Step::Sync(KCONFIG, "# CONFIG_A is not set\nCONFIG_B=m\n"), "generation 1 touched B unknown 0"),
    (Step::Record("x.d", "x.o", "cc -c x.c"), "generation 1 names 3"),
    (Step::Sync(WITHOUT_A, ONLY_B), "generation 2 touched unknown 0"),
    (Step::Stale("x.o"), "fresh"),
];

#[rattlefmt::skip]
const LAST_GENERATION: &[(Step<'_>, &str)] = &[
    (Step::Put("include/config/auto.conf", NEARLY_FULL), "done"),
    (Step::Sync(KCONFIG, BOTH), "generation 18446744073709551615 touched A B unknown 0"),
    (Step::Read("include/config/auto.conf"), FULL),
    (Step::Sync(KCONFIG, BOTH), "42 GenerationFull"),
    (Step::Sync(KCONFIG, ONLY_B), "42 GenerationFull"),
    (Step::Read("include/config/auto.conf"), FULL),
    (Step::Read("include/config/A"), "18446744073709551615\n"),
];

#[rattlefmt::skip]
const FAULTY_AUTO: &[(Step<'_>, &str)] = &[
    (Step::Put("include/config/auto.conf", "#\n# Automatically generated file; DO NOT EDIT.\n# Demo\n#\n#typed\n#type S string\nCONFIG_T=x\n#generation 1\n"), "done"),
    (Step::Sync(KCONFIG, BOTH), "11 BadAuto line 6"),
    (Step::Record("x.d", "x.o", "cc -c x.c"), "11 BadAuto line 6"),
    (Step::Put("include/config/auto.conf", STRANGE_NAME), "done"),
    (Step::Sync(KCONFIG, BOTH), "11 BadAuto line 5"),
    (Step::Read("include/config/auto.conf"), STRANGE_NAME),
    (Step::Put("include/config/auto.conf", LAST_LINE_CUT), "done"),
    (Step::Sync(KCONFIG, BOTH), "11 BadAuto line 7"),
    (Step::Read("include/config/auto.conf"), LAST_LINE_CUT),
    (Step::Read("include/generated/autoconf.h"), "none"),
    (Step::Read("include/config/A"), "none"),
];

#[rattlefmt::skip]
const USUAL_TREE: &[(Step<'_>, &str)] = &[
    (Step::Put("include/config/auto.conf", USUAL_AUTO), "done"),
    (Step::Put("include/config/A", ""), "done"),
    (Step::Record("x.d", "x.o", "cc -c x.c"), "41 NeverSynced"),
    (Step::Read(".x.o.cmd"), "none"),
    (Step::Sync(KCONFIG, BOTH), "generation 1 touched A B unknown 0"),
    (Step::Read("include/config/A"), "1\n"),
    (Step::Read("include/config/B"), "1\n"),
];

#[rattlefmt::skip]
const FAULTY_DEPENDENCY_FILE: &[(Step<'_>, &str)] = &[
    (Step::Sync(KCONFIG, BOTH), "generation 1 touched A B unknown 0"),
    (Step::Put("x.d", "a.h b.h\n"), "done"),
    (Step::Record("x.d", "x.o", "cc -c x.c"), "20 NoTarget"),
    (Step::Put("x.d", ""), "done"),
    (Step::Record("x.d", "x.o", "cc -c x.c"), "20 NoTarget"),
    (Step::Put("x.d", "x.o: include/generated/autoconf.h\n"), "done"),
    (Step::Record("x.d", "x.o", "cc -c x.c"), "20 NoTarget"),
    (Step::Put("x.d", "x.o: x.c a$b.h\n"), "done"),
    (Step::Record("x.d", "x.o", "cc -c x.c"), "21 BadPath token 3"),
    (Step::Put("x.d", "x.o: x.c a.h c.h\n"), "done"),
    (Step::Record("x.d", "x.o", "cc -c x.c"), "40 MissingFile c.h"),
    (Step::Read(".x.o.cmd"), "none"),
];

#[rattlefmt::skip]
const FAULTY_COMMAND_FILE: &[(Step<'_>, &str)] = &[
    (Step::Sync(KCONFIG, BOTH), "generation 1 touched A B unknown 0"),
    (Step::Stale("x.o"), "no-command-file"),
    (Step::Record("x.d", "x.o", "cc -c x.c"), "generation 1 names 3"),
    (Step::Put("include/config/A", "01\n"), "done"),
    (Step::Stale("x.o"), "31 BadStamp A"),
    (Step::Put("include/config/A", "7"), "done"),
    (Step::Stale("x.o"), "31 BadStamp A"),
    (Step::Put("include/config/A", "1\n"), "done"),
    (Step::Stale("x.o"), "fresh"),
    (Step::Put(".x.o.cmd", CUT), "done"),
    (Step::Stale("x.o"), "23 BadCommandFile line 9"),
    (Step::Put(".x.o.cmd", UNNUMBERED), "done"),
    (Step::Stale("x.o"), "not-numbered"),
    (Step::Put(".x.o.cmd", NUMBERED_FIVE), "done"),
    (Step::Stale("x.o"), "generation-ahead"),
    (Step::Outdated("x.o", "cc -O2 -c x.c"), "command-differs"),
    (Step::Outdated("x.o", "cc -c x.c"), "generation-ahead"),
];

// The command is compared before auto.conf is read.
#[rattlefmt::skip]
const WITHOUT_AUTO: &[(Step<'_>, &str)] = &[
    (Step::Put(".x.o.cmd", COMMAND_FILE), "done"),
    (Step::Outdated("x.o", "cc -O2 -c x.c"), "command-differs"),
    (Step::Outdated("x.o", "cc -c x.c"), "41 NeverSynced"),
    (Step::Stale("x.o"), "41 NeverSynced"),
];

#[test]
fn what_the_files_hold(rt: HostRuntime) -> Result<(), AllocError> {
    for steps in [
        NO_SETTINGS,
        UNSET_BY_ITS_LAST_LINE,
        ESCAPED_STRING,
        EMPTY_STRING,
        STRING_N,
        HEX_AS_WRITTEN,
        RETYPED,
        RETYPED_NUMBER,
        UNTYPED_STRING,
        UNTYPED_TREE,
        VANISHED_WHILE_UNSET,
        LAST_GENERATION,
    ] {
        example(&rt, rt.alloc(), SOURCES, steps)?;
    }
    Ok(())
}

#[test]
fn which_files_are_refused(rt: HostRuntime) -> Result<(), AllocError> {
    for steps in [
        FAULTY_AUTO,
        USUAL_TREE,
        FAULTY_DEPENDENCY_FILE,
        FAULTY_COMMAND_FILE,
        WITHOUT_AUTO,
    ] {
        example(&rt, rt.alloc(), SOURCES, steps)?;
    }
    Ok(())
}
