//! Under the dialects of U-Boot and BusyBox: records and command files, and beside them under that of Linux; and synchronisations.
use crate::steps::{Step, play_each};
use std::test::Fail;

const SOURCE: &str = "CONFIG_IS_ENABLED(A) CONFIG_B\n";

const PROPER: &str =
    "0 savedcmd_x.o := cc\n\nsource_x.o := u.c\n\ndeps_x.o := \\\n    $(wildcard include/config/A) \\\n    $(wildcard include/config/B) \\\n\nx.o: $(deps_x.o)\n\n$(deps_x.o):\n";

const SPL: &str =
    "savedcmd_spl/x.o := cc\n\nsource_spl/x.o := u.c\n\ndeps_spl/x.o := \\\n    $(wildcard include/config/SPL_A) \\\n    $(wildcard include/config/B) \\\n\nspl/x.o: $(deps_spl/x.o)\n\n$(deps_spl/x.o):\n#generation 1\n";

const TPL: &str =
    "savedcmd_tpl/x.o := cc\n\nsource_tpl/x.o := u.c\n\ndeps_tpl/x.o := \\\n    $(wildcard include/config/TPL_A) \\\n    $(wildcard include/config/B) \\\n\ntpl/x.o: $(deps_tpl/x.o)\n\n$(deps_tpl/x.o):\n#generation 1\n";

const LINUX: &str =
    "savedcmd_y.o := cc\n\nsource_y.o := u.c\n\ndeps_y.o := \\\n    $(wildcard include/config/IS_ENABLED) \\\n    $(wildcard include/config/B) \\\n\ny.o: $(deps_y.o)\n\n$(deps_y.o):\n#generation 1\n";

const SCRIPT: &str = "record u.d x.o cc\nrecord u.d tpl/x.o cc\nrecord u.d spl/x.o cc\nstale x.o\n";

const REPLIES: &str =
    "0 record x.o generation 1 names 2\nrecord tpl/x.o generation 1 names 2\nrecord spl/x.o generation 1 names 2\nx.o fresh\n";

#[rattlefmt::skip]
const ROWS: &[(Step<'_>, &str)] = &[
    (Step::Args(&["sync", "K1", "c1"]), "0 generation 1\ntouch A\ntouch B\nunknown 0\n"),
    (Step::Put("u.c", SOURCE), "done"),
    (Step::Put("u.d", "x.o: u.c\n"), "done"),
    (Step::InUBoot(&["record", "u.d", "spl/x.o", "cc"]), "0 record spl/x.o generation 1 names 2\n"),
    (Step::Read("spl/.x.o.cmd"), SPL),
    (Step::Args(&["record", "u.d", "y.o", "cc"]), "0 record y.o generation 1 names 2\n"),
    (Step::Read(".y.o.cmd"), LINUX),
    (Step::Put("script", SCRIPT), "done"),
    (Step::InUBoot(&["batch", "script"]), REPLIES),
    (Step::Read("tpl/.x.o.cmd"), TPL),
    (Step::Read("spl/.x.o.cmd"), SPL),
    (Step::InUBoot(&["depfile", "u.d", "spl/x.o", "cc"]), "0 depfile spl/x.o generation 1 names 2\n"),
    (Step::Read("u.d"), "x.o: \\\n  u.c \\\n  include/config/SPL_A \\\n  include/config/B\n"),
    (Step::Read("include/config/SPL_A"), ""),
    (Step::Put("u.d", "x.o: u.c\n"), "done"),
    (Step::InUBoot(&["depfile", "u.d", "spl/x.o", "cc -DX=CONFIG_IS_ENABLED(C_MODULE)"]), "0 depfile spl/x.o generation 1 names 4\n"),
    (Step::Read("u.d"), "x.o: \\\n  u.c \\\n  include/config/SPL_A \\\n  include/config/B \\\n  include/config/SPL_C \\\n  include/config/SPL_C_MODULE\n"),
];

#[test]
fn names_of_another_dialect(rt: HostRuntime) -> Result<(), Fail> {
    play_each(&rt, rt.alloc(), &[ROWS])
}

#[rattlefmt::skip]
const PRINTED: &[(Step<'_>, &str)] = &[
    (Step::Put("u.c", SOURCE), "done"),
    (Step::Put("u.d", "x.o: u.c\n"), "done"),
    (Step::InUBoot(&["fixdep", "u.d", "x.o", "cc"]), PROPER),
];

#[test]
fn command_file_of_another_dialect(rt: HostRuntime) -> Result<(), Fail> {
    play_each(&rt, rt.alloc(), &[PRINTED])
}

const RAW_AUTO: &str =
    "#\n# Automatically generated file; DO NOT EDIT.\n# Main menu\n#\n#typed\nCONFIG_A=y\n#type S raw\nCONFIG_S=\"a\\b\"\n#generation 1\n";

const RAW_HEADER: &str =
    "/*\n * Automatically generated file; DO NOT EDIT.\n * Main menu\n */\n#define CONFIG_A 1\n#define CONFIG_S \"a\\b\"\n";

#[rattlefmt::skip]
const RAW: &[(Step<'_>, &str)] = &[
    (Step::Put("K", "config S\n\tstring\nconfig A\n\tbool\n"), "done"),
    (Step::Put("c", "CONFIG_S=\"a\\b\"\nCONFIG_A=y\n"), "done"),
    (Step::InUBoot(&["sync", "K", "c"]), "0 generation 1\ntouch A\ntouch S\nunknown 0\n"),
    (Step::Read("include/config/auto.conf"), RAW_AUTO),
    (Step::Read("include/generated/autoconf.h"), RAW_HEADER),
    (Step::InUBoot(&["diff", "K", "c"]), "0 "),
    (Step::Args(&["diff", "K", "c"]), "2 confstamp: 8 BadValue line 1\n  c:1: CONFIG_S=\"a\\b\"\n"),
    (Step::Put("d", "CONFIG_S=\"a\"\nCONFIG_A=y\n"), "done"),
    (Step::InUBoot(&["diff", "K", "d"]), "0 S \"a\\b\" -> \"a\"\n"),
    (Step::Args(&["diff", "K", "d"]), "0 S \"a\\b\" -> \"a\"\n"),
    (Step::Put("s", "sync K d\n"), "done"),
    (Step::InUBoot(&["batch", "s"]), "0 sync generation 2 touched 1 unknown 0\n"),
];

#[test]
fn raw_strings_of_u_boot(rt: HostRuntime) -> Result<(), Fail> {
    play_each(&rt, rt.alloc(), &[RAW])
}

const FLAGS_HEADER: &str =
    "/*\n * Automatically generated file; DO NOT EDIT.\n * Main menu\n */\n#define ENABLE_A_MODULE 1\n";

const FLAGS_COMMANDS: &str =
    "savedcmd_b.o := cc\n\nsource_b.o := b.c\n\ndeps_b.o := \\\n    $(wildcard include/config/A_MODULE) \\\n    $(wildcard include/config/A) \\\n\nb.o: $(deps_b.o)\n\n$(deps_b.o):\n#generation 1\n";

#[rattlefmt::skip]
const FLAGS: &[(Step<'_>, &str)] = &[
    (Step::Put("K", "config A_MODULE\n\tbool\nconfig A\n\tbool\n"), "done"),
    (Step::Put("c", "CONFIG_A_MODULE=y\n# CONFIG_A is not set\n"), "done"),
    (Step::Put("b.c", "#if ENABLE_A_MODULE\nIF_A(x)\n"), "done"),
    (Step::Put("b.d", "b.o: b.c include/autoconf.h\n"), "done"),
    (Step::Args(&["sync", "K", "c"]), "2 confstamp: 3 ModuleName line 1\n  K:1: config A_MODULE\n"),
    (Step::InBusyBox(&["sync", "K", "c"]), "0 generation 1\ntouch A_MODULE\nunknown 0\n"),
    (Step::Read("include/generated/autoconf.h"), FLAGS_HEADER),
    (Step::InBusyBox(&["record", "b.d", "b.o", "cc"]), "0 record b.o generation 1 names 2\n"),
    (Step::Read(".b.o.cmd"), FLAGS_COMMANDS),
    (Step::Put("d", "CONFIG_A=y\nCONFIG_A_MODULE=y\n"), "done"),
    (Step::InBusyBox(&["diff", "K", "d"]), "0 A n -> y\n"),
    (Step::InBusyBox(&["impact", "K", "d", "b.o"]), "1 b.o stale A\n1 of 1 stale\n"),
    (Step::Put("d", "# CONFIG_A_MODULE is not set\n"), "done"),
    (Step::InBusyBox(&["sync", "K", "d"]), "0 generation 2\ntouch A_MODULE\nunknown 0\n"),
    (Step::InBusyBox(&["stale", "b.o"]), "1 b.o stale A_MODULE\n"),
];

#[test]
fn names_and_header_of_busybox(rt: HostRuntime) -> Result<(), Fail> {
    play_each(&rt, rt.alloc(), &[FLAGS])
}
