//! The refusals of a whole command: nothing on the output, a line on standard error, after it one that says where, and
//! nothing changed.
use crate::golden::AUTO;
use crate::steps::{Step, play, play_each, world};
use ks_tree::{Backdating, FuseMode, FuseTree, Tree};
use std::alloc::Global;
use std::process::Abort;
use std::test::Fail;

#[rattlefmt::skip]
const SYNC_AND_PREVIEW: &[(Step<'_>, &str)] = &[
    (Step::Args(&["sync", "a$b", "c1"]), "2 confstamp: 21 BadPath token 0\n"),
    (Step::Args(&["sync", "missing", "a$b"]), "2 confstamp: 21 BadPath token 0\n"),
    (Step::Args(&["sync", "missing", "faulty"]), "2 confstamp: 40 MissingFile missing\n"),
    (Step::Args(&["sync", "c1", "missing"]), "2 confstamp: 40 MissingFile missing\n"),
    (Step::Args(&["sync", "c1", "c1"]), "2 confstamp: 1 NotBare line 1\n  c1:1: CONFIG_A=y\n"),
    (Step::Args(&["sync", "K1", "faulty"]), "2 confstamp: 8 BadValue line 2\n  faulty:2: CONFIG_A=m\n"),
    (Step::Args(&["preview", "K1", "faulty"]), "2 confstamp: 8 BadValue line 2\n  faulty:2: CONFIG_A=m\n"),
    (Step::Args(&["preview", "a$b", "c1"]), "2 confstamp: 21 BadPath token 0\n"),
    (Step::Args(&["preview", "missing", "c1", "a$b"]), "2 confstamp: 21 BadPath token 0\n"),
    (Step::Args(&["preview", "c1", "c1", "missing"]), "2 confstamp: 40 MissingFile missing\n"),
    (Step::Args(&["diff", "missing", "a$b"]), "2 confstamp: 21 BadPath token 0\n"),
    (Step::Args(&["diff", "c1", "missing"]), "2 confstamp: 40 MissingFile missing\n"),
    (Step::Put("include/config/auto.conf", "#\n#\n#\n#\nCONFIG_../x=y\n"), "done"),
    (Step::Args(&["sync", "K1", "c1"]), "2 confstamp: 11 BadAuto line 5\n  include/config/auto.conf:5: CONFIG_../x=y\n"),
    (Step::Args(&["record", "x.d", "x.o", "cc"]), "2 confstamp: 11 BadAuto line 5\n  include/config/auto.conf:5: CONFIG_../x=y\n"),
    (Step::Args(&["diff", "K1", "c1"]), "2 confstamp: 11 BadAuto line 5\n  include/config/auto.conf:5: CONFIG_../x=y\n"),
    (Step::Args(&["status", "K1", "c1"]), "2 confstamp: 11 BadAuto line 5\n  include/config/auto.conf:5: CONFIG_../x=y\n"),
    (Step::Args(&["status"]), "2 confstamp: 11 BadAuto line 5\n  include/config/auto.conf:5: CONFIG_../x=y\n"),
    (Step::Args(&["status", "K1", "faulty"]), "2 confstamp: 8 BadValue line 2\n  faulty:2: CONFIG_A=m\n"),
    (Step::Args(&["impact", "K1", "c1", "x.o"]), "2 confstamp: 11 BadAuto line 5\n  include/config/auto.conf:5: CONFIG_../x=y\n"),
    (Step::Args(&["diff", "K1", "faulty"]), "2 confstamp: 8 BadValue line 2\n  faulty:2: CONFIG_A=m\n"),
    (Step::Args(&["diff", "--quiet", "K1", "faulty"]), "2 confstamp: 8 BadValue line 2\n  faulty:2: CONFIG_A=m\n"),
    (Step::Put("old", "#\nCONFIG_\u{1b}[2J\u{7f}é\n"), "done"),
    (Step::Args(&["preview", "K1", "c1", "old"]), "2 confstamp: 11 BadAuto line 2\n  old:2: CONFIG_?[2J?é\n"),
    (Step::Put("old", ""), "done"),
    (Step::Put("K9", "config A\r\n"), "done"),
    (Step::Args(&["preview", "K9", "c1"]), "2 confstamp: 4 NoType line 1\n  K9:1: config A\n"),
    (Step::Put("include/config/auto.conf", "#generation 18446744073709551615\n"), "done"),
    (Step::Args(&["sync", "K1", "c1"]), "2 confstamp: 42 GenerationFull\n"),
    (Step::Args(&["impact", "K1", "c1", "x.o"]), "2 confstamp: 42 GenerationFull\n"),
    (Step::Args(&["preview", "K1", "c1", "include/config/auto.conf"]), "2 confstamp: 42 GenerationFull\n"),
    (Step::Args(&["status", "K1", "c1"]), "1 auto.conf: generation 18446744073709551615\nheader: missing\nconfiguration: changed 2\n"),
    (Step::Read("include/config/auto.conf"), "#generation 18446744073709551615\n"),
    (Step::Read("include/generated/autoconf.h"), "none"),
];

#[rattlefmt::skip]
const WRITTEN: &[(Step<'_>, &str)] = &[
    (Step::Put("W", "#\n# Automatically generated file; DO NOT EDIT.\n# Demo\n#\nCONFIG_S=y\nCONFIG_A=y\n"), "done"),
    (Step::Put("w.h", "/*\n * Automatically generated file; DO NOT EDIT.\n * Demo\n */\n#define CONFIG_S \"y\"\n#define CONFIG_A 1\n"), "done"),
    (Step::Args(&["sync", "--written", "W", "a$b"]), "2 confstamp: 21 BadPath token 0\n"),
    (Step::Args(&["sync", "--written", "W", "missing"]), "2 confstamp: 40 MissingFile missing\n"),
    (Step::Args(&["sync", "--written", "w.h", "W"]), "2 confstamp: 12 BadHeading\n  w.h\n"),
    (Step::Put("v.h", "/*\n * Automatically generated file; DO NOT EDIT.\n * Demo\n */\n#define CONFIG_S \"y\"\n"), "done"),
    (Step::Args(&["sync", "--written", "W", "v.h"]), "2 confstamp: 16 Undefined line 6\n  W:6: CONFIG_A=y\n"),
    (Step::Put("v.h", "/*\n * Automatically generated file; DO NOT EDIT.\n * Demo\n */\n#define CONFIG_S \"y\"\n#define CONFIG_A 2\n"), "done"),
    (Step::Args(&["sync", "--written", "W", "v.h"]), "2 confstamp: 15 Unexplained line 6\n  W:6: CONFIG_A=y\n"),
    (Step::Args(&["preview", "--written", "W", "v.h"]), "2 confstamp: 15 Unexplained line 6\n  W:6: CONFIG_A=y\n"),
    (Step::Args(&["diff", "--written", "W", "v.h"]), "2 confstamp: 15 Unexplained line 6\n  W:6: CONFIG_A=y\n"),
    (Step::Args(&["impact", "--written", "W", "v.h", "x.o"]), "2 confstamp: 15 Unexplained line 6\n  W:6: CONFIG_A=y\n"),
    (Step::Args(&["diff", "--written", "W", "missing"]), "2 confstamp: 40 MissingFile missing\n"),
    (Step::Args(&["sync", "--stamps", "--written", "W", "w.h"]), "2 error: the argument '--stamps' cannot be used with '--written'\n\nUsage: confstamp sync [--stamps | --written] <KCONFIG> <DOTCONFIG>\n\nFor more information, try '--help'.\n"),
    (Step::Args(&["preview", "--written", "W", "w.h"]), "0 touch A\ntouch S\n#\n# Automatically generated file; DO NOT EDIT.\n# Demo\n#\n#typed\nCONFIG_A=y\n#type S string\nCONFIG_S=y\n#generation 1\n"),
    (Step::Args(&["diff", "--written", "W", "w.h"]), "0 A n -> y\nS n -> \"y\"\n"),
    (Step::Read("include/config/auto.conf"), "none"),
    (Step::Args(&["sync", "--written", "W", "w.h"]), "0 generation 1\ntouch A\ntouch S\nunknown 0\n"),
    (Step::Read("include/generated/autoconf.h"), "/*\n * Automatically generated file; DO NOT EDIT.\n * Demo\n */\n#define CONFIG_A 1\n#define CONFIG_S \"y\"\n"),
    (Step::Read("include/config/auto.conf"), "#\n# Automatically generated file; DO NOT EDIT.\n# Demo\n#\n#typed\nCONFIG_A=y\n#type S string\nCONFIG_S=y\n#generation 1\n"),
    (Step::Put("W", "#\n# Automatically generated file; DO NOT EDIT.\n# Demo\n#\nCONFIG_A_MODULE=y\nCONFIG_A=y\n"), "done"),
    (Step::Put("w.h", "/*\n * Automatically generated file; DO NOT EDIT.\n * Demo\n */\n#define CONFIG_A_MODULE 1\n#define CONFIG_A 1\n"), "done"),
    (Step::Args(&["sync", "--written", "W", "w.h"]), "0 generation 2\ntouch A\ntouch A_MODULE\ntouch S\nunknown 0\n"),
    (Step::Read("include/generated/autoconf.h"), "/*\n * Automatically generated file; DO NOT EDIT.\n * Demo\n */\n#define CONFIG_A 1\n#define CONFIG_A_MODULE 1\n"),
    (Step::Put("K", "config A\n\tbool\n"), "done"),
    (Step::Put("c", "CONFIG_A=y\n"), "done"),
    (Step::Args(&["diff", "K", "c"]), "0 A_MODULE y -> n\n"),
    (Step::Args(&["sync", "K", "c"]), "0 generation 3\ntouch A\ntouch A_MODULE\nunknown 0\n"),
    (Step::Put("w.h", "/*\n * Automatically generated file; DO NOT EDIT.\n * Demo\n */\n#define CONFIG_A_MODULE 2\n#define CONFIG_A 1\n"), "done"),
    (Step::Args(&["sync", "--written", "W", "w.h"]), "2 confstamp: 14 ModuleSymbol line 5\n  W:5: CONFIG_A_MODULE=y\n"),
];

#[rattlefmt::skip]
const FIXDEP_AND_RECORD: &[(Step<'_>, &str)] = &[
    (Step::Args(&["fixdep", "a$b", "d/", "a\nb"]), "2 confstamp: 21 BadPath token 0\n"),
    (Step::Args(&["fixdep", "missing", "d/", "a\nb"]), "2 confstamp: 21 BadPath token 0\n"),
    (Step::Args(&["fixdep", "missing", "x.o", "a\nb"]), "2 confstamp: 22 BadCommand\n"),
    (Step::Args(&["fixdep", "missing", "x.o", "cc"]), "2 confstamp: 40 MissingFile missing\n"),
    (Step::Args(&["record", "a$b", "d/", "a\nb"]), "2 confstamp: 21 BadPath token 0\n"),
    (Step::Args(&["record", "missing", "d/", "a\nb"]), "2 confstamp: 21 BadPath token 0\n"),
    (Step::Args(&["record", "missing", "x.o", "a\nb"]), "2 confstamp: 22 BadCommand\n"),
    (Step::Args(&["record", "missing", "x.o", "cc"]), "2 confstamp: 40 MissingFile missing\n"),
    (Step::Args(&["record", "x.d", "x.o", "cc"]), "2 confstamp: 41 NeverSynced\n"),
    (Step::Args(&["sync", "K1", "c1"]), "0 generation 1\ntouch A\ntouch B\nunknown 0\n"),
    (Step::Put("y.d", "a.h b.h\n"), "done"),
    (Step::Args(&["fixdep", "y.d", "x.o", "cc"]), "2 confstamp: 20 NoTarget\n  y.d\n"),
    (Step::Args(&["record", "y.d", "x.o", "cc"]), "2 confstamp: 20 NoTarget\n  y.d\n"),
    (Step::Put("y.d", "x.o: x.c a$b.h\n"), "done"),
    (Step::Args(&["fixdep", "y.d", "x.o", "cc"]), "2 confstamp: 21 BadPath token 3\n  y.d: token 3: a$b.h\n"),
    (Step::Args(&["record", "y.d", "x.o", "cc"]), "2 confstamp: 21 BadPath token 3\n  y.d: token 3: a$b.h\n"),
    (Step::Put("y.d", "x.o: x.c gone.h\n"), "done"),
    (Step::Args(&["fixdep", "y.d", "x.o", "cc"]), "2 confstamp: 40 MissingFile gone.h\n"),
    (Step::Args(&["record", "y.d", "x.o", "cc"]), "2 confstamp: 40 MissingFile gone.h\n"),
    (Step::Read(".x.o.cmd"), "none"),
];

#[rattlefmt::skip]
const SCRIPTS: &[(Step<'_>, &str)] = &[
    (Step::Args(&["batch", "a$b"]), "2 confstamp: 21 BadPath token 0\n"),
    (Step::Args(&["batch", "missing"]), "2 confstamp: 40 MissingFile missing\n"),
    (Step::Put("script", "stale x.o y.o\n"), "done"),
    (Step::Args(&["batch", "script"]), "2 confstamp: 50 BadScript line 1\n  script:1: stale x.o y.o\n"),
    (Step::Put("script", "stale  x.o\n"), "done"),
    (Step::Args(&["batch", "script"]), "2 confstamp: 50 BadScript line 1\n  script:1: stale  x.o\n"),
    (Step::Put("script", "record x.d x.o\n"), "done"),
    (Step::Args(&["batch", "script"]), "2 confstamp: 50 BadScript line 1\n  script:1: record x.d x.o\n"),
    (Step::Put("script", "sync K1 c1\nsync K1 a$b\n"), "done"),
    (Step::Args(&["batch", "script"]), "2 confstamp: 50 BadScript line 2\n  script:2: sync K1 a$b\n"),
    (Step::Put("script", "sync K1 c1\nsync missing gone\n"), "done"),
    (Step::Args(&["batch", "script"]), "2 confstamp: 40 MissingFile missing\n"),
    (Step::Read("include/config/auto.conf"), "none"),
];

/// `big` has one byte more than the limit.
#[rattlefmt::skip]
const TOO_LARGE: &[(Step<'_>, &str)] = &[
    (Step::Args(&["sync", "big", "c1"]), "2 confstamp: 9 TooLarge\n"),
    (Step::Args(&["sync", "K1", "big"]), "2 confstamp: 9 TooLarge\n"),
    (Step::Args(&["preview", "K1", "c1", "big"]), "2 confstamp: 9 TooLarge\n"),
    (Step::Args(&["fixdep", "big", "x.o", "cc"]), "2 confstamp: 9 TooLarge\n"),
    (Step::Args(&["batch", "big"]), "2 confstamp: 9 TooLarge\n"),
    (Step::Args(&["sync", "K1", "c1"]), "0 generation 1\ntouch A\ntouch B\nunknown 0\n"),
    (Step::Put("y.d", "x.o: x.c big\n"), "done"),
    (Step::Args(&["fixdep", "y.d", "x.o", "cc"]), "2 confstamp: 9 TooLarge\n"),
    (Step::Args(&["record", "y.d", "x.o", "cc"]), "2 confstamp: 9 TooLarge\n"),
];

/// What a tree answers of which each call fails.
#[rattlefmt::skip]
const FAILING_TREE: &[(Step<'_>, &str)] = &[
    (Step::Args(&["sync", "K1", "c1"]), "2 confstamp: 30 Device\n"),
    (Step::Args(&["preview", "K1", "c1"]), "2 confstamp: 30 Device\n"),
    (Step::Args(&["fixdep", "x.d", "x.o", "cc"]), "2 confstamp: 30 Device\n"),
    (Step::Args(&["record", "x.d", "x.o", "cc"]), "2 confstamp: 30 Device\n"),
    (Step::Args(&["stale", "x.o", "y.o"]), "2 x.o refused 30 Device\ny.o refused 30 Device\n"),
    (Step::Args(&["outdated", "x.o", "cc"]), "2 x.o refused 30 Device\n"),
    (Step::Args(&["batch", "script"]), "2 confstamp: 30 Device\n"),
];

#[test]
fn whole_commands_refused(rt: HostRuntime) -> Result<(), Fail> {
    play_each(
        &rt,
        rt.alloc(),
        &[SYNC_AND_PREVIEW, WRITTEN, FIXDEP_AND_RECORD, SCRIPTS],
    )
}

#[test]
fn a_tree_that_fails(rt: HostRuntime) -> Result<(), Fail> {
    let tree = world(&rt, rt.alloc())?;
    let mut tree = FuseTree::new(tree, 0, None, FuseMode::Clean);
    play(&rt, rt.alloc(), &mut tree, FAILING_TREE)
}

const TWO_LINES: &[(Step<'_>, &str)] = &[(Step::Put("script", "sync K1 c1\nsync K1 c1\n"), "done")];

const ONE_REFUSED: &[(Step<'_>, &str)] = &[(
    Step::Args(&["batch", "script"]),
    "2 refused 30 Device\nsync generation 1 touched 2 unknown 0\n",
)];

const SYNCED: &[(Step<'_>, &str)] = &[(Step::Read("include/config/auto.conf"), AUTO)];

/// A device that fails while a script runs refuses a line, and the lines after it are still answered.
#[test]
fn a_device_that_fails_once(rt: HostRuntime) -> Result<(), Fail> {
    let mut tree = world(&rt, rt.alloc())?;
    play(&rt, rt.alloc(), &mut tree, TWO_LINES)?;
    let mut tree = FuseTree::new(tree, 10, Some(1), FuseMode::Clean);
    play(&rt, rt.alloc(), &mut tree, ONE_REFUSED)?;
    play(&rt, rt.alloc(), &mut tree.into_inner(), SYNCED)
}

/// A file of one byte more than the limit.
fn put_big<T: Backdating>(alloc: Global, tree: &mut T) -> Result<(), Fail> {
    let big: Vec<u8> = vec![in alloc; b'\n'; 67_108_865]?;
    tree.write(alloc, b"big", &big)?;
    Ok(())
}

#[test]
fn files_above_the_limit(rt: HostRuntime) -> Result<(), Fail> {
    let mut tree = world(&rt, rt.alloc())?;
    put_big(rt.alloc(), &mut tree)?;
    play(&rt, rt.alloc(), &mut tree, TOO_LARGE)
}

/// Of a long line the beginning is shown.
fn check_long_line<T: Backdating>(
    rt: &impl Abort,
    alloc: Global,
    tree: &mut T,
) -> Result<(), Fail> {
    let long: Vec<u8> = vec![in alloc; b'x'; 121]?;
    tree.write(alloc, b"long", &long)?;
    let shown = str::from_utf8(&long[..120])?;
    let want = format!(in alloc; "2 confstamp: 50 BadScript line 1\n  long:1: {shown}\n")?;
    let args = ["batch", "long"];
    play(rt, alloc, tree, &[(Step::Args(&args), want.as_str())])
}

/// Where the file can't be read again, its name and the number are still printed.
const NOT_READ_AGAIN: &[(Step<'_>, &str)] = &[(
    Step::Args(&["sync", "K1", "faulty"]),
    "2 confstamp: 8 BadValue line 2\n  faulty:2\n",
)];

#[test]
fn what_stands_there(rt: HostRuntime) -> Result<(), Fail> {
    let mut tree = world(&rt, rt.alloc())?;
    check_long_line(&rt, rt.alloc(), &mut tree)?;
    let mut tree = FuseTree::new(tree, 2, None, FuseMode::Clean);
    play(&rt, rt.alloc(), &mut tree, NOT_READ_AGAIN)
}
