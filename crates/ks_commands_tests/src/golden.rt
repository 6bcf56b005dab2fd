//! The inputs of the examples, whole files, and what is asked and printed.
use crate::steps::Step;

const KCONFIG: &str = "mainmenu \"Demo\"\nconfig A\n\tbool\nconfig B\n\ttristate\n";

const KCONFIG_D: &str =
    "mainmenu \"Demo\"\nconfig A\n\tbool\nconfig B\n\ttristate\nconfig D\n\tbool\n";

pub const AUTO: &str =
    "#\n# Automatically generated file; DO NOT EDIT.\n# Demo\n#\n#typed\nCONFIG_A=y\nCONFIG_B=m\n#generation 1\n";

const UNTYPED_AUTO: &str =
    "#\n# Automatically generated file; DO NOT EDIT.\n# Demo\n#\nCONFIG_A=y\nCONFIG_B=m\n#generation 1\n";

const USUAL_AUTO: &str = "#\n# Automatically generated file; DO NOT EDIT.\n# Demo\n#\nCONFIG_A=y\n";

const HEADER: &str =
    "/*\n * Automatically generated file; DO NOT EDIT.\n * Demo\n */\n#define CONFIG_A 1\n#define CONFIG_B_MODULE 1\n";

pub const COMMAND_FILE: &str =
    "savedcmd_x.o := cc -c x.c\n\nsource_x.o := x.c\n\ndeps_x.o := \\\n    $(wildcard include/config/A) \\\n    $(wildcard include/config/B) \\\n  a.h \\\n    $(wildcard include/config/C) \\\n  b.h \\\n\nx.o: $(deps_x.o)\n\n$(deps_x.o):\n#generation 1\n";

const CUT_COMMAND_FILE: &str =
    "savedcmd_x.o := cc -c x.c\n\nsource_x.o := x.c\n\ndeps_x.o := \\\n    $(wildcard include/config/A) \\\n    $(wildcard include/config/B) \\\n  a.h \\\n";

const FIXDEP: &str =
    "0 savedcmd_x.o := cc -c x.c\n\nsource_x.o := x.c\n\ndeps_x.o := \\\n    $(wildcard include/config/A) \\\n    $(wildcard include/config/B) \\\n  a.h \\\n    $(wildcard include/config/C) \\\n  b.h \\\n\nx.o: $(deps_x.o)\n\n$(deps_x.o):\n";

const PREVIEW: &str =
    "0 touch A\ntouch B\n#\n# Automatically generated file; DO NOT EDIT.\n# Demo\n#\n#typed\nCONFIG_A=y\nCONFIG_B=m\n#generation 1\n";

const PREVIEW_OVER: &str =
    "0 touch A\n#\n# Automatically generated file; DO NOT EDIT.\n# Demo\n#\n#typed\nCONFIG_B=m\n#generation 2\n";

const NOTHING_OVER: &str =
    "0 #\n# Automatically generated file; DO NOT EDIT.\n# Demo\n#\n#typed\nCONFIG_B=m\n#generation 3\n";

const FROM_OBJECTS: &str =
    "2 x.o fresh\na$b refused 21 BadPath token 0\n@z.o stale no-command-file\n z.o refused 21 BadPath token 0\n";

const BEHIND_A_WORD: &str =
    "2 y.o stale no-command-file\nx.o fresh\na$b refused 21 BadPath token 0\n@z.o stale no-command-file\n z.o refused 21 BadPath token 0\n";

const CAUSES: &str =
    "1 x.o stale A\n  A generation 2 x.c\n  C generation 9 a.h\nx.o stale A\n  A generation 2 x.c\n  C generation 9 a.h\nz.o stale no-command-file\n";

const SPELLINGS: &str =
    "1 .//./x.o stale no-command-file\n  recorded as x.o\nd/x.o stale no-command-file\n./z.o stale no-command-file\n";

/// Kconfig files, `.config` files, an object's sources and its dependency file.
#[rattlefmt::skip]
pub const INPUTS: &[(Step<'_>, &str)] = &[
    (Step::Put("K1", KCONFIG), "done"),
    (Step::Put("K2", KCONFIG_D), "done"),
    (Step::Put("c1", "CONFIG_A=y\nCONFIG_B=m\n"), "done"),
    (Step::Put("c2", "CONFIG_A=y\nCONFIG_B=m\nCONFIG_D=y\n"), "done"),
    (Step::Put("c3", "CONFIG_B=m\nCONFIG_D=y\n"), "done"),
    (Step::Put("only_b", "CONFIG_B=m\n"), "done"),
    (Step::Put("faulty", "\nCONFIG_A=m\n"), "done"),
    (Step::Put("x.d", "x.o: x.c a.h \\\n include/generated/autoconf.h a.h b.h\n"), "done"),
    (Step::Put("x.c", "#ifdef CONFIG_A\nCONFIG_B\n"), "done"),
    (Step::Put("a.h", "CONFIG_B CONFIG_C_MODULE\n"), "done"),
    (Step::Put("b.h", "CONFIG_A\n"), "done"),
];

#[rattlefmt::skip]
pub const EACH_COMMAND: &[(Step<'_>, &str)] = &[
    (Step::Args(&["preview", "K1", "c1"]), PREVIEW),
    (Step::Args(&["diff", "K1", "c1"]), "0 A n -> y\nB n -> m\n"),
    (Step::Args(&["diff", "--exit-code", "K1", "c1"]), "1 A n -> y\nB n -> m\n"),
    (Step::Args(&["diff", "--quiet", "K1", "c1"]), "1 "),
    (Step::Args(&["status", "K1", "c1"]), "1 auto.conf: not synchronised\nheader: missing\nconfiguration: changed 2\n"),
    (Step::Args(&["fixdep", "x.d", "x.o", "cc -c x.c"]), FIXDEP),
    (Step::Read("include/config/auto.conf"), "none"),
    (Step::Read(".x.o.cmd"), "none"),
    (Step::Args(&["sync", "K1", "c1"]), "0 generation 1\ntouch A\ntouch B\nunknown 0\n"),
    (Step::Read("include/config/auto.conf"), AUTO),
    (Step::Read("include/generated/autoconf.h"), HEADER),
    (Step::Args(&["record", "x.d", "x.o", "cc -c x.c"]), "0 record x.o generation 1 names 3\n"),
    (Step::Read(".x.o.cmd"), COMMAND_FILE),
    (Step::Args(&["stale", "x.o"]), "0 x.o fresh\n"),
    (Step::Args(&["outdated", "x.o", "cc -c x.c"]), "0 x.o fresh\n"),
    (Step::Args(&["why", "x.o"]), "0 x.o fresh\n"),
    (Step::Put("script", "stale x.o\n"), "done"),
    (Step::Args(&["batch", "script"]), "0 x.o fresh\n"),
    (Step::Args(&["preview", "K1", "only_b", "include/config/auto.conf"]), PREVIEW_OVER),
    (Step::Args(&["diff", "K1", "only_b"]), "0 A y -> n\n"),
    (Step::Args(&["diff", "--exit-code", "K1", "only_b"]), "1 A y -> n\n"),
    (Step::Args(&["diff", "--exit-code", "K1", "c1"]), "0 "),
    (Step::Args(&["diff", "--quiet", "K1", "c1"]), "0 "),
    (Step::Args(&["diff", "K1", "c2"]), "0 unknown D\n"),
    (Step::Args(&["diff", "--exit-code", "K1", "c3"]), "1 A y -> n\nunknown D\n"),
    (Step::Args(&["diff", "--quiet", "K1", "c3"]), "1 "),
    (Step::Args(&["status"]), "0 auto.conf: generation 1\nheader: same\n"),
    (Step::Args(&["status", "K1", "c1"]), "0 auto.conf: generation 1\nheader: same\nconfiguration: same\n"),
    (Step::Args(&["status", "K1", "c3"]), "1 auto.conf: generation 1\nheader: same\nconfiguration: changed 1\n"),
    (Step::Read("include/config/auto.conf"), AUTO),
    (Step::Args(&["sync", "K1", "c2"]), "0 generation 2\nunknown 1\n"),
];

/// Either form of a configuration is answered alike: `only_b`, and what conf would write of it. An unknown name is none of conf's.
#[rattlefmt::skip]
pub const BY_EITHER_FORM: &[(Step<'_>, &str)] = &[
    (Step::Put("w", "#\n# Automatically generated file; DO NOT EDIT.\n# Demo\n#\nCONFIG_B=m\n"), "done"),
    (Step::Put("w.h", "/*\n * Automatically generated file; DO NOT EDIT.\n * Demo\n */\n#define CONFIG_B_MODULE 1\n"), "done"),
    (Step::Args(&["sync", "K1", "c1"]), "0 generation 1\ntouch A\ntouch B\nunknown 0\n"),
    (Step::Args(&["record", "x.d", "x.o", "cc -c x.c"]), "0 record x.o generation 1 names 3\n"),
    (Step::Args(&["preview", "K1", "only_b", "include/config/auto.conf"]), PREVIEW_OVER),
    (Step::Args(&["preview", "--written", "w", "w.h", "include/config/auto.conf"]), PREVIEW_OVER),
    (Step::Args(&["diff", "--exit-code", "K1", "c3"]), "1 A y -> n\nunknown D\n"),
    (Step::Args(&["diff", "--exit-code", "--written", "w", "w.h"]), "1 A y -> n\n"),
    (Step::Args(&["diff", "--quiet", "--written", "w", "w.h"]), "1 "),
    (Step::Args(&["impact", "--json", "K1", "only_b", "x.o", "z.o"]), IMPACT_AS_JSON),
    (Step::Args(&["impact", "--json", "--written", "w", "w.h", "x.o", "z.o"]), IMPACT_AS_JSON),
    (Step::Read("include/config/auto.conf"), AUTO),
    (Step::Args(&["sync", "--written", "w", "w.h"]), "0 generation 2\ntouch A\nunknown 0\n"),
    (Step::Args(&["preview", "K1", "only_b", "include/config/auto.conf"]), NOTHING_OVER),
    (Step::Args(&["preview", "--written", "w", "w.h", "include/config/auto.conf"]), NOTHING_OVER),
    (Step::Args(&["stale", "x.o"]), "1 x.o stale A\n"),
];

/// What `depfile` leaves of `x.d`.
const RULE: &str =
    "x.o: \\\n  x.c \\\n  a.h \\\n  b.h \\\n  include/config/A \\\n  include/config/B \\\n  include/config/C\n";

/// The same where the header is `b.h`.
const RULE_WITHOUT_B: &str =
    "x.o: \\\n  x.c \\\n  a.h \\\n  include/config/A \\\n  include/config/B \\\n  include/config/C\n";

#[rattlefmt::skip]
pub const BY_RULES: &[(Step<'_>, &str)] = &[
    (Step::Args(&["depfile", "x.d", "x.o", "cc -c x.c"]), "2 confstamp: 41 NeverSynced\n"),
    (Step::Args(&["sync", "--stamps", "K2", "c1"]), "0 generation 1\ntouch A\ntouch B\nunknown 0\n"),
    (Step::Read("include/config/D"), ""),
    (Step::Read("include/config/B"), "1\n"),
    (Step::Args(&["depfile", "--header", "a b", "x.d", "x.o", "cc"]), "2 confstamp: 21 BadPath token 0\n"),
    (Step::Args(&["depfile", ".x.o.cmd", "x.o", "cc"]), "2 confstamp: 21 BadPath token 0\n"),
    (Step::Args(&["depfile", "x.d", "x.o", "cc -c x.c"]), "0 depfile x.o generation 1 names 3\n"),
    (Step::Read(".x.o.cmd"), COMMAND_FILE),
    (Step::Read("x.d"), RULE),
    (Step::Read("include/config/A"), "1\n"),
    (Step::Read("include/config/C"), ""),
    (Step::Args(&["stale", "x.o"]), "0 x.o fresh\n"),
    (Step::Put("x.d", "x.o: x.c a.h b.h\na.h:\nb.h:\n"), "done"),
    (Step::Args(&["depfile", "--header", "b.h", "x.d", "x.o", "cc"]), "0 depfile x.o generation 1 names 3\n"),
    (Step::Read("x.d"), RULE_WITHOUT_B),
];

#[rattlefmt::skip]
pub const QUERIES: &[(Step<'_>, &str)] = &[
    (Step::Args(&["sync", "K1", "c1"]), "0 generation 1\ntouch A\ntouch B\nunknown 0\n"),
    (Step::Args(&["record", "x.d", "x.o", "cc -c x.c"]), "0 record x.o generation 1 names 3\n"),
    (Step::Args(&["stale", "x.o", "z.o"]), "1 x.o fresh\nz.o stale no-command-file\n"),
    (Step::Args(&["stale", "x.o", "a$b"]), "2 x.o fresh\na$b refused 21 BadPath token 0\n"),
    (Step::Args(&["stale", "a$b", "z.o", "x.o"]), "2 a$b refused 21 BadPath token 0\nz.o stale no-command-file\nx.o fresh\n"),
    (Step::Put("objects", "x.o\n\na$b\r\n\r\n@z.o\n z.o"), "done"),
    (Step::Args(&["stale", "--from", "objects"]), FROM_OBJECTS),
    (Step::Args(&["stale", "y.o", "--from", "objects"]), BEHIND_A_WORD),
    (Step::Put("objects", "\n"), "done"),
    (Step::Args(&["stale", "--from", "objects"]), "0 "),
    (Step::Args(&["stale", "--from", "objects", "x.o"]), "0 x.o fresh\n"),
    (Step::Args(&["stale", "x.o", "--from", "none"]), "2 confstamp: 40 MissingFile none\n"),
    (Step::Args(&["stale", "x.o", "--from", "a$b"]), "2 confstamp: 21 BadPath token 0\n"),
    (Step::Args(&["why", "x.o", "z.o", "a$b"]), "2 x.o fresh\nz.o stale no-command-file\na$b refused 21 BadPath token 0\n"),
    (Step::Args(&["why", "./x.o"]), "1 ./x.o stale no-command-file\n  recorded as x.o\n"),
    (Step::Args(&["why", ".//./x.o", "d/x.o", "./z.o"]), SPELLINGS),
    (Step::Args(&["stale", "./x.o"]), "1 ./x.o stale no-command-file\n"),
    (Step::Put("./.x.o.cmd", COMMAND_FILE), "done"),
    (Step::Args(&["why", "./x.o"]), "2 ./x.o refused 23 BadCommandFile line 1\n  recorded as x.o\n"),
    (Step::Args(&["why", "x.o", "--from", "none"]), "2 confstamp: 40 MissingFile none\n"),
    (Step::Args(&["why", "--from", "a$b"]), "2 confstamp: 21 BadPath token 0\n"),
    (Step::Args(&["outdated", "x.o", "cc -O2 -c x.c"]), "1 x.o command-differs\n"),
    (Step::Args(&["outdated", "z.o", ""]), "1 z.o stale no-command-file\n"),
    (Step::Args(&["outdated", "x.o", "--", "-c"]), "1 x.o command-differs\n"),
    (Step::Args(&["stale", "--", "x.o", "-o"]), "1 x.o fresh\n-o stale no-command-file\n"),
    (Step::Args(&["outdated", "a$b", "cc"]), "2 a$b refused 21 BadPath token 0\n"),
    (Step::Args(&["outdated", "x.o", "a\nb"]), "2 x.o refused 22 BadCommand\n"),
    (Step::Args(&["impact", "K1", "c1", "x.o", "z.o"]), "1 x.o fresh\nz.o stale no-command-file\n1 of 2 stale\n"),
    (Step::Args(&["impact", "K1", "only_b", "x.o", "a$b"]), "2 x.o stale A\na$b refused 21 BadPath token 0\n1 of 2 stale\n"),
    (Step::Put("objects", "x.o\n"), "done"),
    (Step::Args(&["impact", "K1", "only_b", "z.o", "--from", "objects"]), "1 z.o stale no-command-file\nx.o stale A\n2 of 2 stale\n"),
    (Step::Args(&["impact", "K1", "only_b"]), "0 0 of 0 stale\n"),
    (Step::Args(&["impact", "K1", "only_b", "x.o", "--from", "none"]), "2 confstamp: 40 MissingFile none\n"),
    (Step::Args(&["impact", "K1", "faulty", "x.o", "--from", "none"]), "2 confstamp: 8 BadValue line 2\n  faulty:2: CONFIG_A=m\n"),
    (Step::Args(&["impact", "K1", "missing", "x.o"]), "2 confstamp: 40 MissingFile missing\n"),
    (Step::Args(&["impact", "K1", "a$b", "x.o"]), "2 confstamp: 21 BadPath token 0\n"),
    (Step::Read("include/config/auto.conf"), AUTO),
    (Step::Args(&["stale", "x.o"]), "0 x.o fresh\n"),
    (Step::Args(&["sync", "K1", "only_b"]), "0 generation 2\ntouch A\nunknown 0\n"),
    (Step::Args(&["outdated", "x.o", "cc -c x.c"]), "1 x.o stale A\n"),
    (Step::Args(&["stale", "x.o"]), "1 x.o stale A\n"),
    (Step::Args(&["why", "x.o"]), "1 x.o stale A\n  A generation 2 x.c\n"),
    (Step::Put("include/config/C", "9\n"), "done"),
    (Step::Put("objects", "x.o\nz.o\n"), "done"),
    (Step::Args(&["why", "x.o", "--from", "objects"]), CAUSES),
    (Step::Args(&["stale", "x.o"]), "1 x.o stale A\n"),
    (Step::Put("include/config/C", "C\n"), "done"),
    (Step::Args(&["why", "x.o"]), "2 x.o refused 31 BadStamp C\n"),
    (Step::Args(&["stale", "x.o"]), "1 x.o stale A\n"),
    (Step::Put("include/config/A", "01\n"), "done"),
    (Step::Args(&["stale", "x.o"]), "2 x.o refused 31 BadStamp A\n"),
    (Step::Put("include/config/A", "7"), "done"),
    (Step::Args(&["stale", "x.o"]), "2 x.o refused 31 BadStamp A\n"),
    (Step::Put(".x.o.cmd", CUT_COMMAND_FILE), "done"),
    (Step::Args(&["stale", "x.o"]), "2 x.o refused 23 BadCommandFile line 9\n"),
    (Step::Args(&["outdated", "x.o", "cc -c x.c"]), "2 x.o refused 23 BadCommandFile line 9\n"),
    (Step::Put(".x.o.cmd", "savedcmd_x.o := cc\n\nsource_x.o := x.c\n\ndeps_x.o := \\\n\nx.o: $(deps_x.o)\n\n$(deps_x.o):\n"), "done"),
    (Step::Args(&["stale", "x.o"]), "1 x.o stale not-numbered\n"),
    (Step::Args(&["why", "x.o"]), "1 x.o stale not-numbered\n"),
    (Step::Args(&["outdated", "x.o", "cc"]), "1 x.o stale not-numbered\n"),
    (Step::Put(".x.o.cmd", "savedcmd_x.o := cc\n\nsource_x.o := x.c\n\ndeps_x.o := \\\n\nx.o: $(deps_x.o)\n\n$(deps_x.o):\n#generation 5\n"), "done"),
    (Step::Args(&["stale", "x.o"]), "1 x.o stale generation-ahead\n"),
];

const REFUSED_AS_JSON: &str =
    "2 {\"target\":\"a\\\"b.o\",\"verdict\":\"no-command-file\",\"causes\":[]}\n{\"target\":\"\\\\\\tÃ©\u{7f}~ \",\"verdict\":\"refused\",\"causes\":[],\"refused\":\"21 BadPath token 0\"}\n{\"target\":\"x.o\",\"verdict\":\"fresh\",\"causes\":[]}\n";

const IMPACT_AS_JSON: &str =
    "1 {\"target\":\"x.o\",\"verdict\":\"stale\",\"causes\":[{\"name\":\"A\"}]}\n{\"target\":\"z.o\",\"verdict\":\"no-command-file\",\"causes\":[]}\n2 of 2 stale\n";

const CAUSES_AS_JSON: &str =
    "1 {\"target\":\"x.o\",\"verdict\":\"stale\",\"causes\":[{\"name\":\"A\",\"place\":\"x.c\",\"stamp\":2},{\"name\":\"C\",\"place\":\"a.h\",\"stamp\":9}]}\n";

/// The answers as lines of JSON: each verdict, one cause and several, and a target that would end its string.
#[rattlefmt::skip]
pub const AS_JSON: &[(Step<'_>, &str)] = &[
    (Step::Args(&["sync", "K1", "c1"]), "0 generation 1\ntouch A\ntouch B\nunknown 0\n"),
    (Step::Args(&["record", "x.d", "x.o", "cc -c x.c"]), "0 record x.o generation 1 names 3\n"),
    (Step::Put("objects", "a\"b.o\n\\\té\u{7f}~ \nx.o"), "done"),
    (Step::Args(&["stale", "--json", "--from", "objects"]), REFUSED_AS_JSON),
    (Step::Args(&["why", "--from", "objects", "--json"]), REFUSED_AS_JSON),
    (Step::Args(&["impact", "--json", "K1", "only_b", "x.o", "z.o"]), IMPACT_AS_JSON),
    (Step::Args(&["impact", "--json", "K1", "faulty", "x.o"]), "2 confstamp: 8 BadValue line 2\n  faulty:2: CONFIG_A=m\n"),
    (Step::Args(&["sync", "K1", "only_b"]), "0 generation 2\ntouch A\nunknown 0\n"),
    (Step::Put("include/config/C", "9\n"), "done"),
    (Step::Args(&["stale", "--json", "x.o"]), "1 {\"target\":\"x.o\",\"verdict\":\"stale\",\"causes\":[{\"name\":\"A\"}]}\n"),
    (Step::Args(&["why", "--json", "x.o"]), CAUSES_AS_JSON),
    (Step::Put("include/config/C", "C\n"), "done"),
    (Step::Args(&["why", "--json", "x.o"]), "2 {\"target\":\"x.o\",\"verdict\":\"refused\",\"causes\":[],\"refused\":\"31 BadStamp C\"}\n"),
    (Step::Put(".x.o.cmd", "savedcmd_x.o := cc\n\nsource_x.o := x.c\n\ndeps_x.o := \\\n\nx.o: $(deps_x.o)\n\n$(deps_x.o):\n"), "done"),
    (Step::Args(&["stale", "--json", "x.o"]), "1 {\"target\":\"x.o\",\"verdict\":\"not-numbered\",\"causes\":[]}\n"),
    (Step::Put(".x.o.cmd", "savedcmd_x.o := cc\n\nsource_x.o := x.c\n\ndeps_x.o := \\\n\nx.o: $(deps_x.o)\n\n$(deps_x.o):\n#generation 5\n"), "done"),
    (Step::Args(&["why", "--json", "x.o"]), "1 {\"target\":\"x.o\",\"verdict\":\"generation-ahead\",\"causes\":[]}\n"),
];

/// The first file of a later rule is scanned, and not listed: `Z` stands after the file before it.
#[rattlefmt::skip]
pub const SECOND_RULE: &[(Step<'_>, &str)] = &[
    (Step::Args(&["sync", "K1", "c1"]), "0 generation 1\ntouch A\ntouch B\nunknown 0\n"),
    (Step::Put("x.d", "x.o: x.c a.h\ny.o: t.s b.h\n"), "done"),
    (Step::Put("x.c", ""), "done"),
    (Step::Put("a.h", ""), "done"),
    (Step::Put("t.s", "CONFIG_Z\n"), "done"),
    (Step::Put("b.h", ""), "done"),
    (Step::Args(&["record", "x.d", "x.o", "cc -c x.c"]), "0 record x.o generation 1 names 1\n"),
    (Step::Read(".x.o.cmd"), "savedcmd_x.o := cc -c x.c\n\nsource_x.o := x.c\n\ndeps_x.o := \\\n  a.h \\\n    $(wildcard include/config/Z) \\\n  b.h \\\n\nx.o: $(deps_x.o)\n\n$(deps_x.o):\n#generation 1\n"),
];

/// The command is compared before auto.conf is looked for.
#[rattlefmt::skip]
pub const WITHOUT_AUTO_CONF: &[(Step<'_>, &str)] = &[
    (Step::Put(".x.o.cmd", COMMAND_FILE), "done"),
    (Step::Args(&["outdated", "x.o", "cc -O2 -c x.c"]), "1 x.o command-differs\n"),
    (Step::Args(&["outdated", "x.o", "cc -c x.c"]), "2 x.o refused 41 NeverSynced\n"),
    (Step::Args(&["stale", "x.o"]), "2 x.o refused 41 NeverSynced\n"),
];

#[rattlefmt::skip]
pub const USUAL_TREE: &[(Step<'_>, &str)] = &[
    (Step::Put("include/config/auto.conf", USUAL_AUTO), "done"),
    (Step::Put("include/config/A", ""), "done"),
    (Step::Args(&["record", "x.d", "x.o", "cc -c x.c"]), "2 confstamp: 41 NeverSynced\n"),
    (Step::Args(&["sync", "K1", "c1"]), "0 generation 1\ntouch A\ntouch B\nunknown 0\n"),
    (Step::Read("include/config/A"), "1\n"),
    (Step::Args(&["record", "x.d", "x.o", "cc -c x.c"]), "0 record x.o generation 1 names 3\n"),
];

/// A tree of the untyped form: its first synchronisation touches all names, and the next one none.
#[rattlefmt::skip]
pub const UNTYPED_TREE: &[(Step<'_>, &str)] = &[
    (Step::Put("include/config/auto.conf", UNTYPED_AUTO), "done"),
    (Step::Put("include/config/A", "1\n"), "done"),
    (Step::Put("include/config/B", "1\n"), "done"),
    (Step::Put("include/generated/autoconf.h", HEADER), "done"),
    (Step::Args(&["record", "x.d", "x.o", "cc -c x.c"]), "0 record x.o generation 1 names 3\n"),
    (Step::Args(&["stale", "x.o"]), "0 x.o fresh\n"),
    (Step::Args(&["sync", "K1", "c1"]), "0 generation 2\ntouch A\ntouch B\nunknown 0\n"),
    (Step::Args(&["stale", "x.o"]), "1 x.o stale A\n"),
    (Step::Args(&["record", "x.d", "x.o", "cc -c x.c"]), "0 record x.o generation 2 names 3\n"),
    (Step::Args(&["sync", "K1", "c1"]), "0 generation 3\nunknown 0\n"),
    (Step::Args(&["stale", "x.o"]), "0 x.o fresh\n"),
];

/// A bool that becomes a string of the same text.
#[rattlefmt::skip]
pub const RETYPED: &[(Step<'_>, &str)] = &[
    (Step::Put("bool", "config S\n\tbool\n"), "done"),
    (Step::Put("string", "config S\n\tstring\n"), "done"),
    (Step::Put("y", "CONFIG_S=y\n"), "done"),
    (Step::Put("quoted", "CONFIG_S=\"y\"\n"), "done"),
    (Step::Args(&["sync", "bool", "y"]), "0 generation 1\ntouch S\nunknown 0\n"),
    (Step::Args(&["preview", "string", "quoted", "include/config/auto.conf"]),
        "0 touch S\n#\n# Automatically generated file; DO NOT EDIT.\n# Main menu\n#\n#typed\n#type S string\nCONFIG_S=y\n#generation 2\n"),
    (Step::Args(&["sync", "string", "quoted"]), "0 generation 2\ntouch S\nunknown 0\n"),
    (Step::Read("include/config/auto.conf"), "#\n# Automatically generated file; DO NOT EDIT.\n# Main menu\n#\n#typed\n#type S string\nCONFIG_S=y\n#generation 2\n"),
];
