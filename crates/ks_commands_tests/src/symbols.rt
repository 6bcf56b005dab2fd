//! The questions by symbol: which objects name one, and what each costs.
use crate::steps::{Step, play_each};
use std::test::Fail;

const RECORDED: &str =
    "savedcmd_y.o := cc\n\nsource_y.o := y.c\n\ndeps_y.o := \\\n    $(wildcard include/config/B) \\\n    $(wildcard include/config/AB) \\\n  b.h \\\n    $(wildcard include/config/B) \\\n\ny.o: $(deps_y.o)\n\n$(deps_y.o):\n";

const USES: &str =
    "0 x.o B x.c\ny.o B y.c\ny.o AB y.c\ny.o B b.h\nz.o no-command-file\n2 of 3 objects\n";

const REFUSED: &str =
    "2 y.o refused 23 BadCommandFile line 1\na$b refused 21 BadPath token 0\nx.o C a.h\n1 of 3 objects\n";

const COSTS: &str = "0 z.o no-command-file\nB 2\nA 1\nAB 1\nC 1\n";

#[rattlefmt::skip]
const USERS: &[(Step<'_>, &str)] = &[
    (Step::Args(&["sync", "K1", "c1"]), "0 generation 1\ntouch A\ntouch B\nunknown 0\n"),
    (Step::Args(&["record", "x.d", "x.o", "cc -c x.c"]), "0 record x.o generation 1 names 3\n"),
    (Step::Put(".y.o.cmd", RECORDED), "done"),
    (Step::Put("objects", "x.o\ny.o\n\nz.o\ny.o\r\nx.o"), "done"),
    (Step::Args(&["users", "--from", "objects", "A"]), "0 x.o A x.c\nz.o no-command-file\n1 of 3 objects\n"),
    (Step::Args(&["users", "CONFIG_C", "--from", "objects"]), "0 x.o C a.h\nz.o no-command-file\n1 of 3 objects\n"),
    (Step::Args(&["users", "--from", "objects", "CONFIG_CONFIG_C", "CONFIG_", "A=y", ""]), "0 z.o no-command-file\n0 of 3 objects\n"),
    (Step::Put("objects", "y.o\nx.o\n"), "done"),
    (Step::Args(&["users", "--from", "objects", "AB"]), "0 y.o AB y.c\n1 of 2 objects\n"),
    (Step::Put("objects", "\n"), "done"),
    (Step::Args(&["users", "--from", "objects", "A"]), "0 0 of 0 objects\n"),
    (Step::Put("objects", "y.o\na$b\nx.o\n"), "done"),
    (Step::Put(".y.o.cmd", "cmd_y.o := cc\n"), "done"),
    (Step::Args(&["users", "--from", "objects", "C"]), REFUSED),
    (Step::Args(&["users", "--from", "none", "C"]), "2 confstamp: 40 MissingFile none\n"),
    (Step::Args(&["users", "--from", "a$b", "C"]), "2 confstamp: 21 BadPath token 0\n"),
];

#[rattlefmt::skip]
const SEVERAL: &[(Step<'_>, &str)] = &[
    (Step::Args(&["sync", "K1", "c1"]), "0 generation 1\ntouch A\ntouch B\nunknown 0\n"),
    (Step::Args(&["record", "x.d", "x.o", "cc -c x.c"]), "0 record x.o generation 1 names 3\n"),
    (Step::Put(".y.o.cmd", RECORDED), "done"),
    (Step::Put("objects", "x.o\ny.o\nz.o\nx.o\n"), "done"),
    (Step::Args(&["users", "--from", "objects", "B", "AB", "CONFIG_B"]), USES),
];

#[rattlefmt::skip]
const COST: &[(Step<'_>, &str)] = &[
    (Step::Args(&["sync", "K1", "c1"]), "0 generation 1\ntouch A\ntouch B\nunknown 0\n"),
    (Step::Args(&["record", "x.d", "x.o", "cc -c x.c"]), "0 record x.o generation 1 names 3\n"),
    (Step::Put(".y.o.cmd", RECORDED), "done"),
    (Step::Put("objects", "y.o\nz.o\n"), "done"),
    (Step::Args(&["cost", "x.o"]), "0 A 1\nB 1\nC 1\n"),
    (Step::Args(&["cost", "x.o", "y.o", "x.o", "--from", "objects"]), COSTS),
    (Step::Args(&["cost", "x.o", "y.o", "--top", "2"]), "0 B 2\nA 1\n"),
    (Step::Args(&["cost", "x.o", "--top", "+2"]), "0 A 1\nB 1\n"),
    (Step::Args(&["cost", "x.o", "--top", "0"]), "0 "),
    (Step::Args(&["cost", "x.o", "--top", "18446744073709551615"]), "0 A 1\nB 1\nC 1\n"),
    (Step::Args(&["cost", "--top", "3"]), "0 "),
    (Step::Args(&["cost", "a$b", "x.o", "--top", "1"]), "2 a$b refused 21 BadPath token 0\nA 1\n"),
    (Step::Args(&["cost", "--from", "none"]), "2 confstamp: 40 MissingFile none\n"),
    (Step::Put("include/config/auto.conf", "CONFIG\n"), "done"),
    (Step::Put("include/config/A", "A\n"), "done"),
    (Step::Args(&["cost", "x.o", "--top", "1"]), "0 A 1\n"),
];

#[test]
fn queries_by_symbol(rt: HostRuntime) -> Result<(), Fail> {
    play_each(&rt, rt.alloc(), &[USERS, SEVERAL, COST])
}
