//! Scripts: a change and a change back, refused lines, and lines that ask for nothing.
use crate::steps::{Step, play_each};
use std::test::Fail;

const CHANGE_AND_BACK: &str = "sync K2 c1
record x.d x.o cc -c x.c
sync K2 c2
stale x.o
sync K2 c3
stale x.o
sync K2 c2
stale x.o
record x.d x.o cc -c x.c
stale x.o
";

const CHANGE_AND_BACK_REPORTED: &str = "1 sync generation 1 touched 2 unknown 0
record x.o generation 1 names 3
sync generation 2 touched 1 unknown 0
x.o fresh
sync generation 3 touched 1 unknown 0
x.o stale A
sync generation 4 touched 1 unknown 0
x.o stale A
record x.o generation 4 names 3
x.o fresh
";

/// A refusal is a line, and the commands after it run.
const REFUSED_LINES: &str = "sync K1 faulty
record missing x.o cc
stale a$b
stale x.o
sync K1 c1
";

const REFUSED_LINES_REPORTED: &str = "2 refused 8 BadValue line 2
refused 40 MissingFile missing
a$b refused 21 BadPath token 0
x.o stale no-command-file
sync generation 1 touched 2 unknown 0
";

#[rattlefmt::skip]
const CHANGES: &[(Step<'_>, &str)] = &[
    (Step::Put("script", CHANGE_AND_BACK), "done"),
    (Step::Args(&["batch", "script"]), CHANGE_AND_BACK_REPORTED),
];

#[rattlefmt::skip]
const REFUSALS: &[(Step<'_>, &str)] = &[
    (Step::Put("script", REFUSED_LINES), "done"),
    (Step::Args(&["batch", "script"]), REFUSED_LINES_REPORTED),
];

#[rattlefmt::skip]
const QUIET_LINES: &[(Step<'_>, &str)] = &[
    (Step::Put("script", "# nothing\n\n#\n"), "done"),
    (Step::Args(&["batch", "script"]), "0 "),
    (Step::Put("script", ""), "done"),
    (Step::Args(&["batch", "script"]), "0 "),
    (Step::Put("script", "sync K1 c1\r\nrecord x.d x.o cc  -c x.c\nstale x.o"), "done"),
    (Step::Args(&["batch", "script"]), "0 sync generation 1 touched 2 unknown 0\nrecord x.o generation 1 names 3\nx.o fresh\n"),
];

/// The command of a record is the rest of its line, and may be empty.
#[rattlefmt::skip]
const EMPTY_COMMAND: &[(Step<'_>, &str)] = &[
    (Step::Args(&["sync", "K1", "c1"]), "0 generation 1\ntouch A\ntouch B\nunknown 0\n"),
    (Step::Put("script", "record x.d x.o \n"), "done"),
    (Step::Args(&["batch", "script"]), "0 record x.o generation 1 names 3\n"),
    (Step::Read(".x.o.cmd"), "savedcmd_x.o := \n\nsource_x.o := x.c\n\ndeps_x.o := \\\n    $(wildcard include/config/A) \\\n    $(wildcard include/config/B) \\\n  a.h \\\n    $(wildcard include/config/C) \\\n  b.h \\\n\nx.o: $(deps_x.o)\n\n$(deps_x.o):\n#generation 1\n"),
];

#[test]
fn scripts(rt: HostRuntime) -> Result<(), Fail> {
    play_each(
        &rt,
        rt.alloc(),
        &[CHANGES, REFUSALS, QUIET_LINES, EMPTY_COMMAND],
    )
}
