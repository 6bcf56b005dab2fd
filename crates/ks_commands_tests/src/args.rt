//! Which request the arguments make, and which arguments are refused. What help and the version print, tests/main holds against
//! the built program.
use crate::steps::{Step, check, check_text, reported};
use ks_cli::request_of;
use ks_tree::{BackdatingTree, MemoryTree};
use std::alloc::{AllocError, Global};
use std::test::Fail;

#[rattlefmt::skip]
const MEANINGS: &[(&str, &[&str], &str)] = &[
    ("sync", &["sync", "K", "c"], r#"Sync { config: ConfigPaths { form: Kconfig, first: "K", second: "c" }, stamps: Touched }"#),
    ("sync with all stamps", &["sync", "--stamps", "K", "c"], r#"Sync { config: ConfigPaths { form: Kconfig, first: "K", second: "c" }, stamps: Declared }"#),
    ("sync with what conf wrote", &["sync", "--written", "a", "h"], r#"Sync { config: ConfigPaths { form: Written, first: "a", second: "h" }, stamps: Touched }"#),
    ("a preview of what conf wrote", &["preview", "a", "--written", "h", "old"], r#"Preview { config: ConfigPaths { form: Written, first: "a", second: "h" }, old: Some("old") }"#),
    ("diff with what conf wrote", &["diff", "--written", "--quiet", "a", "h"], r#"Diff { config: ConfigPaths { form: Written, first: "a", second: "h" }, report_style: Status }"#),
    ("impact of what conf wrote", &["impact", "--written", "a", "h", "x.o"], r#"Impact { config: ConfigPaths { form: Written, first: "a", second: "h" }, targets: Targets { args: ["x.o"], from: None }, format: Text }"#),
    ("a first preview", &["preview", "K", "c"], r#"Preview { config: ConfigPaths { form: Kconfig, first: "K", second: "c" }, old: None }"#),
    ("a preview", &["preview", "K", "c", "a"], r#"Preview { config: ConfigPaths { form: Kconfig, first: "K", second: "c" }, old: Some("a") }"#),
    ("diff", &["diff", "K", "c"], r#"Diff { config: ConfigPaths { form: Kconfig, first: "K", second: "c" }, report_style: Lines }"#),
    ("diff with its status", &["diff", "--exit-code", "K", "c"], r#"Diff { config: ConfigPaths { form: Kconfig, first: "K", second: "c" }, report_style: LinesAndStatus }"#),
    ("diff by its status alone", &["diff", "K", "c", "--quiet"], r#"Diff { config: ConfigPaths { form: Kconfig, first: "K", second: "c" }, report_style: Status }"#),
    ("diff with both", &["diff", "--quiet", "K", "--exit-code", "c"], r#"Diff { config: ConfigPaths { form: Kconfig, first: "K", second: "c" }, report_style: Status }"#),
    ("diff of a file that looks like an option", &["diff", "K", "--", "--quiet"], r#"Diff { config: ConfigPaths { form: Kconfig, first: "K", second: "--quiet" }, report_style: Lines }"#),
    ("status", &["status", "K", "c"], r#"Status { config: Some(ConfigPaths { form: Kconfig, first: "K", second: "c" }) }"#),
    ("status with what conf wrote", &["status", "a", "--written", "h"], r#"Status { config: Some(ConfigPaths { form: Written, first: "a", second: "h" }) }"#),
    ("status of the tree alone", &["status"], r#"Status { config: None }"#),
    ("status with a Kconfig alone", &["status", "K"], r#"Status { config: Some(ConfigPaths { form: Kconfig, first: "K", second: "" }) }"#),
    ("diff of a file called true", &["diff", "--exit-code", "true", "true"], r#"Diff { config: ConfigPaths { form: Kconfig, first: "true", second: "true" }, report_style: LinesAndStatus }"#),
    ("fixdep", &["fixdep", "x.d", "x.o", "cc"], r#"Fixdep { depfile: "x.d", target: "x.o", command: "cc" }"#),
    ("record", &["record", "x.d", "x.o", "cc"], r#"Record { depfile: "x.d", target: "x.o", command: "cc", after: Kept, options: RecordWords { adds_own_lines: false, before_sync: false, elsewhere: None } }"#),
    ("record without its file", &["record", "--remove-depfile", "x.d", "x.o", "cc"], r#"Record { depfile: "x.d", target: "x.o", command: "cc", after: Removed, options: RecordWords { adds_own_lines: false, before_sync: false, elsewhere: None } }"#),
    ("record with cmd_", &["record", "--cmd", "x.d", "x.o", "cc"], r#"Record { depfile: "x.d", target: "x.o", command: "cc", after: Kept, options: RecordWords { adds_own_lines: true, before_sync: false, elsewhere: None } }"#),
    ("record before sync", &["record", "x.d", "x.o", "cc", "--before-sync"], r#"Record { depfile: "x.d", target: "x.o", command: "cc", after: Kept, options: RecordWords { adds_own_lines: false, before_sync: true, elsewhere: None } }"#),
    ("record of a compiler elsewhere", &["record", "--in", "/d", "--tree", "../t", "x.d", "x.o", "cc"], r#"Record { depfile: "x.d", target: "x.o", command: "cc", after: Kept, options: RecordWords { adds_own_lines: false, before_sync: false, elsewhere: Some(ElsewherePaths { directory: "/d", tree: "../t" }) } }"#),
    ("record of a tree without a name", &["record", "x.d", "x.o", "cc", "--in", "/d"], r#"Record { depfile: "x.d", target: "x.o", command: "cc", after: Kept, options: RecordWords { adds_own_lines: false, before_sync: false, elsewhere: Some(ElsewherePaths { directory: "/d", tree: "" }) } }"#),
    ("record of a tree's name alone", &["record", "x.d", "x.o", "cc", "--tree", "/t"], r#"Record { depfile: "x.d", target: "x.o", command: "cc", after: Kept, options: RecordWords { adds_own_lines: false, before_sync: false, elsewhere: None } }"#),
    ("depfile", &["depfile", "x.d", "x.o", "cc"], r#"Depfile { header: None, strict: None, elsewhere: None, depfile: "x.d", target: "x.o", command: "cc" }"#),
    ("depfile with another header", &["depfile", "x.d", "x.o", "cc", "--header", "a.h"], r#"Depfile { header: Some("a.h"), strict: None, elsewhere: None, depfile: "x.d", target: "x.o", command: "cc" }"#),
    ("a strict depfile", &["depfile", "x.d", "x.o", "cc", "--strict", "d/a.h"], r#"Depfile { header: None, strict: Some(StrictPaths { alias: "d/a.h", tools: [] }), elsewhere: None, depfile: "x.d", target: "x.o", command: "cc" }"#),
    ("a strict depfile with its tools", &["depfile", "--tools", "/b/cc", "/b/env", "--strict", "d/a.h", "x.d", "x.o", "cc"], r#"Depfile { header: None, strict: Some(StrictPaths { alias: "d/a.h", tools: ["/b/cc", "/b/env"] }), elsewhere: None, depfile: "x.d", target: "x.o", command: "cc" }"#),
    ("tools of no strict depfile", &["depfile", "x.d", "x.o", "cc", "--tools", "/b/cc"], r#"Depfile { header: None, strict: None, elsewhere: None, depfile: "x.d", target: "x.o", command: "cc" }"#),
    ("depfile of a compiler elsewhere", &["depfile", "x.d", "x.o", "cc", "--tree", "/t", "--in", "/d"], r#"Depfile { header: None, strict: None, elsewhere: Some(ElsewherePaths { directory: "/d", tree: "/t" }), depfile: "x.d", target: "x.o", command: "cc" }"#),
    ("repair without what was kept", &["repair", "--stamps", "s", "--targets", "t"], r#"Repair { stamps: "s", targets: "t", kept: None }"#),
    ("repair by what was kept", &["repair", "a", "--targets", "t", "h", "--stamps", "s"], r#"Repair { stamps: "s", targets: "t", kept: Some(KeptPaths { auto: "a", header: "h" }) }"#),
    ("repair without a header", &["repair", "--stamps", "s", "--targets", "t", "a"], r#"Repair { stamps: "s", targets: "t", kept: Some(KeptPaths { auto: "a", header: "" }) }"#),
    ("mark", &["mark", "--from", "f"], r#"Mark { which: Recorded, targets: Targets { args: [], from: Some("f") } }"#),
    ("mark of what has no number too", &["mark", "x.o", "--unrecorded"], r#"Mark { which: Unrecorded, targets: Targets { args: ["x.o"], from: None } }"#),
];

/// Those of queries, and what is read as such a one.
#[rattlefmt::skip]
const MEANINGS_OF_QUERIES: &[(&str, &[&str], &str)] = &[
    ("stale of one", &["stale", "x.o"], r#"Stale { targets: Targets { args: ["x.o"], from: None }, format: Text }"#),
    ("stale of several", &["stale", "x.o", "z.o", "x.o"], r#"Stale { targets: Targets { args: ["x.o", "z.o", "x.o"], from: None }, format: Text }"#),
    ("stale of a file", &["stale", "--from", "f"], r#"Stale { targets: Targets { args: [], from: Some("f") }, format: Text }"#),
    ("stale of a word and a file", &["stale", "x.o", "--from", "f"], r#"Stale { targets: Targets { args: ["x.o"], from: Some("f") }, format: Text }"#),
    ("a file between two arguments", &["stale", "x.o", "--from=-f", "y.o"], r#"Stale { targets: Targets { args: ["x.o", "y.o"], from: Some("-f") }, format: Text }"#),
    ("a word that looks like one", &["stale", "--", "--from", "f"], r#"Stale { targets: Targets { args: ["--from", "f"], from: None }, format: Text }"#),
    ("why of several", &["why", "x.o", "z.o"], r#"Why { targets: Targets { args: ["x.o", "z.o"], from: None }, format: Text }"#),
    ("why of a word and a file", &["why", "--from", "f", "x.o"], r#"Why { targets: Targets { args: ["x.o"], from: Some("f") }, format: Text }"#),
    ("impact of several", &["impact", "K", "c", "x.o", "z.o"], r#"Impact { config: ConfigPaths { form: Kconfig, first: "K", second: "c" }, targets: Targets { args: ["x.o", "z.o"], from: None }, format: Text }"#),
    ("impact of a file", &["impact", "--from", "f", "K", "c"], r#"Impact { config: ConfigPaths { form: Kconfig, first: "K", second: "c" }, targets: Targets { args: [], from: Some("f") }, format: Text }"#),
    ("stale as JSON", &["stale", "--json", "x.o"], r#"Stale { targets: Targets { args: ["x.o"], from: None }, format: Json }"#),
    ("why as JSON, said after a word", &["why", "x.o", "--json"], r#"Why { targets: Targets { args: ["x.o"], from: None }, format: Json }"#),
    ("impact of a file as JSON", &["impact", "--json", "--from", "f", "K", "c"], r#"Impact { config: ConfigPaths { form: Kconfig, first: "K", second: "c" }, targets: Targets { args: [], from: Some("f") }, format: Json }"#),
    ("an object of that name", &["stale", "--", "--json"], r#"Stale { targets: Targets { args: ["--json"], from: None }, format: Text }"#),
    ("batch", &["batch", "steps"], r#"Batch { script: "steps" }"#),
    ("outdated", &["outdated", "x.o", "cc"], r#"Outdated { target: "x.o", command: "cc" }"#),
    ("an empty command", &["outdated", "x.o", ""], r#"Outdated { target: "x.o", command: "" }"#),
    ("an empty file", &["batch", ""], r#"Batch { script: "" }"#),
    ("a command with blanks", &["outdated", "x.o", "cc -c x.c"], r#"Outdated { target: "x.o", command: "cc -c x.c" }"#),
    ("a hyphen alone", &["batch", "-"], r#"Batch { script: "-" }"#),
    ("a flag after --", &["outdated", "x.o", "--", "-c"], r#"Outdated { target: "x.o", command: "-c" }"#),
    ("all after --", &["sync", "--", "-K", "--help"], r#"Sync { config: ConfigPaths { form: Kconfig, first: "-K", second: "--help" }, stamps: Touched }"#),
    ("-- after --", &["stale", "--", "x.o", "--"], r#"Stale { targets: Targets { args: ["x.o", "--"], from: None }, format: Text }"#),
    ("names of commands", &["stale", "sync", "help"], r#"Stale { targets: Targets { args: ["sync", "help"], from: None }, format: Text }"#),
    ("users of two symbols", &["users", "A", "--from", "f", "CONFIG_B"], r#"Users { symbols: ["A", "CONFIG_B"], targets: Targets { args: [], from: Some("f") } }"#),
    ("cost of one", &["cost", "x.o"], r#"Cost { top: None, targets: Targets { args: ["x.o"], from: None } }"#),
    ("the most expensive of a file", &["cost", "--top", "007", "--from", "f"], r#"Cost { top: Some(7), targets: Targets { args: [], from: Some("f") } }"#),
];

/// The request that the arguments make.
fn meaning(alloc: Global, args: &[&str]) -> Result<String, AllocError> {
    match request_of(alloc, args) {
        Ok(request) => format!(in alloc; "{request:?}"),
        Err(_) => String::from_str(alloc, "refused"),
    }
}

#[test]
fn args_are_taken_as_meant(rt: HostRuntime) -> Result<(), AllocError> {
    for &(name, args, want) in MEANINGS {
        let found = meaning(rt.alloc(), args)?;
        check_text(&rt, name, found.as_str(), want);
    }
    Ok(())
}

#[test]
fn queries_are_taken_as_meant(rt: HostRuntime) -> Result<(), AllocError> {
    for &(name, args, want) in MEANINGS_OF_QUERIES {
        let found = meaning(rt.alloc(), args)?;
        check_text(&rt, name, found.as_str(), want);
    }
    Ok(())
}

#[rattlefmt::skip]
const ARGS_THAT_ARE_NO_COMMAND: &[(&str, &[&str])] = &[
    ("no words", &[]),
    ("another command", &["bogus"]),
    ("a command with an empty name", &["", "K", "c"]),
    ("a beginning of a command", &["syn", "K", "c"]),
    ("a command after --", &["--", "sync", "K", "c"]),
    ("another flag", &["--bogus"]),
    ("a flag of a command", &["sync", "-K", "c"]),
    ("a negative number", &["outdated", "x.o", "-1"]),
    ("sync of one word", &["sync", "K"]),
    ("sync of three", &["sync", "K", "c", "a"]),
    ("preview of one word", &["preview", "K"]),
    ("preview of four", &["preview", "K", "c", "a", "b"]),
    ("diff of one word", &["diff", "K"]),
    ("diff of three", &["diff", "K", "c", "a"]),
    ("diff of one word, and an option", &["diff", "--quiet", "K"]),
    ("diff with a value", &["diff", "--exit-code=1", "K", "c"]),
    ("diff with an option twice", &["diff", "--quiet", "--quiet", "K", "c"]),
    ("sync with an option of diff", &["sync", "--quiet", "K", "c"]),
    ("impact of one word", &["impact", "K"]),
    ("fixdep of two arguments", &["fixdep", "x.d", "x.o"]),
    ("fixdep of four", &["fixdep", "x.d", "x.o", "cc", "-c"]),
    ("record of two arguments", &["record", "x.d", "x.o"]),
    ("record of four", &["record", "x.d", "x.o", "cc", "x.c"]),
    ("depfile of two arguments", &["depfile", "x.d", "x.o"]),
    ("repair without its stamps", &["repair", "--targets", "t", "a", "h"]),
    ("repair without its objects", &["repair", "--stamps", "s"]),
    ("repair of three files", &["repair", "--stamps", "s", "--targets", "t", "a", "h", "x"]),
    ("depfile of two headers", &["depfile", "--header", "a.h", "--header", "b.h", "x.d", "x.o", "cc"]),
    ("the stamps of what conf wrote", &["sync", "--stamps", "--written", "a", "h"]),
    ("the stamps of what conf wrote, the other way round", &["sync", "a", "--written", "h", "--stamps"]),
    ("preview with an option of sync", &["preview", "--stamps", "K", "c"]),
    ("sync with an option twice", &["sync", "--stamps", "--stamps", "K", "c"]),
    ("stale of a file without a name", &["stale", "x.o", "--from"]),
    ("stale of two files", &["stale", "--from", "f", "--from", "g"]),
    ("sync of a file of targets", &["sync", "K", "c", "--from", "f"]),
    ("JSON twice", &["stale", "--json", "--json", "x.o"]),
    ("JSON with a word of its own", &["stale", "--json=yes", "x.o"]),
    ("sync as JSON", &["sync", "--json", "K", "c"]),
    ("batch as JSON", &["batch", "--json", "a"]),
    ("outdated as JSON", &["outdated", "--json", "x.o", "cc"]),
    ("batch of no word", &["batch"]),
    ("batch of two", &["batch", "a", "b"]),
    ("outdated of one word", &["outdated", "x.o"]),
    ("outdated of three", &["outdated", "x.o", "cc", "x.c"]),
    ("users of no file", &["users", "A"]),
    ("users of no symbol", &["users", "--from", "f"]),
    ("the most expensive of no number", &["cost", "x.o", "--top"]),
    ("the most expensive of a text", &["cost", "x.o", "--top", "x"]),
    ("the most expensive of a number below 0", &["cost", "x.o", "--top=-1"]),
    ("the most expensive of a number that is too large", &["cost", "x.o", "--top", "18446744073709551616"]),
    ("the most expensive of two numbers", &["cost", "--top", "1", "--top", "2"]),
];

#[test]
fn args_that_are_no_command(rt: HostRuntime) -> Result<(), Fail> {
    for &(name, args) in ARGS_THAT_ARE_NO_COMMAND {
        let mut tree = BackdatingTree::new(rt.alloc(), MemoryTree::new(rt.alloc()));
        let found = reported(rt.alloc(), &mut tree, Step::Args(args))?;
        check(&rt, name, found.starts_with("2 error: "));
    }
    Ok(())
}
