//! Texts with known names in U-Boot, in BusyBox and in coreboot, in pieces of several sizes.
ghost use Rattle.std.specs.Prelude.{◌<◌};

use crate::check::{check_bytes, check_cut};
use crate::fixdep::{in_pieces, note_source};
use ks_fixdep::{
    DepError, Header, NamesBySource, Prerequisites, ScanRules, listed_names, read_depfile,
    read_depfile_without, record_text,
};
use ks_symbols::{Dialect, Name, Seed};
use std::alloc::{AllocError, Global};
use std::process::Abort;
use std::test::Fail;

/// Scans a source that comes in these pieces, as the next prerequisite.
fn scan_by(
    found: &mut NamesBySource,
    rules: ScanRules,
    pieces: &[&[u8]],
) -> Result<(), AllocError> {
    for piece in pieces {
        found.scan.feed_as(rules, piece)?;
    }
    found.scan.end_source_as(rules)?;
    note_source(found)
}

/// Names, each after a space.
fn spelled(alloc: Global, names: &[Name]) -> Result<Vec<u8>, AllocError> {
    let mut all = Vec::new(alloc);
    for name in names {
        all.push(b' ')?;
        all.extend_from_slice(name.as_bytes())?;
    }
    Ok(all)
}

/// The names that the record of a scanned source lists, each after a space.
fn listed(alloc: Global, found: &mut NamesBySource) -> Result<Vec<u8>, DepError> {
    let read = read_depfile(alloc, b"x.o: x.c")?;
    record_text(alloc, b"x.o", b"cc", &read, found, None)?;
    Ok(spelled(alloc, &listed_names(alloc, found)?)?)
}

/// Scans a source, and lists the names of its record.
fn listed_by(
    alloc: Global,
    rules: ScanRules,
    pieces: &[&[u8]],
    found: &mut NamesBySource,
) -> Result<Vec<u8>, DepError> {
    scan_by(found, rules, pieces)?;
    listed(alloc, found)
}

/// The names of a text that comes in pieces of a size, each after a space.
fn names_by(alloc: Global, rules: ScanRules, text: &[u8], size: usize) -> Result<Vec<u8>, DepError>
    requires { 0 < size }
{
    let pieces = in_pieces(alloc, text, size)?;
    let mut found = NamesBySource::with_seed(alloc, Seed::new(0));
    listed_by(alloc, rules, &pieces, &mut found)
}

/// The names of a text, each after a space, are these, whatever the size of the pieces that it comes in.
fn check_names(
    rt: &impl Abort,
    alloc: Global,
    rules: ScanRules,
    text: &[u8],
    want: &[u8],
) -> Result<(), Fail> {
    for size in [1, 7, 4096] {
        let all = names_by(alloc, rules, text, size)?;
        check_cut(rt, size, &all, want);
    }
    Ok(())
}

#[rattlefmt::skip]
const WORDS_OF_BUSYBOX: &[(&[u8], &[u8])] = &[
    (b"CONFIG_A",               b" A"),
    (b"ENABLE_A",               b" A"),
    (b"IF_A(x)",                b" A"),
    (b"IF_NOT_A(x)",            b" A NOT_A"),
    (b"IF_NOTE(x)",             b" NOTE"),
    (b"xCONFIG_A _IF_A USE_A",  b""),
    (b"CONFIG_A_MODULE",        b" A_MODULE"),
    (b"CONFIG_A.CONFIG_B",      b" A B"),
    (b"ENABLE_IF_A",            b" IF_A"),
    (b"CONFIG_XIF_B",           b" XIF_B"),
    (b"CONFIG_",                b""),
    (b"IF_NOT_",                b" NOT_"),
];

#[test]
fn words_of_busybox(rt: HostRuntime) -> Result<(), Fail> {
    let rules = ScanRules::for_target(Dialect::BusyBox, b"x.o");
    for &(text, want) in WORDS_OF_BUSYBOX {
        check_names(&rt, rt.alloc(), rules, text, want)?;
    }
    Ok(())
}

#[rattlefmt::skip]
const MACROS_OF_U_BOOT: &[(&[u8], &[u8], &[u8])] = &[
    (b"spl/x.o",   b"CONFIG_A CONFIG_B_MODULE",             b" A B"),
    (b"x.o",       b"CONFIG_IS_ENABLED(A)",                 b" A"),
    (b"spl/x.o",   b"CONFIG_IS_ENABLED(A)",                 b" SPL_A"),
    (b"vpl/x.o",   b"CONFIG_IS_ENABLED(A)",                 b" VPL_A"),
    (b"tools/x.o", b"CONFIG_IS_ENABLED(A)",                 b" TOOLS_A"),
    (b"splat/x.o", b"CONFIG_IS_ENABLED(A)",                 b" A"),
    (b"spl/x.o",   b"CONFIG_IS_ENABLED( A)",                b" SPL_A"),
    (b"spl/x.o",   b"CONFIG_IS_ENABLED (A)",                b" SPL_A"),
    (b"x.o",       b"CONFIG_IS_ENABLED \\\n\t(\r\n A)",     b" A"),
    (b"tpl/x.o",   b"CONFIG_VAL(A)",                        b" TPL_A"),
    (b"x.o",       b"CONFIG_IF_ENABLED_INT(A, B)",          b" A B"),
    (b"spl/x.o",   b"CONFIG_IF_ENABLED_INT(A , B), C",      b" SPL_A SPL_B"),
    (b"spl/x.o",   b"IS_ENABLED(CONFIG_A)",                 b" A"),
    (b"spl/x.o",   b"CONFIG_IS_ENABLED(CONFIG_A)",          b" SPL_CONFIG_A A"),
    (b"spl/x.o",   b"CONFIG_VAL(CONFIG_VAL(A))",            b" SPL_CONFIG_VAL SPL_A"),
    (b"x.o",       b"xCONFIG_IS_ENABLED(A) CONFIG_$(SPL_)A", b""),
];

#[test]
fn macros_of_u_boot(rt: HostRuntime) -> Result<(), Fail> {
    for &(target, text, want) in MACROS_OF_U_BOOT {
        let rules = ScanRules::for_target(Dialect::UBoot, target);
        check_names(&rt, rt.alloc(), rules, text, want)?;
    }
    Ok(())
}

#[rattlefmt::skip]
const MACROS_OF_COREBOOT: &[(&[u8], &[u8])] = &[
    (b"CONFIG(A)",                         b" A"),
    (b"#if CONFIG_A && CONFIG (B)",        b" A B"),
    (b"if (!CONFIG( A ) && CONFIG(B))",    b" A B"),
    (b"CONFIG(\\\n A)",                     b" A"),
    (b"xCONFIG(A) CONFIG;(A) CONFIGS(A)",  b""),
    (b"CONFIG(CONFIG_A) ENABLE_B",         b" CONFIG_A A"),
];

#[test]
fn macro_of_coreboot(rt: HostRuntime) -> Result<(), Fail> {
    let rules = ScanRules::for_target(Dialect::Coreboot, b"x.o");
    for &(text, want) in MACROS_OF_COREBOOT {
        check_names(&rt, rt.alloc(), rules, text, want)?;
    }
    Ok(())
}

#[test]
fn linux_by_its_dialect(rt: HostRuntime) -> Result<(), Fail> {
    let rules = ScanRules::for_target(Dialect::Linux, b"spl/x.o");
    let text = b"CONFIG_A ENABLE_B CONFIG_C_MODULE CONFIG_IS_ENABLED(D)";
    check_names(&rt, rt.alloc(), rules, text, b" A C IS_ENABLED")
}

#[rattlefmt::skip]
const FILES_BESIDE_HEADERS: &[(Dialect, &[u8])] = &[
    (Dialect::Linux, b" x.c include/autoconf.h ../include/autoconf.h minclude/autoconf.h"),
    (Dialect::UBoot, b" x.c include/autoconf.h ../include/autoconf.h minclude/autoconf.h"),
    (Dialect::BusyBox, b" x.c minclude/autoconf.h include/generated/autoconf.h"),
    (Dialect::Coreboot, b" x.c include/autoconf.h ../include/autoconf.h minclude/autoconf.h"),
];

/// Prerequisites, each after a space.
fn spelled_files(alloc: Global, read: &Prerequisites) -> Result<Vec<u8>, AllocError> {
    let mut all = Vec::new(alloc);
    for place in 0..read.len() {
        if let Some((path, _)) = read.get(place) {
            all.push(b' ')?;
            all.extend_from_slice(path)?;
        }
    }
    Ok(all)
}

/// The files that a dependency file lists beside the header of a dialect, each after a space; nothing where it is refused.
fn files_beside_header(
    alloc: Global,
    dialect: Dialect,
    text: &[u8],
) -> Result<Vec<u8>, AllocError> {
    match read_depfile_without(alloc, Seed::new(0), Header::usual(dialect), text) {
        Ok(read) => spelled_files(alloc, &read),
        Err(_) => Ok(Vec::new(alloc)),
    }
}

#[test]
fn headers_left_out(rt: HostRuntime) -> Result<(), Fail> {
    let text =
        b"x.o: x.c include/autoconf.h ../include/autoconf.h minclude/autoconf.h include/generated/autoconf.h";
    for &(dialect, want) in FILES_BESIDE_HEADERS {
        let all = files_beside_header(rt.alloc(), dialect, text)?;
        check_bytes(&rt, "files beside headers", &all, want);
    }
    Ok(())
}
