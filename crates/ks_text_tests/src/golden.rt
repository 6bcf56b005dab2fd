//! Whole files as they stand on disk, and the names in them.

/// Names inside words, and with suffixes.
pub(crate) const SUFFIXES: &[u8] =
    b"HIS_CONFIG_A CONFIG_B_MODULE CONFIG_ CONFIG__MODULE CONFIG_MODULE CONFIG_C_MODULE_MODULE CONFIG_D";

/// A source with names of many lengths, so that pieces of every size cut some of them.
pub(crate) const BORDERS: &[u8] =
    br#"CONFIG_A(CONFIG_PM;CONFIG_SMP,CONFIG_NUMA_MODULE=CONFIG_HZ100 HIS_CONFIG_SWAP
xCONFIG_BLOCK CONFIG_CONFIG_E CONFIG_ CONFIG__MODULE CONFIG_MODULE CONFIG_C_MODULE_MODULE
CONFIG_MODULES CONFIG_KALLSYMS+CONFIG_DEBUG_FS-CONFIG_HIGH_RES_TIMERS_MODULE.CONFIG_PM.CONFIG_SND_PCM_TIMER
IS_ENABLED(CONFIG_TRANSPARENT_HUGEPAGE) && IS_BUILTIN(CONFIG_BPF_JIT_ALWAYS_ON_MODULE) || __CONFIG_NET
CONFIG_LONGEST_LONGEST_LONGEST_LONGEST_LONGEST_LONGEST_LONGEST_LONGEST_LONGEST_LONGEST_LONGEST_LONGEST_LONGEST_LONGEST_LONGEST_LONGEST__MODULE
CONFIG_LONGEST_LONGEST_LONGEST_LONGEST_LONGEST_LONGEST_LONGEST_LONGEST_LONGEST_LONGEST_LONGEST_LONGEST_LONGEST_LONGEST_LONGEST_LONGEST_X CONFIG_A CONFIG_LAST"#;

pub(crate) const BORDER_NAMES: &[u8] =
    b"A PM SMP NUMA HZ100 CONFIG_E MODULE C_MODULE MODULES KALLSYMS DEBUG_FS HIGH_RES_TIMERS PM SND_PCM_TIMER TRANSPARENT_HUGEPAGE BPF_JIT_ALWAYS_ON LONGEST_LONGEST_LONGEST_LONGEST_LONGEST_LONGEST_LONGEST_LONGEST_LONGEST_LONGEST_LONGEST_LONGEST_LONGEST_LONGEST_LONGEST_LONGEST_ A LAST ";

pub(crate) const BORDER_NAMES_ONCE: &[u8] =
    b"A PM SMP NUMA HZ100 CONFIG_E MODULE C_MODULE MODULES KALLSYMS DEBUG_FS HIGH_RES_TIMERS SND_PCM_TIMER TRANSPARENT_HUGEPAGE BPF_JIT_ALWAYS_ON LONGEST_LONGEST_LONGEST_LONGEST_LONGEST_LONGEST_LONGEST_LONGEST_LONGEST_LONGEST_LONGEST_LONGEST_LONGEST_LONGEST_LONGEST_LONGEST_ LAST ";

pub(crate) const DEPFILE: &[u8] = br#"x.o: x.c a.h \
 include/generated/autoconf.h a.h b.h
"#;

pub(crate) const COMMAND_FILE: &[u8] = br#"savedcmd_x.o := cc -c x.c

source_x.o := x.c

deps_x.o := \
    $(wildcard include/config/A) \
    $(wildcard include/config/B) \
  a.h \
    $(wildcard include/config/C) \
  b.h \

x.o: $(deps_x.o)

$(deps_x.o):
"#;

pub(crate) const SCANNED_COMMAND_FILE: &[u8] = br#"savedcmd_x.o := cc -c x.c

source_x.o := x.c

deps_x.o := \
  a.h \
    $(wildcard include/config/Z) \
  b.h \

x.o: $(deps_x.o)

$(deps_x.o):
"#;

pub(crate) const SMALLEST_COMMAND_FILE: &[u8] = br#"savedcmd_x.o := cc -c x.c

source_x.o := x.c

deps_x.o := \

x.o: $(deps_x.o)

$(deps_x.o):
"#;

/// What stands before and after the names of a source without any other files.
pub(crate) const SMALLEST_RECORD: (&[u8], &[u8]) = (
    b"savedcmd_x.o := cc\n\nsource_x.o := x.c\n\ndeps_x.o := \\\n",
    b"\nx.o: $(deps_x.o)\n\n$(deps_x.o):\n",
);
