//! By which rules the sources of an object are scanned: the sources of Linux, U-Boot, BusyBox and coreboot ask for a symbol in different
//! words.
//! What U-Boot's ask for depends on the object too, since there one source goes into several programs.
ghost use Rattle.std.specs.Prelude.{◌≡◌};
ghost use Rattle.ks_fixdep.specs.Dialects.{phase_of, phase_prefix, rules_for, patterns_of};
ghost use Rattle.ks_fixdep.specs.SymbolPatterns.{AreShort};

use crate::symbol_patterns::{Macro, Pattern, SymbolPatterns};
use ks_symbols::Dialect;

/// The form of each project that has modules.
const WITH_MODULES: &[Pattern<'static>] = &[Pattern {
    begin: b"CONFIG_",
    end: b"",
    has_modules: true,
}];

/// The forms of BusyBox: a macro of the preprocessor, a number, and two macros for what stands in their parentheses.
const IN_BUSYBOX: &[Pattern<'static>] = &[
    Pattern {
        begin: b"CONFIG_",
        end: b"",
        has_modules: false,
    },
    Pattern {
        begin: b"ENABLE_",
        end: b"",
        has_modules: false,
    },
    Pattern {
        begin: b"IF_NOT_",
        end: b"",
        has_modules: false,
    },
    Pattern {
        begin: b"IF_",
        end: b"",
        has_modules: false,
    },
];

/// The macro of coreboot that takes the name of a symbol.
const IN_COREBOOT: &[Macro<'static>] = &[Macro {
    word: b"CONFIG",
    arguments: 1,
}];

/// The macros of U-Boot that take names of symbols.
const IN_UBOOT: &[Macro<'static>] = &[
    Macro {
        word: b"CONFIG_IS_ENABLED",
        arguments: 1,
    },
    Macro {
        word: b"CONFIG_VAL",
        arguments: 1,
    },
    Macro {
        word: b"CONFIG_IF_ENABLED_INT",
        arguments: 2,
    },
];

/// The program of U-Boot that an object goes into.
#[derive(Clone, Copy, Debug, PartialEq, Eq)]
pub enum Phase {
    /// U-Boot itself.
    Proper,
    Spl,
    Tpl,
    Vpl,
    /// Programs of the machine that builds.
    HostTools,
}

/// The rules by which the sources of one object are scanned.
#[derive(Clone, Copy, Debug)]
pub enum ScanRules {
    Linux,
    UBoot(Phase),
    BusyBox,
    Coreboot,
}

impl Phase {
    /// The phase of a target, by its first directory.
    pub fn of_target(target: &[u8]) -> Phase
        ensures { result ≡ phase_of target.now }
    {
        if target.starts_with(b"spl/") {
            return Phase::Spl;
        }
        if target.starts_with(b"tpl/") {
            return Phase::Tpl;
        }
        if target.starts_with(b"vpl/") {
            return Phase::Vpl;
        }
        if target.starts_with(b"tools/") {
            return Phase::HostTools;
        }
        Phase::Proper
    }

    /// What the symbols of a phase begin with.
    pub(crate) fn prefix(self) -> &'static [u8]
        ensures { result.now ≡ phase_prefix self }
    {
        match self {
            Phase::Proper => b"",
            Phase::Spl => b"SPL_",
            Phase::Tpl => b"TPL_",
            Phase::Vpl => b"VPL_",
            Phase::HostTools => b"TOOLS_",
        }
    }
}

impl ScanRules {
    /// The rules for the sources of a target.
    pub fn for_target(dialect: Dialect, target: &[u8]) -> ScanRules
        ensures { result ≡ rules_for dialect target.now }
    {
        match dialect {
            Dialect::Linux => ScanRules::Linux,
            Dialect::UBoot => ScanRules::UBoot(Phase::of_target(target)),
            Dialect::BusyBox => ScanRules::BusyBox,
            Dialect::Coreboot => ScanRules::Coreboot,
        }
    }

    /// The words by which these rules find names.
    #[tactic(auto, unfolding(crate::specs::Dialects::patterns_of))]
    pub(crate) fn symbol_patterns(self) -> SymbolPatterns<'static>
        ensures symbol_patterns { result ≡ patterns_of self }
        ensures short { AreShort result }
    {
        match self {
            ScanRules::Linux => SymbolPatterns {
                patterns: WITH_MODULES,
                macros: &[],
                prefix: b"",
            },
            ScanRules::UBoot(phase) => SymbolPatterns {
                patterns: WITH_MODULES,
                macros: IN_UBOOT,
                prefix: phase.prefix(),
            },
            ScanRules::BusyBox => SymbolPatterns {
                patterns: IN_BUSYBOX,
                macros: &[],
                prefix: b"",
            },
            ScanRules::Coreboot => SymbolPatterns {
                patterns: WITH_MODULES,
                macros: IN_COREBOOT,
                prefix: b"",
            },
        }
    }
}
