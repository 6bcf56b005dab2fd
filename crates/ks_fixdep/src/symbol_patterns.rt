//! The words by which sources name symbols, as data: projects differ in a few words, and the scan is one for all of them. So another
//! project is a list, and what is proved of the scan holds of it.
ghost use Rattle.std.specs.Prelude.{◌≡◌, map};
ghost use Rattle.ks_fixdep.specs.SymbolPatterns.{arguments_of, seen_macro};

use std::marker::Model;

/// A form of word that names a symbol: what stands between this beginning and this end. Together they have at most 14 bytes, or 7
/// where a final `_MODULE` isn't part of the name.
#[derive(Clone, Copy, Debug)]
pub(crate) struct Pattern<'a> {
    pub(crate) begin: &'a [u8],
    pub(crate) end: &'a [u8],
    pub(crate) has_modules: bool,
}

/// A word of at most 142 bytes, after which so many arguments name symbols.
#[derive(Clone, Copy, Debug)]
pub(crate) struct Macro<'a> {
    pub(crate) word: &'a [u8],
    pub(crate) arguments: u8,
}

/// The words of a project, and what a symbol's name has in front of the argument that names it.
#[derive(Drop)]
pub(crate) struct SymbolPatterns<'a> {
    pub(crate) patterns: &'a [Pattern<'a>],
    pub(crate) macros: &'a [Macro<'a>],
    pub(crate) prefix: &'a [u8],
}

impl<'a> Model for SymbolPatterns<'a> {
    ghost use Rattle.std.specs.Prelude.{map};
    ghost use Rattle.ks_fixdep.specs.SymbolPatterns.{SourcePatterns, seen_pattern, seen_macro};

    ghost Value = { SourcePatterns };

    ghost view = { λ w. record { patterns = map seen_pattern w.patterns.now; macros = map seen_macro w.macros.now; prefix = w.prefix.now } };
}

/// How many arguments a word takes that name symbols.
pub(crate) fn arguments_of(macros: &[Macro<'_>], word: &[u8]) -> u8
    ensures { result ≡ arguments_of (map seen_macro macros.now) word.now }
{
    for known in macros {
        if known.word == word {
            return known.arguments;
        }
    }
    0
}
