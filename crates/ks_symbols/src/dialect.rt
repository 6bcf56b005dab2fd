//! Whose build it is. Linux, U-Boot, BusyBox and coreboot have one language of configuration, and say the same things in different
//! words: in their sources, and in the values of strings.
ghost use Rattle.std.specs.Prelude.{◌≡◌};
ghost use Rattle.ks_symbols.specs.Dialects.{read_in};

use std::marker::Model;

/// Whose words a tree's files have.
#[derive(Clone, Copy, Debug, PartialEq, Eq)]
pub enum Dialect {
    Linux,
    UBoot,
    BusyBox,
    Coreboot,
}

/// The text of a Kconfig, with the dialect that it is read in.
#[derive(Drop)]
pub struct Kconfig<'a> {
    dialect: Dialect,
    text: &'a [u8],
}

impl<'a> Model for Kconfig<'a> {
    ghost use Rattle.ks_symbols.specs.Dialects.{KconfigText, coded_kconfig_text};

    ghost Value = { KconfigText };

    ghost coded = { coded_kconfig_text };

    ghost view = { λ k. record { dialect = k.dialect; text = k.text.now } };
}

impl<'a> Kconfig<'a> {
    pub fn new(dialect: Dialect, text: &'a [u8]) -> Kconfig<'a>
        ensures { result ≡ read_in dialect text.now }
    {
        Kconfig { dialect, text }
    }

    /// The dialect and the text.
    pub fn parts(&self) -> (Dialect, &'a [u8])
        ensures { read_in result.0 result.1.now ≡ self.now }
    {
        (self.dialect, self.text)
    }
}
