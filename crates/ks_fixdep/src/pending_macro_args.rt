//! What a macro still waits for. `CONFIG_IS_ENABLED(A)` of U-Boot names no symbol by itself: its argument does. So after the
//! macro's word a `(` is waited for, and after that the argument; blanks may stand between.
ghost use Rattle.std.specs.Prelude.{◌≡◌, ◌||◌, ◌==◌};
ghost use Rattle.ks_fixdep.specs.SymbolPatterns.{after_word, is_blank, passed};

/// How many arguments begin at the next word, at a `(`, or at a `,`. Where none does, the number is 0.
#[derive(Clone, Copy, Debug)]
pub struct PendingMacroArgs {
    pub args_at_word: u8,
    pub args_at_paren: u8,
    pub args_at_comma: u8,
}

/// Whether a byte may stand between a macro and its arguments.
fn is_blank(byte: u8) -> bool
    ensures { result ≡ is_blank byte }
{
    byte == b' ' || byte == b'\t' || byte == b'\r' || byte == b'\n' || byte == b'\\'
}

impl PendingMacroArgs {
    /// Nothing is waited for.
    pub(crate) fn nothing() -> PendingMacroArgs
        ensures args_at_word { result.args_at_word ≡ 0 }
        ensures args_at_paren { result.args_at_paren ≡ 0 }
        ensures args_at_comma { result.args_at_comma ≡ 0 }
    {
        PendingMacroArgs {
            args_at_word: 0,
            args_at_paren: 0,
            args_at_comma: 0,
        }
    }

    /// What is waited for after a word that takes so many arguments.
    pub(crate) fn following(self, arguments: u8) -> PendingMacroArgs
        ensures { result ≡ after_word self arguments }
    {
        PendingMacroArgs {
            args_at_word: 0,
            args_at_paren: arguments,
            args_at_comma: self.args_at_word.saturating_sub(1),
        }
    }

    /// What is waited for after a byte that is no word byte.
    pub(crate) fn passed(self, byte: u8) -> PendingMacroArgs
        ensures { result ≡ passed self byte }
    {
        if is_blank(byte) {
            return self;
        }
        let mut next = PendingMacroArgs::nothing();
        if byte == b'(' {
            next.args_at_word = self.args_at_paren;
        }
        if byte == b',' {
            next.args_at_word = self.args_at_comma;
        }
        next
    }
}
