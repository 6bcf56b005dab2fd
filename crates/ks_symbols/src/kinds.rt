//! The kinds of symbols, and which texts each may have.
//!
//! As sym_string_valid of scripts/kconfig/symbol.c, but stricter on numbers: an empty one would define a
//! macro with no value, and `007` would be another number to a C compiler.
ghost use Rattle.std.specs.Prelude.{◌≡◌};
ghost use Rattle.std.specs.List.{list_all};
ghost use Rattle.std.specs.Char.{is_ascii_digit, is_ascii_hexdigit};
ghost use Rattle.ks_symbols.specs.Kinds.{is_text, is_string_byte, is_numeral, is_integer, is_hexadecimal, is_raw, is_off, class_of, fits};

/// The kind of a symbol.
#[derive(Clone, Copy, Debug, PartialEq, Eq)]
pub enum Kind {
    /// `bool`: y or n.
    Bool,
    /// `tristate`: y, m or n.
    Tristate,
    /// `string`: any bytes but LF, CR and NUL.
    Text,
    /// `int`: a decimal number of any length, which may be negative.
    Int,
    /// `hex`: hexadecimal digits, with or without `0x` or `0X`.
    Hex,
    /// `string` in U-Boot and BusyBox: two quotes and any bytes but LF, CR and NUL between them, all of it as it is written.
    Raw,
    /// `bool` in BusyBox, whose macro begins with `ENABLE_`: y or n.
    Flag,
    /// `bool` with a name that ends in `_MODULE`, in what conf wrote: y. No Kconfig gives it.
    Companion,
    /// `int` without a value, in what conf wrote: no bytes. No Kconfig gives it.
    EmptyInt,
    /// `hex` without a value, likewise.
    EmptyHex,
}

/// What of a kind the header depends on: `bool` and `tristate` are one class.
#[derive(Clone, Copy, Debug, PartialEq, Eq)]
pub enum Class {
    /// `bool` and `tristate`.
    Switch,
    /// `string`.
    Text,
    /// `int`.
    Int,
    /// `hex`.
    Hex,
    /// `string` in U-Boot and BusyBox.
    Raw,
    /// `bool` in BusyBox.
    Flag,
}

impl Kind {
    pub fn class(self) -> Class
        ensures { result ≡ class_of self }
    {
        match self {
            Kind::Bool | Kind::Tristate | Kind::Companion => Class::Switch,
            Kind::Text => Class::Text,
            Kind::Int | Kind::EmptyInt => Class::Int,
            Kind::Hex | Kind::EmptyHex => Class::Hex,
            Kind::Raw => Class::Raw,
            Kind::Flag => Class::Flag,
        }
    }
}

pub(crate) fn is_string_byte(byte: u8) -> bool
    ensures { result ≡ is_string_byte byte }
{
    byte != b'\n' && byte != b'\r' && byte != 0
}

fn all_string_bytes(bytes: &[u8]) -> bool
    ensures { result ≡ list_all is_string_byte bytes.now }
{
    bytes.iter().all(|byte| is_string_byte(*byte))
}

fn all_digits(bytes: &[u8]) -> bool
    ensures { result ≡ list_all is_ascii_digit bytes.now }
{
    bytes.iter().all(|byte| byte.is_ascii_digit())
}

fn all_hexdigits(bytes: &[u8]) -> bool
    ensures { result ≡ list_all is_ascii_hexdigit bytes.now }
{
    bytes.iter().all(|byte| byte.is_ascii_hexdigit())
}

fn is_numeral(digits: &[u8]) -> bool
    ensures { result ≡ is_numeral digits.now }
{
    digits == b"0".as_slice() || (!digits.is_empty() && digits[0] != b'0' && all_digits(digits))
}

fn is_integer(text: &[u8]) -> bool
    ensures { result ≡ is_integer text.now }
{
    is_numeral(if text.starts_with(b"-") {
        &text[1..]
    } else {
        text
    })
}

fn is_hexadecimal(text: &[u8]) -> bool
    ensures { result ≡ is_hexadecimal text.now }
{
    let prefixed = text.starts_with(b"0x") || text.starts_with(b"0X");
    let digits = if prefixed { &text[2..] } else { text };
    !digits.is_empty() && all_hexdigits(digits)
}

/// Whether the first and the last byte are quotes, and another than the first is the last.
fn is_raw(text: &[u8]) -> bool
    ensures { result ≡ is_raw text.now }
{
    text.len() > 1 && text.starts_with(b"\"") && text.ends_with(b"\"") && all_string_bytes(text)
}

/// Whether it is a text of the kind: that of a `string` has no quotes and escapes, where it isn't raw.
#[tactic(auto, unfolding(crate::specs::Kinds::is_text))]
pub fn value_is_valid(kind: Kind, text: &[u8]) -> bool
    ensures { result ≡ is_text kind text.now }
{
    match kind {
        Kind::Bool | Kind::Flag => text == b"y".as_slice() || text == b"n".as_slice(),
        Kind::Tristate => text == b"y".as_slice()
            || text == b"m".as_slice()
            || text == b"n".as_slice(),
        Kind::Text => all_string_bytes(text),
        Kind::Int => is_integer(text),
        Kind::Hex => is_hexadecimal(text),
        Kind::Raw => is_raw(text),
        Kind::Companion => text == b"y".as_slice(),
        Kind::EmptyInt | Kind::EmptyHex => text.is_empty(),
    }
}

/// Whether a symbol of the kind may have a legal name: one that ends in `_MODULE` is kept free for the macro of a module, but for a
/// companion, which has that macro.
pub fn fits(kind: Kind, name: &[u8]) -> bool
    ensures { result ≡ fits kind name.now }
{
    match kind {
        Kind::Flag => true,
        Kind::Companion => name.len() > 7 && name.ends_with(b"_MODULE"),
        _ => !name.ends_with(b"_MODULE"),
    }
}

/// Whether the text is the n of a bool or tristate, which counts as no value.
pub(crate) fn is_off(kind: Kind, text: &[u8]) -> bool
    ensures { result ≡ is_off kind text.now }
{
    match kind {
        Kind::Bool | Kind::Tristate | Kind::Flag => text == b"n".as_slice(),
        _ => false,
    }
}
