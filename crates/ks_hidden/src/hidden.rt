//! Why an object may depend on more than the names that its files mention.
use ks_symbols::Path;
use std::fmt;
use thiserror::Error;

/// What may matter to an object beside these names, and where.
#[derive(Drop, Error)]
pub enum Hidden {
    /// A file that the compiler has read has it read another one, at this line, which it lists nowhere.
    #[error("24 HiddenInput {}", shown(.0.as_bytes()))]
    Input(Path, u64),
    /// This line of the header is none that the last synchronisation explains.
    #[error("25 ForeignLine {}", shown(.0.as_bytes()))]
    Line(Path, u64),
    /// A file whose path ends as the header's, and that is another one.
    #[error("26 OtherHeader {}", shown(.0.as_bytes()))]
    OtherHeader(Path),
    /// A precompiled header, of which the compiler doesn't list what it was made of, or a header that is being precompiled.
    #[error("27 Precompiled {}", shown(.0.as_bytes()))]
    Precompiled(Path),
    /// The header lacks a definition that the last synchronisation has, as where its tool hasn't run since.
    #[error("28 MissingLine {}", shown(.0.as_bytes()))]
    MissingLine(Path),
    /// This word of the command, counted from 1, is none that is known.
    #[error("29 UnknownArgument word {}", .0)]
    Argument(u64),
}

/// The bytes of a path as text, which they are: it is ASCII.
fn shown(path: &[u8]) -> &str {
    str::from_utf8(path).unwrap_or_default()
}

impl fmt::Debug for Hidden {
    fn fmt<W: fmt::Write>(&self, f: &mut fmt::Formatter<W>) -> fmt::Result {
        fmt::Display::fmt(self, f)
    }
}
