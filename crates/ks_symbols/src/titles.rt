//! Titles, which auto.conf and the header carry in a comment.
//!
//! A title that ended the comment, or its line, would turn the rest of it into text of the header; such a
//! one is refused.
ghost use Rattle.std.specs.Prelude.{◌≡◌};
ghost use Rattle.std.specs.List.{list_all};
ghost use Rattle.ks_symbols.specs.Titles.{is_title_byte, ends_comment, is_title};

/// The most bytes of a title.
const MAX_TITLE: usize = 256;

/// Whether the end of a C comment stands in the bytes.
pub fn ends_comment(text: &[u8]) -> bool
    ensures { result ≡ ends_comment text.now }
{
    let mut rest = text;
    while !rest.is_empty() {
        if rest.starts_with(b"*/") {
            return true;
        }
        rest = &rest[1..];
    }
    false
}

fn is_title_byte(byte: u8) -> bool
    ensures { result ≡ is_title_byte byte }
{
    byte >= b' ' && byte != 0x7f && byte != b'"' && byte != b'\\'
}

fn all_title_bytes(bytes: &[u8]) -> bool
    ensures { result ≡ list_all is_title_byte bytes.now }
{
    bytes.iter().all(|byte| is_title_byte(*byte))
}

/// Whether the bytes are a title: 1 to 256 bytes from the space on, without DEL, `"`, `\` and `*/`.
#[tactic(auto, unfolding(crate::specs::Titles::is_title))]
pub fn is_title(title: &[u8]) -> bool
    ensures { result ≡ is_title title.now }
{
    !title.is_empty() && title.len() <= MAX_TITLE && all_title_bytes(title) && !ends_comment(title)
}
