//! The tokens of a dependency file. Compilers put a backslash at the end of a line that goes on; here it
//! stands between tokens as a space does, so no line has to be put together.
ghost use Rattle.std.specs.Prelude.{◌≡◌, ◌≤◌, ◌-◌, IsTrue, length, option_map, slice_get};
ghost use Rattle.std.specs.Iterator.{YieldsFirstRef, item_count};
ghost use Rattle.std.specs.List.{list_all, prefix_len};
ghost use Rattle.ks_fixdep.specs.Tokens.{is_separator, is_other, tokens};

/// Whether a byte stands between tokens: a space, a tab, a backslash, a CR or an LF.
fn separates(byte: u8) -> bool
    ensures { result ≡ is_separator byte }
{
    // Of most bytes two comparisons tell that they are none.
    if byte > b' ' {
        return byte == b'\\';
    }
    matches!(byte, b' ' | b'\t' | b'\r' | b'\n')
}

/// How many separators the text begins with.
fn leading_separators(text: &[u8]) -> usize
    ensures count { result ≡ prefix_len is_separator text.now }
    ensures fits { result ≤ length text.now }
{
    let mut end = 0;
    while end < text.len() && separates(text[end]) {
        end += 1;
    }
    end
}

/// How many bytes are looked at side by side.
const GROUP: usize = 16;

/// Whether a byte comes after the space and is no backslash. Such a byte doesn't stand between tokens.
fn is_plain(byte: u8) -> bool
    ensures { IsTrue result → IsTrue (is_other byte) }
{
    (byte > b' ') & (byte != b'\\')
}

/// Whether all bytes are plain.
fn are_plain(bytes: &[u8]) -> bool
    ensures { IsTrue result → IsTrue (list_all is_other bytes.now) }
{
    let mut all = true;
    for byte in bytes {
        all &= is_plain(*byte);
    }
    all
}

/// How many other bytes the text begins with.
fn leading_others(text: &[u8]) -> usize
    ensures count { result ≡ prefix_len is_other text.now }
    ensures fits { result ≤ length text.now }
{
    let mut end = 0;
    while text.len() - end >= GROUP && are_plain(&text[end..end + GROUP]) {
        end += GROUP;
    }
    while end < text.len() && !separates(text[end]) {
        end += 1;
    }
    end
}

/// The tokens of a text, in their order.
#[derive(Drop)]
pub(crate) struct Tokens<'a> {
    rest: &'a [u8],
}

impl<'a> Tokens<'a> {
    pub(crate) fn new(text: &'a [u8]) -> Self
        ensures { tokens result.rest.now ≡ tokens text.now }
    {
        Tokens { rest: text }
    }
}

impl<'a> Iterator for Tokens<'a> {
    type Item = &'a [u8];

    ghost next_gives = { YieldsFirstRef (λ s. tokens s.rest.now) };

    ghost remaining = { item_count (λ s. tokens s.rest.now) };

    fn next(&mut self) -> Option<&'a [u8]> {
        let begins = &self.rest[leading_separators(self.rest)..];
        let (token, rest) = begins.split_at(leading_others(begins));
        self.rest = rest;
        if token.is_empty() { None } else { Some(token) }
    }
}

/// The token of a number, counted from 1, where the text has so many.
pub fn token_at(text: &[u8], number: u64) -> Option<&[u8]>
    ensures { option_map (λ t. t.now) result ≡ slice_get (tokens text.now) (number - 1) }
{
    Tokens::new(text).nth(number.saturating_sub(1) as usize)
}
