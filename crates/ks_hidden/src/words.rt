//! The words of a compile command, and the directories and headers that its options name.
ghost use Rattle.std.specs.Prelude.{◌≡◌, ℕ, List, [], ◌∷◌, ◌++◌, IfOk, OnOk, map, option_map, slice_get, true, None};
ghost use Rattle.std.specs.List.{filter_map};
ghost use Rattle.ks_hidden.specs.Words.{behind, ends_word, header_options, is_inside, is_part, mode_after, option_value, option_values, quote_directories, searched_directories, texts, words_of, words_with};

use std::alloc::{AllocError, Global};
use std::mem;

/// Where a reader of a command stands.
#[derive(Clone, Copy, Debug)]
enum Mode {
    /// No word has begun.
    Between,
    /// In a word, outside of quotes.
    Bare,
    /// Between `'`s.
    Single,
    /// Between `"`s.
    Double,
    /// Behind a backslash outside of quotes, which takes the next byte as it is.
    Escaped,
    /// Behind one between `"`s.
    DoubleEscaped,
}

impl Mode {
    /// Whether a word has begun.
    fn is_inside(self) -> bool
        ensures { result ≡ is_inside self }
    {
        !matches!(self, Mode::Between)
    }

    /// Whether a byte is a part of the word, as it is.
    fn takes(self, byte: u8) -> bool
        ensures { result ≡ is_part self byte }
    {
        match self {
            Mode::Between | Mode::Bare => {
                !matches!(byte, b' ' | b'\t' | b'\n' | b'\'' | b'"' | b'\\')
            }
            Mode::Single => byte != b'\'',
            Mode::Double => !matches!(byte, b'"' | b'\\'),
            Mode::Escaped | Mode::DoubleEscaped => true,
        }
    }

    /// Whether a byte ends the word.
    fn ends(self, byte: u8) -> bool
        ensures { result ≡ ends_word self byte }
    {
        match self {
            Mode::Bare => matches!(byte, b' ' | b'\t' | b'\n'),
            Mode::Between | Mode::Single | Mode::Double => false,
            Mode::Escaped | Mode::DoubleEscaped => false,
        }
    }

    /// Where the reader stands behind a byte.
    fn after(self, byte: u8) -> Mode
        ensures { result ≡ mode_after self byte }
    {
        match self {
            Mode::Between | Mode::Bare => match byte {
                b' ' | b'\t' | b'\n' => Mode::Between,
                b'\'' => Mode::Single,
                b'"' => Mode::Double,
                b'\\' => Mode::Escaped,
                _ => Mode::Bare,
            },
            Mode::Single => match byte {
                b'\'' => Mode::Bare,
                _ => Mode::Single,
            },
            Mode::Double => match byte {
                b'"' => Mode::Bare,
                b'\\' => Mode::DoubleEscaped,
                _ => Mode::Double,
            },
            Mode::Escaped => Mode::Bare,
            Mode::DoubleEscaped => Mode::Double,
        }
    }
}

/// The words that have ended, what the next one has so far, and where the reader stands.
#[derive(Drop)]
struct Reader {
    alloc: Global,
    ended: Vec<Vec<u8>>,
    word: Vec<u8>,
    mode: Mode,
}

impl Reader {
    /// Nothing was read yet.
    fn new(alloc: Global) -> Reader
        ensures { (rest : List ℕ) → words_with result rest ≡ words_of rest }
    {
        Reader {
            alloc,
            ended: Vec::new(alloc),
            word: Vec::new(alloc),
            mode: Mode::Between,
        }
    }

    /// Ends the word.
    fn end_word(&mut self) -> Result<(), AllocError>
        ensures { OnOk result ((texts self.new.ended.items ≡ texts self.old.ended.items ++ self.old.word.items ∷ []) × (self.new.word.items ≡ []) × (self.new.mode ≡ self.old.mode)) }
    {
        let next = Vec::new(self.alloc);
        self.ended.push(mem::replace(&mut self.word, next))?;
        Ok(())
    }

    /// Takes one more byte.
    fn take(&mut self, byte: u8) -> Result<(), AllocError>
        ensures { OnOk result ((rest : List ℕ) → words_with self.new rest ≡ words_with self.old (byte ∷ rest)) }
    {
        if self.mode.takes(byte) {
            self.word.push(byte)?;
        }
        if self.mode.ends(byte) {
            self.end_word()?;
        }
        self.mode = self.mode.after(byte);
        Ok(())
    }

    /// All the words, where the command ends here.
    fn finish(mut self) -> Result<Vec<Vec<u8>>, AllocError>
        ensures { IfOk result (λ v. texts v.items ≡ words_with self []) }
    {
        if self.mode.is_inside() {
            self.end_word()?;
        }
        Ok(self.ended)
    }
}

/// The words of a command.
pub(crate) fn words(alloc: Global, command: &[u8]) -> Result<Vec<Vec<u8>>, AllocError>
    ensures { IfOk result (λ v. texts v.items ≡ words_of command.now) }
{
    let mut reader = Reader::new(alloc);
    for byte in command {
        reader.take(*byte)?;
    }
    reader.finish()
}

/// Whether a text begins otherwise, by a look at its first byte.
fn begins_otherwise(front: &[u8], text: &[u8]) -> bool
    ensures { result ≡ true → behind front.now text.now ≡ None }
{
    match (front.first(), text.first()) {
        (Some(front), Some(byte)) => front != byte,
        _ => false,
    }
}

/// What stands behind these bytes, where the text begins with them. Most texts begin with another byte, and are passed at once.
pub(crate) fn behind<'a>(front: &[u8], text: &'a [u8]) -> Option<&'a [u8]>
    ensures { option_map (λ r. r.now) result ≡ behind front.now text.now }
{
    if begins_otherwise(front, text) {
        return None;
    }
    text.strip_prefix(front)
}

/// The first of these words.
fn first_text(words: &[Vec<u8>]) -> Option<&[u8]>
    ensures { option_map (λ w. w.now) result ≡ slice_get (texts words.now) 0 }
{
    match words.first() {
        Some(first) => Some(first.as_slice()),
        None => None,
    }
}

/// What a word that begins with the name of an option gives: `-ID` gives `D`, and `-I` the next word.
pub(crate) fn option_value<'a>(name: &[u8], word: &'a [u8], next: &'a [Vec<u8>]) -> Option<&'a [u8]>
    ensures { option_map (λ v. v.now) result ≡ option_value (texts next.now) word.now name.now }
{
    let value = behind(name, word)?;
    if value.is_empty() {
        first_text(next)
    } else {
        Some(value)
    }
}

/// Appends what a word gives by each of these options.
fn push_values(
    alloc: Global,
    values: &mut Vec<Vec<u8>>,
    names: &[&[u8]],
    word: &[u8],
    next: &[Vec<u8>],
) -> Result<(), AllocError>
    ensures { OnOk result (texts values.new.items ≡ texts values.old.items ++ filter_map (option_value (texts next.now) word.now) (map (λ n. n.now) names.now)) }
{
    for name in names {
        if let Some(value) = option_value(*name, word, next) {
            values.push(value.to_vec(alloc)?)?;
        }
    }
    Ok(())
}

/// What the options of these names give, in the order of the words.
fn option_values(
    alloc: Global,
    names: &[&[u8]],
    words: &[Vec<u8>],
) -> Result<Vec<Vec<u8>>, AllocError>
    ensures { IfOk result (λ v. texts v.items ≡ option_values (map (λ n. n.now) names.now) (texts words.now)) }
{
    let mut values = Vec::new(alloc);
    for (place, word) in words.iter().enumerate() {
        push_values(alloc, &mut values, names, word, &words[place + 1..])?;
    }
    Ok(values)
}

/// The directories of headers that are named between quotes.
pub(crate) fn quote_directories(
    alloc: Global,
    words: &[Vec<u8>],
) -> Result<Vec<Vec<u8>>, AllocError>
    ensures { IfOk result (λ v. texts v.items ≡ quote_directories (texts words.now)) }
{
    option_values(alloc, &[b"-iquote"], words)
}

/// The directories of all headers, in the order in which a compiler goes through them.
pub(crate) fn searched_directories(
    alloc: Global,
    words: &[Vec<u8>],
) -> Result<Vec<Vec<u8>>, AllocError>
    ensures { IfOk result (λ v. texts v.items ≡ searched_directories (texts words.now)) }
{
    let mut directories = option_values(alloc, &[b"-I"], words)?;
    let mut of_system = option_values(alloc, &[b"-isystem"], words)?;
    let mut last = option_values(alloc, &[b"-idirafter"], words)?;
    directories.append(&mut of_system)?;
    directories.append(&mut last)?;
    Ok(directories)
}

/// The headers that options name, which come before the source, in their order.
pub(crate) fn included_headers(alloc: Global, words: &[Vec<u8>]) -> Result<Vec<Vec<u8>>, AllocError>
    ensures { IfOk result (λ v. texts v.items ≡ option_values header_options (texts words.now)) }
{
    option_values(alloc, &[b"-include", b"-imacros"], words)
}
