//! Runs of word bytes, and the names that they have. The source of these rules is scripts/basic/fixdep.c:
//! the name is the run after `CONFIG_`, and `FOO_MODULE` is the macro of FOO built as a module. A name
//! longer than any that can be declared is passed over, so that no file name comes of it.
ghost use Rattle.std.specs.Prelude.{◌≡◌, ◌≤◌, length, IsTrue, IfSome};
ghost use Rattle.std.specs.List.{list_all, take_while};
ghost use Rattle.std.specs.Option.{option_copied};
ghost use Rattle.ks_symbols.specs.Names.{is_word_byte, is_name, without_module};
ghost use Rattle.ks_fixdep.specs.Scan.{name_of, name_of_word};
ghost use Rattle.ks_fixdep.specs.Stream.{last_word};

pub(crate) const PREFIX: &[u8] = b"CONFIG_";

const MODULE_SUFFIX: &[u8] = b"_MODULE";

const LONGEST_NAME: usize = 128;

/// Whether a byte is a letter, a digit or `_`.
#[inline]
pub(crate) fn is_word(byte: u8) -> bool
    ensures { result ≡ is_word_byte byte }
{
    byte.is_ascii_alphanumeric() || byte == b'_'
}

/// The longest run of word bytes that the text begins with.
#[inline]
pub(crate) fn leading_word(text: &[u8]) -> &[u8]
    ensures word { result.now ≡ take_while is_word_byte text.now }
    ensures passes { IsTrue (list_all is_word_byte result.now) }
    ensures fits { length result.now ≤ length text.now }
{
    let mut end = 0;
    while end < text.len() && is_word(text[end]) {
        end += 1;
    }
    &text[..end]
}

/// The run of word bytes that ends the text.
pub(crate) fn trailing_word(text: &[u8]) -> &[u8]
    ensures word { result.now ≡ last_word text.now }
    ensures fits { length result.now ≤ length text.now }
    ensures passes { IsTrue (list_all is_word_byte result.now) }
{
    let mut start = text.len();
    while start > 0 && is_word(text[start - 1]) {
        start -= 1;
    }
    &text[start..]
}

/// The run without one final `_MODULE`.
pub(crate) fn without_module(run: &[u8]) -> &[u8]
    ensures { result.now ≡ without_module run.now }
{
    match run.strip_suffix(MODULE_SUFFIX) {
        Some(name) => name,
        None => run,
    }
}

/// The name of a run of word bytes, if it has one.
pub(crate) fn name_of_run(run: &[u8]) -> Option<&[u8]>
    requires { IsTrue (list_all is_word_byte run.now) }
    ensures { option_copied result ≡ name_of run.now }
{
    let name = without_module(run);
    if name.is_empty() || name.len() > LONGEST_NAME {
        return None;
    }
    Some(name)
}

/// The name of a whole word, if it has one.
#[tactic(auto, unfolding(crate::specs::Scan::name_of_word))]
pub(crate) fn name_of_whole(word: &[u8]) -> Option<&[u8]>
    requires { IsTrue (list_all is_word_byte word.now) }
    ensures { option_copied result ≡ name_of_word word.now }
{
    match word.strip_prefix(PREFIX) {
        Some(run) => name_of_run(run),
        None => None,
    }
}
