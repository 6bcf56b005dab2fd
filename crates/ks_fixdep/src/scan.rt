//! The scan of a whole text for names of symbols, as scripts/basic/fixdep.c makes it: the text is not parsed,
//! so a name in a comment is found too. That can only give too many dependencies, and no rebuild is missed.
//! A name inside a longer word, as in `HIS_CONFIG_A`, is no name of that symbol.
ghost use Rattle.std.specs.Prelude.{◌≡◌, ◌≤◌, IsTrue, length, not};
ghost use Rattle.std.specs.List.{list_all};
ghost use Rattle.std.specs.Option.{option_copied};
ghost use Rattle.ks_symbols.specs.Names.{is_word_byte};
ghost use Rattle.ks_fixdep.specs.Scan.{begun, byte_before, name_of, taken};
ghost use Rattle.ks_fixdep.specs.NameIter.{names_left};

use crate::name_iter::NameIter;
use crate::runs::{is_word, name_of_run};

/// A name, and the place where its `CONFIG_` begins.
#[derive(Clone, Copy, Debug)]
pub struct Found<'a> {
    pub place: usize,
    pub name: &'a [u8],
}

/// The names of a text, by rising place, each as often as it stands there. It takes no memory.
pub fn names(text: &[u8]) -> NameIter<'_>
    ensures { names_left result ≡ taken text.now }
{
    NameIter::starting_at(text, 0)
}

/// Whether no word byte stands before a place.
fn is_word_start(text: &[u8], place: usize) -> bool
    requires { place ≤ length text.now }
    ensures { result ≡ not (is_word_byte (byte_before text.now place)) }
{
    place == 0 || !is_word(text[place - 1])
}

/// The name of this run of word bytes, which stands after `CONFIG_` at a place of the text, if a word begins there.
pub(crate) fn name_at<'a>(text: &[u8], place: usize, run: &'a [u8]) -> Option<&'a [u8]>
    requires place { place ≤ length text.now }
    requires run { IsTrue (list_all is_word_byte run.now) }
    ensures { option_copied result ≡ begun (byte_before text.now place) (name_of run.now) }
{
    if !is_word_start(text, place) {
        return None;
    }
    name_of_run(run)
}
