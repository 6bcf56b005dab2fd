//! The search for `CONFIG_`. It is memchr's, which reads many bytes at a time. What that has to know of the needle is worked
//! out once for all sources: between two places there are few bytes, and a search from each place is short.
ghost use Rattle.std.specs.Prelude.{◌≡◌};
ghost use Rattle.memchr.specs.Find.{FindsNeedle};
ghost use Rattle.ks_fixdep.specs.Scan.{prefix};

use crate::runs::PREFIX;
use memchr::memmem::Finder;

/// A search for `CONFIG_`.
#[derive(Drop)]
pub(crate) struct PrefixFinder {
    finder: Finder<'static>,
    ghost searches: { finder ≡ prefix },
}

impl PrefixFinder {
    pub(crate) fn new() -> PrefixFinder {
        PrefixFinder {
            finder: Finder::new(PREFIX),
        }
    }

    /// The first place of `CONFIG_` in a text.
    pub(crate) fn find(&self, text: &[u8]) -> Option<usize>
        ensures { FindsNeedle text.now prefix 0 result }
    {
        self.finder.find(text)
    }
}
