//! The names of an object in the order of its command file, each for itself: whoever makes their stamps goes through them while
//! the tree is written, when nothing is read any more. They were noted when the text of the command file was written, so no name is
//! found a second time.
ghost use Rattle.std.specs.Prelude.{◌≡◌, IfOk};
ghost use Rattle.ks_fixdep.specs.SourceScan.{listed_of};

use crate::source_scan::NamesBySource;
use ks_symbols::Name;
use std::alloc::{AllocError, Global};

/// Copies of the names in the text that `record_text` wrote last.
pub fn listed_names(alloc: Global, found: &NamesBySource) -> Result<Vec<Name>, AllocError>
    ensures { IfOk result (λ names. names.items ≡ listed_of found.now) }
{
    let places = found.listed.as_slice();
    let mut names = Vec::with_capacity(alloc, places.len())?;
    for place in places {
        let Some(name) = found.scan.table.name(*place) else {
            continue;
        };
        names.push(Name::new(alloc, name)?)?;
    }
    Ok(names)
}
