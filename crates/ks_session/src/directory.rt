//! Paths from the directory that the program works in.
ghost use Rattle.std.specs.Prelude.{◌≡◌, IfOk, string_bytes};
ghost use Rattle.ks_session.specs.Directories.{below};

use std::alloc::{AllocError, Global};

/// The path of a file or a directory that is named from a directory.
pub fn below(alloc: Global, directory: &str, dir: &str) -> Result<String, AllocError>
    ensures { IfOk result (λ path. string_bytes path ≡ below directory.now dir.now) }
{
    if directory.is_empty() || dir.as_bytes().starts_with(b"/") {
        return String::from_str(alloc, dir);
    }
    format!(in alloc; "{directory}/{dir}")
}
