//! The dependency file of a compiler that ran in another directory than that of the tree, as where an external module is made: each
//! relative path is named by that directory. So a file has one name, wherever it was named.
ghost use Rattle.std.specs.Prelude.{◌≡◌, ◌++◌, IfOk, OnOk, codes};
ghost use Rattle.ks_fixdep.specs.Placed.{placed_in, placed_token};

use crate::tokens::Tokens;
use std::alloc::{AllocError, Global};

/// Writes a token with its place.
fn push_placed(text: &mut Vec<u8>, directory: &[u8], token: &[u8]) -> Result<(), AllocError>
    ensures { OnOk result (text.new.items ≡ text.old.items ++ (placed_token directory.now token.now ++ codes " ")) }
{
    if !token.ends_with(b":") && !token.starts_with(b"/") {
        text.extend_from_slice(directory)?;
        text.push(b'/')?;
    }
    text.extend_from_slice(token)?;
    text.push(b' ')?;
    Ok(())
}

/// A dependency file as one of paths by the directory that it was written in. Its tokens have the numbers that they had.
pub fn placed_text(alloc: Global, directory: &[u8], text: &[u8]) -> Result<Vec<u8>, AllocError>
    ensures { IfOk result (λ t. t.items ≡ placed_in directory.now text.now) }
{
    let mut placed = Vec::with_capacity(alloc, text.len())?;
    for token in Tokens::new(text) {
        push_placed(&mut placed, directory, token)?;
    }
    Ok(placed)
}
