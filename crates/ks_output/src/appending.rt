//! Texts that are appended piece by piece.
//!
//! A writer fills the vector that it is borrowed, so a long text is never held twice. What stood there before stays in
//! front whatever happens, so that a writer that is refused memory can cut the vector back to it.
ghost use Rattle.std.specs.Prelude.{◌≡◌, ◌++◌, OnOk, flat_map};
ghost use Rattle.ks_output.specs.Appending.{Keeps};

use std::alloc::AllocError;

/// Appends the pieces one after the other.
pub(crate) fn append_all(pieces: &[&[u8]], out: &mut Vec<u8>) -> Result<(), AllocError>
    ensures written { OnOk result (out.new.items ≡ out.old.items ++ flat_map (λ piece. piece.now) pieces.now) }
    ensures kept { Keeps out.old.items out.new.items }
{
    for piece in pieces {
        out.extend_from_slice(piece)?;
    }
    Ok(())
}
