//! What a project's own conf wrote, by the dialect: BusyBox's `.config` and header, or the auto.conf and the header that the others'
//! write.
ghost use Rattle.std.specs.Prelude.{◌≡◌, ◌⊎◌, IfOk, IfErr, Ok, Err};
ghost use Rattle.ks_output.specs.ConfTexts.{title_written_in, written_in};
ghost use Rattle.ks_output.specs.declared.written.WrittenError.TheVariants.{OutOfMemory};

use crate::blocks::read_blocks;
use crate::written::{Written, WrittenError, read_pair};
use ks_symbols::{Dialect, Seed};
use std::alloc::Global;

/// The configuration that conf wrote as these two texts, of which the header is the second. Names are looked up by a seed.
#[tactic(auto, unfolding(crate::specs::ConfTexts::written_in, crate::specs::ConfTexts::title_written_in))]
pub fn read_written(
    alloc: Global,
    seed: Seed,
    dialect: Dialect,
    first: &[u8],
    second: &[u8],
) -> Result<Written, WrittenError>
    ensures read { IfOk result (λ w. written_in dialect first.now second.now ≡ Ok w.settings.entries) }
    ensures title { IfOk result (λ w. w.title.items ≡ title_written_in dialect first.now) }
    ensures declared { IfOk result (λ w. w.settings.unknown ≡ 0) }
    ensures refused { IfErr result (λ e. (e ≡ OutOfMemory) ⊎ (written_in dialect first.now second.now ≡ Err e)) }
{
    match dialect {
        Dialect::BusyBox => read_blocks(alloc, seed, first, second),
        _ => read_pair(alloc, seed, first, second),
    }
}
