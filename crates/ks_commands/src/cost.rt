//! What each symbol costs: how many objects a flip of it makes stale. What is kept of an object is a number for each symbol.
ghost use Rattle.std.specs.Prelude.{◌≡◌, ◌++◌, [], Err, IfOk, OnOk, map, refl, true};
ghost use Rattle.ks_tree.specs.Frames.{Reads};
ghost use Rattle.ks_engine.specs.FileRuns.{state};
ghost use Rattle.ks_engine.specs.Costs.{seen_cost};
ghost use Rattle.ks_engine.specs.declared.error.EngineError.TheVariants.{Device};
ghost use Rattle.ks_requests.specs.declared.refusal.Refusal.TheVariants.{Engine};
ghost use Rattle.ks_commands.specs.Readings.{HasCosts};
ghost use Rattle.ks_commands.specs.Records.{at_most, cost_lines, reading, reports_cost, unread_lines};
ghost use Rattle.ks_commands.specs.Walks.{EndsWalk};

use crate::readings::{Reader, Reported, read_each};
use ks_engine::{Cost, Costs};
use ks_fixdep::BorrowedCommand;
use ks_requests::{Outcome, Refusal, Targets, write_cost};
use ks_symbols::Seed;
use ks_tree::Tree;
use std::alloc::{AllocError, Global};

impl Reader for Costs {
    ghost asked = { λ it. [] };

    ghost line = { λ symbols. unread_lines };

    ghost has_read = { HasCosts };

    fn read(
        &mut self,
        alloc: Global,
        _target: &[u8],
        file: &BorrowedCommand<'_>,
        _text: &mut Vec<u8>,
    ) -> Result<(), AllocError> {
        self.add(alloc, &file.deps)
    }

    ghost unrecorded = { λ symbols o. refl };
}

/// The first so many, or all.
fn shown<'a, 'b>(costs: &'a [Cost<'b>], top: Option<u64>) -> &'a [Cost<'b>]
    ensures { map seen_cost result.now ≡ at_most top (map seen_cost costs.now) }
{
    match top {
        Some(count) => {
            let count = costs.len().min(count as usize);
            &costs[..count]
        }
        None => costs,
    }
}

/// Writes a line for each of the most expensive symbols.
fn write_costs(costs: &[Cost<'_>], top: Option<u64>, text: &mut Vec<u8>) -> Result<(), AllocError>
    ensures { OnOk result (text.new.items ≡ text.old.items ++ cost_lines top (map seen_cost costs.now)) }
{
    for cost in shown(costs, top) {
        write_cost(cost, text)?;
    }
    Ok(())
}

/// Prints what each symbol costs that the targets among the arguments, or those of a file, name.
pub(crate) fn report_cost<T: Tree>(
    alloc: Global,
    tree: &mut T,
    top: Option<u64>,
    targets: &Targets,
) -> Result<Outcome, Refusal>
    ensures reads { Reads T.Tree tree.old tree.new (result ≡ Err (Engine Device)) }
    ensures reported { EndsWalk (reading T.is_honest (T.files tree.old) unread_lines) true (reports_cost top) T.is_honest (state T.Tree tree.old) targets.now
        result (state T.Tree tree.new) }
{
    let mut costs = Costs::with_seed(alloc, Seed::new(tree.seed()));
    let Reported {
        mut text,
        status,
        ..
    } = read_each(alloc, tree, &mut costs, targets)?;
    let most_expensive = costs.most_expensive(alloc)?;
    write_costs(&most_expensive, top, &mut text)?;
    Ok(Outcome::of(text, status))
}
