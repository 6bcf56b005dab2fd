//! Which objects name a symbol: those that a flip of it makes stale.
ghost use Rattle.std.specs.Prelude.{◌≡◌, ◌++◌, Err, IfOk, OnOk, flat_map, length, nat_lt, refl, true};
ghost use Rattle.ks_fixdep.specs.Borrowed.{borrowed_view};
ghost use Rattle.ks_tree.specs.Frames.{Reads};
ghost use Rattle.ks_engine.specs.FileRuns.{state};
ghost use Rattle.ks_engine.specs.declared.error.EngineError.TheVariants.{Device};
ghost use Rattle.ks_requests.specs.declared.refusal.Refusal.TheVariants.{Engine};
ghost use Rattle.ks_requests.specs.Symbols.{symbols_of, use_line};
ghost use Rattle.ks_commands.specs.AskedSymbols.{symbols_in};
ghost use Rattle.ks_commands.specs.Queries.{reports};
ghost use Rattle.ks_commands.specs.Readings.{HasUsers};
ghost use Rattle.ks_commands.specs.Records.{reading, user_count, uses_in, uses_lines};
ghost use Rattle.ks_commands.specs.Walks.{EndsWalk};

use crate::asked_symbols::AskedSymbols;
use crate::readings::{Reader, Reported, read_each};
use ks_fixdep::{BorrowedCommand, BorrowedDep};
use ks_requests::{Count, Outcome, Refusal, Targets, symbols_of, write_use};
use ks_tree::Tree;
use std::alloc::{AllocError, Global};

/// Symbols that are asked for, and how many objects name one.
#[derive(Drop)]
struct Users<'a> {
    symbols: AskedSymbols<'a>,
    users: usize,
}

/// Writes a line for each name of a record that is asked for, and returns whether there is one.
fn write_uses(
    symbols: &AskedSymbols<'_>,
    target: &[u8],
    file: &BorrowedCommand<'_>,
    text: &mut Vec<u8>,
) -> Result<bool, AllocError>
    ensures lines { let uses = uses_in (symbols_in symbols.now) (borrowed_view file.now) in
        OnOk result (text.new.items ≡ text.old.items ++ flat_map (use_line target.now) uses) }
    ensures is_user { let uses = uses_in (symbols_in symbols.now) (borrowed_view file.now) in
        IfOk result (λ is_user. is_user ≡ nat_lt 0 (length uses)) }
{
    let mut place = file.source;
    let mut is_user = false;
    for dep in &file.deps {
        match dep {
            BorrowedDep::File(path) => place = *path,
            BorrowedDep::Config(name) => {
                let name = name.as_bytes();
                if symbols.is_asked(name) {
                    write_use(target, name, place, text)?;
                    is_user = true;
                }
            }
        }
    }
    Ok(is_user)
}

impl Reader for Users<'_> {
    ghost asked = { λ it. symbols_in it.symbols };

    ghost line = { uses_lines };

    ghost has_read = { λ it before. HasUsers (symbols_in it.symbols) it.users before };

    fn read(
        &mut self,
        _alloc: Global,
        target: &[u8],
        file: &BorrowedCommand<'_>,
        text: &mut Vec<u8>,
    ) -> Result<(), AllocError> {
        if write_uses(&self.symbols, target, file, text)? {
            self.users += 1;
        }
        Ok(())
    }

    ghost unrecorded = { λ symbols o. refl };
}

/// Prints of each target of a file, or among the arguments, whether it names one of the symbols, and which files brought them in.
pub(crate) fn report_users<T: Tree>(
    alloc: Global,
    tree: &mut T,
    args: &[String],
    targets: &Targets,
) -> Result<Outcome, Refusal>
    ensures reads { Reads T.Tree tree.old tree.new (result ≡ Err (Engine Device)) }
    ensures reported { EndsWalk (reading T.is_honest (T.files tree.old) (uses_lines (symbols_of args.now))) true (reports (user_count (symbols_of args.now)))
        T.is_honest (state T.Tree tree.old) targets.now result (state T.Tree tree.new) }
{
    let symbols = AskedSymbols::new(symbols_of(alloc, args)?);
    let mut users = Users { symbols, users: 0 };
    let Reported { text, status, all } = read_each(alloc, tree, &mut users, targets)?;
    let count = Some(Count::Users {
        users: users.users,
        all,
    });
    Ok(Outcome {
        text,
        status,
        count,
    })
}
