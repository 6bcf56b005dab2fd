//! A command file in memory of its own, for those who keep it longer than its text.
ghost use Rattle.std.specs.Prelude.{◌≡◌, IfOk, IsTrue, map};
ghost use Rattle.std.specs.List.{list_all};
ghost use Rattle.ks_fixdep.specs.CommandFile.{IsLegal, is_dep, view};
ghost use Rattle.ks_fixdep.specs.Borrowed.{borrowed_view, seen_dep};

use super::{BorrowedCommand, BorrowedDep, CommandFile, Dep};
use ks_symbols::{Name, Path};
use std::alloc::{AllocError, Global};

/// The same dependencies.
fn own_deps(alloc: Global, deps: &[BorrowedDep<'_>]) -> Result<Vec<Dep>, AllocError>
    requires { IsTrue (list_all is_dep (map seen_dep deps.now)) }
    ensures { IfOk result (λ r. r.items ≡ map seen_dep deps.now) }
{
    let mut owned = Vec::new(alloc);
    for dep in deps {
        match dep {
            BorrowedDep::File(path) => owned.push(Dep::File(Path::new(alloc, path)?))?,
            BorrowedDep::Config(name) => {
                owned.push(Dep::Config(Name::new(alloc, name.as_bytes())?))?;
            }
        }
    }
    Ok(owned)
}

/// The same command file.
#[tactic(auto, unfolding(ks_symbols::specs::Names::is_target))]
pub(crate) fn own_command(
    alloc: Global,
    file: &BorrowedCommand<'_>,
) -> Result<CommandFile, AllocError>
    requires { IsLegal (borrowed_view file.now) }
    ensures { IfOk result (λ f. view f ≡ borrowed_view file.now) }
{
    Ok(CommandFile {
        target: Path::new(alloc, file.target)?,
        command: file.command.to_vec(alloc)?,
        source: Path::new(alloc, file.source)?,
        deps: own_deps(alloc, &file.deps)?,
        generation: file.generation,
    })
}
