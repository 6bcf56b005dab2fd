//! Writing a command file. The text grows where it will stand, and a refusal takes back what was written: there is no second copy.
ghost use Rattle.std.specs.Prelude.{◌≡◌, ◌++◌, OnOk, OnErr, flat_map};
ghost use Rattle.ks_fixdep.specs.CommandFile.{back_lines, command_text, dep_line, ended, front_lines, generation_line, view};
ghost use Rattle.ks_fixdep.specs.CommandWriting.{Extends, deps_text, joined};
ghost use Rattle.ks_fixdep.specs.declared.command_file.Dep.TheVariants.{File, Config};

use super::{CommandFile, Dep, layout};
use ks_symbols::write_decimal;
use std::alloc::AllocError;

/// Writes parts, and then a line feed.
pub(super) fn push_line(out: &mut Vec<u8>, parts: &[&[u8]]) -> Result<(), AllocError>
    ensures ok { OnOk result (out.new.items ≡ out.old.items ++ ended (joined parts.now)) }
    ensures extends { Extends out.old.items out.new.items }
{
    for part in parts {
        out.extend_from_slice(part)?;
    }
    out.push(b'\n')?;
    Ok(())
}

/// Writes lines.
pub(super) fn push_lines(out: &mut Vec<u8>, lines: &[&[&[u8]]]) -> Result<(), AllocError>
    ensures ok { OnOk result (out.new.items ≡ out.old.items ++ flat_map (λ l. ended (joined l.now)) lines.now) }
    ensures extends { Extends out.old.items out.new.items }
{
    for line in lines {
        push_line(out, line)?;
    }
    Ok(())
}

/// Writes the line of a listed file.
pub(crate) fn push_file(out: &mut Vec<u8>, path: &[u8]) -> Result<(), AllocError>
    ensures ok { OnOk result (out.new.items ≡ out.old.items ++ ended (dep_line (File path.now))) }
    ensures extends { Extends out.old.items out.new.items }
{
    push_line(out, &[layout::FILE_MARK, path, layout::FILE_END])
}

/// Writes the line of a name.
pub(crate) fn push_name(out: &mut Vec<u8>, name: &[u8]) -> Result<(), AllocError>
    ensures ok { OnOk result (out.new.items ≡ out.old.items ++ ended (dep_line (Config name.now))) }
    ensures extends { Extends out.old.items out.new.items }
{
    push_line(out, &[layout::NAME_MARK, name, layout::NAME_END])
}

/// Writes the dependency lines.
fn push_deps(out: &mut Vec<u8>, deps: &[Dep]) -> Result<(), AllocError>
    ensures ok { OnOk result (out.new.items ≡ out.old.items ++ deps_text deps.now) }
    ensures extends { Extends out.old.items out.new.items }
{
    for dep in deps {
        match dep {
            Dep::File(path) => push_file(out, path.as_bytes())?,
            Dep::Config(name) => push_name(out, name.as_bytes())?,
        }
    }
    Ok(())
}

/// Writes the line of the generation, if there is one.
fn push_generation(out: &mut Vec<u8>, generation: Option<u64>) -> Result<(), AllocError>
    ensures ok { OnOk result (out.new.items ≡ out.old.items ++ flat_map ended (generation_line generation)) }
    ensures extends { Extends out.old.items out.new.items }
{
    if let Some(number) = generation {
        out.extend_from_slice(layout::GENERATION_MARK)?;
        write_decimal(number, out)?;
        out.push(b'\n')?;
    }
    Ok(())
}

/// Writes the lines before those of the dependencies.
pub(crate) fn push_front<'a>(
    out: &mut Vec<u8>,
    target: &'a [u8],
    command: &'a [u8],
    source: &'a [u8],
) -> Result<(), AllocError>
    ensures ok { OnOk result (out.new.items ≡ out.old.items ++ flat_map ended (front_lines target.now command.now source.now)) }
    ensures extends { Extends out.old.items out.new.items }
{
    push_lines(
        out,
        &[
            &[layout::SAVED_MARK, target, layout::ASSIGNMENT, command],
            &[],
            &[layout::SOURCE_MARK, target, layout::ASSIGNMENT, source],
            &[],
            &layout::deps_begin(target),
        ],
    )
}

/// Writes the lines after those of the dependencies.
pub(crate) fn push_back(
    out: &mut Vec<u8>,
    target: &[u8],
    generation: Option<u64>,
) -> Result<(), AllocError>
    ensures ok { OnOk result (out.new.items ≡ out.old.items ++ flat_map ended (back_lines target.now ++ generation_line generation)) }
    ensures extends { Extends out.old.items out.new.items }
{
    push_lines(
        out,
        &[
            &[],
            &layout::target_line(target),
            &[],
            &layout::deps_end(target),
        ],
    )?;
    push_generation(out, generation)
}

fn push_command(file: &CommandFile, out: &mut Vec<u8>) -> Result<(), AllocError>
    ensures ok { OnOk result (out.new.items ≡ out.old.items ++ command_text (view file.now)) }
    ensures extends { Extends out.old.items out.new.items }
{
    let target = file.target.as_bytes();
    push_front(out, target, &file.command, file.source.as_bytes())?;
    push_deps(out, &file.deps)?;
    push_back(out, target, file.generation)
}

/// Writes the text of a command file at the end. An `Err` leaves what was there before.
pub fn write_command(file: &CommandFile, out: &mut Vec<u8>) -> Result<(), AllocError>
    ensures ok { OnOk result (out.new.items ≡ out.old.items ++ command_text (view file.now)) }
    ensures err { OnErr result (out.new.items ≡ out.old.items) }
{
    let len = out.len();
    let result = push_command(file, out);
    if result.is_err() {
        out.truncate(len);
    }
    result
}
