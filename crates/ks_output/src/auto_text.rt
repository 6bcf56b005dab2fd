//! auto.conf as it is written: for each symbol that has a value its class and its text, and the generation.
//!
//! The heading and the entries are those of conf_write_autoconf in scripts/kconfig/confdata.c. That names rise, that
//! a string stands without quotes, and the lines of classes and of the generation are rules of this project. A class
//! is written as a comment, which make and Kbuild pass over.
ghost use Rattle.std.specs.Prelude.{◌≡◌, ◌++◌, OnOk, OnErr, length, min};
ghost use Rattle.ks_output.specs.Appending.{Keeps};
ghost use Rattle.ks_output.specs.AutoText.{auto_text, heading, class_line, entry_line, generation_line};

use crate::appending::append_all;
use itoa::Buffer;
use ks_symbols::{Class, Settings};
use std::alloc::AllocError;

/// Appends the heading with a title, and the mark of the typed form.
fn append_heading(title: &[u8], out: &mut Vec<u8>) -> Result<(), AllocError>
    ensures written { OnOk result (out.new.items ≡ out.old.items ++ heading title.now) }
    ensures kept { Keeps out.old.items out.new.items }
{
    append_all(
        &[
            b"#\n# Automatically generated file; DO NOT EDIT.\n# ",
            title,
            b"\n#\n#typed\n",
        ],
        out,
    )
}

/// Appends the line of an entry's class, which a bool or tristate goes without.
fn append_class(name: &[u8], class: Class, out: &mut Vec<u8>) -> Result<(), AllocError>
    ensures written { OnOk result (out.new.items ≡ out.old.items ++ class_line name.now class) }
    ensures kept { Keeps out.old.items out.new.items }
{
    match class {
        Class::Switch => Ok(()),
        Class::Text => append_all(&[b"#type ", name, b" string\n"], out),
        Class::Int => append_all(&[b"#type ", name, b" int\n"], out),
        Class::Hex => append_all(&[b"#type ", name, b" hex\n"], out),
        Class::Raw => append_all(&[b"#type ", name, b" raw\n"], out),
        Class::Flag => append_all(&[b"#type ", name, b" flag\n"], out),
    }
}

/// Appends the line of an entry.
fn append_entry(name: &[u8], text: &[u8], out: &mut Vec<u8>) -> Result<(), AllocError>
    ensures written { OnOk result (out.new.items ≡ out.old.items ++ entry_line name.now text.now) }
    ensures kept { Keeps out.old.items out.new.items }
{
    append_all(&[b"CONFIG_", name, b"=", text, b"\n"], out)
}

/// Appends the line of a generation, or a beginning of it. Alone it is an auto.conf that says nothing of any name.
pub fn append_generation(generation: u64, out: &mut Vec<u8>) -> Result<(), AllocError>
    ensures written { OnOk result (out.new.items ≡ out.old.items ++ generation_line generation) }
    ensures kept { Keeps out.old.items out.new.items }
{
    let mut buffer = Buffer::new();
    let digits = buffer.format(generation);
    append_all(&[b"#generation ", digits.as_bytes(), b"\n"], out)
}

/// How many bytes the heading with a title takes.
fn heading_len(title: &[u8]) -> usize
    ensures { result ≡ length (heading title.now) }
{
    b"#\n# Automatically generated file; DO NOT EDIT.\n# \n#\n#typed\n".len() + title.len()
}

/// How many bytes the line of an entry's class takes.
fn class_len(name: &[u8], class: Class) -> usize
    ensures { result ≡ length (class_line name.now class) }
{
    match class {
        Class::Switch => 0,
        Class::Text => b"#type  string\n".len() + name.len(),
        Class::Int => b"#type  int\n".len() + name.len(),
        Class::Hex => b"#type  hex\n".len() + name.len(),
        Class::Raw => b"#type  raw\n".len() + name.len(),
        Class::Flag => b"#type  flag\n".len() + name.len(),
    }
}

/// How many bytes the line of a generation takes.
fn generation_len(generation: u64) -> usize
    ensures { result ≡ length (generation_line generation) }
{
    let mut buffer = Buffer::new();
    b"#generation \n".len() + buffer.format(generation).len()
}

/// How many bytes auto.conf has, or the greatest number where it has more. Who asks for nothing else needs no text.
#[tactic(auto, unfolding(crate::specs::AutoText::auto_text))]
pub fn auto_len(settings: &Settings, title: &[u8], generation: u64) -> usize
    ensures { result ≡ min (length (auto_text title.now settings.now.entries generation)) 18446744073709551615 }
{
    let mut len = heading_len(title);
    for (name, kind, text) in settings.entries() {
        len = len
            .saturating_add(class_len(name, kind.class()))
            .saturating_add(b"CONFIG_=\n".len() + name.len())
            .saturating_add(text.len());
    }
    len.saturating_add(generation_len(generation))
}

/// Appends auto.conf, or a beginning of it. The room is made at once: a vector that grows leaves its smaller selves behind.
#[tactic(auto, unfolding(crate::specs::AutoText::auto_text))]
fn append_auto(
    settings: &Settings,
    title: &[u8],
    generation: u64,
    out: &mut Vec<u8>,
) -> Result<(), AllocError>
    ensures written { OnOk result (out.new.items ≡ out.old.items ++ auto_text title.now settings.now.entries generation) }
    ensures kept { Keeps out.old.items out.new.items }
{
    out.reserve_exact(auto_len(settings, title, generation))?;
    append_heading(title, out)?;
    for (name, kind, text) in settings.entries() {
        append_class(name, kind.class(), out)?;
        append_entry(name, text, out)?;
    }
    append_generation(generation, out)
}

/// Appends auto.conf, or leaves the vector as it was.
pub fn write_auto(
    settings: &Settings,
    title: &[u8],
    generation: u64,
    out: &mut Vec<u8>,
) -> Result<(), AllocError>
    ensures written { OnOk result (out.new.items ≡ out.old.items ++ auto_text title.now settings.now.entries generation) }
    ensures kept { OnErr result (out.new.items ≡ out.old.items) }
{
    let start = out.len();
    match append_auto(settings, title, generation, out) {
        Ok(()) => Ok(()),
        Err(refused) => {
            out.truncate(start);
            Err(refused)
        }
    }
}
