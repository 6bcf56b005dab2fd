//! auto.conf as it is read: for each symbol that had a value its text and, in the typed form, its class, and the generation.
//!
//! The next synchronisation finds in it what this one knew. A name without its text would be a change that is never
//! seen, so a line that says nothing known is refused with its number, and a generation cut off by a full disk too.
//! The untyped form, Kbuild's, is read as well; none of its names has a class.
ghost use Rattle.std.specs.Prelude.{◌≡◌, ◌<◌, ◌≤◌, ◌+◌, [], IfErr, IfOk, IsErrOf, List, ℕ, None, Some, length};
ghost use Rattle.ks_symbols.specs.Refusals.{RefusedBy};
ghost use Rattle.ks_output.specs.declared.auto_conf.AutoError.TheVariants.{OutOfMemory};
ghost use Rattle.ks_output.specs.AutoConf.{auto_map, auto_generation, auto_refusal};
ghost use Rattle.ks_output.specs.OldConfig.{HasNames};

use crate::auto_lines::{Remark, after_switch, parse_remark, split_switch};
use crate::old_config::OldConfig;
use crate::positions::Position;
use bstr::{ByteSlice, LinesWithTerminator};
use ks_symbols::{Class, Draft, MAX_BYTES};
use std::alloc::{AllocError, Global};
use thiserror::Error;

/// Why an auto.conf is refused.
#[derive(Clone, Copy, Debug, PartialEq, Eq, Drop, Error)]
pub enum AutoError {
    #[error("9 TooLarge")]
    TooLarge,
    #[error("10 OutOfMemory")]
    OutOfMemory,
    #[error("11 BadAuto line {0}")]
    BadAuto(u64),
}

impl From<AllocError> for AutoError {
    ghost from_gives = { λ _ e. e ≡ OutOfMemory };

    fn from(_e: AllocError) -> AutoError {
        AutoError::OutOfMemory
    }
}

/// The lines of an auto.conf that are left, and where the first of them stands.
#[derive(Drop)]
pub(crate) struct Lines<'a> {
    left: LinesWithTerminator<'a>,
    pub(crate) position: Position<'a>,
    pub(crate) number: u64,
    ghost counted: { (0 < number) × (number + length left ≤ 67108865) },
}

impl<'a> Lines<'a> {
    ghost use Rattle.ks_output.specs.AutoLines.{remarks};
    ghost use Rattle.ks_output.specs.Positions.{Evaluated, PassedEntries, RanOut, refusal_with, stated_left};

    /// The lines of a part of a text, by where its first line stands.
    pub(crate) fn of(text: &'a [u8], position: Position<'a>, number: u64) -> Lines<'a>
        requires counted { (0 < number) × (number + length text.now ≤ 67108865) }
        ensures left { stated_left result ≡ remarks text.now }
        ensures position { result.position ≡ position.entry }
        ensures number { result.number ≡ number }
    {
        Lines {
            left: text.lines_with_terminator(),
            position,
            number,
        }
    }

    /// Passes over the entries of a y or an m that come next in a typed file. They are most of its lines, and say nothing that
    /// the lines after them depend on.
    #[inline(always)]
    fn pass_switches(&mut self)
        ensures passed { PassedEntries self.old self.new }
    {
        let Position::Typed = self.position else {
            return;
        };
        'switches: while let Some(rest) = after_switch(self.left.as_bytes()) {
            self.left = rest.lines_with_terminator();
            self.number += 1;
        }
    }

    /// What the next line says, and the class of an entry there. A line that can't stand there is refused.
    /// Most lines of a typed file are a y or an m: they end right behind it, so no end is looked for.
    #[inline(always)]
    fn next_line(&mut self) -> Result<Option<(Remark<'a>, Option<Class>)>, AutoError>
        ensures evaluated { Evaluated self.old result self.new }
        ensures memory { IsErrOf result AutoError.OutOfMemory → ⊥ }
    {
        if let Position::Typed = self.position
            && let Some((name, text, rest)) = split_switch(self.left.as_bytes())
        {
            self.left = rest.lines_with_terminator();
            self.number += 1;
            return Ok(Some((Remark::Gives(name, text), Some(Class::Switch))));
        }
        let Some(line) = self.left.next() else {
            return Ok(None);
        };
        let position = self.position;
        let remark = parse_remark(line);
        let Some(next) = position.following(remark) else {
            return Err(AutoError::BadAuto(position.blamed(self.number)));
        };
        self.position = next;
        self.number += 1;
        Ok(Some((remark, position.class())))
    }

    /// Passes over all lines that are left, and gives the generation after them, by the one before them.
    pub(crate) fn pass_all(&mut self, mut generation: u64) -> Result<u64, AutoError>
        ensures ran_out { RanOut generation self.old result self.new }
        ensures memory { IsErrOf result AutoError.OutOfMemory → ⊥ }
    {
        'remarks: loop {
            self.pass_switches();
            let Some((remark, _)) = self.next_line()? else {
                return Ok(generation);
            };
            if let Remark::Numbers(last) = remark {
                generation = last;
            }
        }
    }

    /// Refuses the end of the text, if it can't stand here.
    pub(crate) fn check_end(&self) -> Result<(), AutoError>
        ensures accepted { IfOk result (λ _. refusal_with self.now [] ≡ None) }
        ensures refused { IfErr result (λ e. refusal_with self.now [] ≡ Some e) }
        ensures memory { IsErrOf result AutoError.OutOfMemory → ⊥ }
    {
        if self.position.wants_entry() {
            return Err(AutoError::BadAuto(self.position.blamed(self.number)));
        }
        Ok(())
    }
}

/// The texts and the generation that an auto.conf has, also one of Kbuild. Its lines may stand in any order.
pub fn read_auto(alloc: Global, text: &[u8]) -> Result<OldConfig, AutoError>
    ensures texts { IfOk result (λ c. c.texts ≡ auto_map text.now) }
    ensures generation { IfOk result (λ c. c.generation ≡ auto_generation text.now) }
    ensures refusal { RefusedBy AutoError.OutOfMemory result (auto_refusal text.now) }
    ensures names { IfOk result (λ c. HasNames c.texts) }
{
    if text.len() > MAX_BYTES {
        return Err(AutoError::TooLarge);
    }
    let mut lines = Lines::of(text, Position::Front, 1);
    let mut texts = Draft::new(alloc);
    let mut generation = 0;
    while let Some((remark, class)) = lines.next_line()? {
        match remark {
            Remark::Gives(name, text) => texts.put(name, class, text)?,
            Remark::Numbers(last) => generation = last,
            _ => {}
        }
    }
    lines.check_end()?;
    Ok(OldConfig::new(texts.finish(alloc)?, generation))
}
