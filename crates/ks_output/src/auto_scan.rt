//! The generation of an auto.conf that comes in pieces. Its lines are looked at as those of a whole one, and none is kept: a piece is
//! whole lines, and what stands behind the last of them is given once more, in front of the next piece.
ghost use Rattle.std.specs.Prelude.{◌≡◌, ◌<◌, ◌≤◌, ◌+◌, ◌++◌, ◌∷◌, [], false, true, IfErr, IfOk, IsErrOf, OnOk, List, ℕ, None, Some, length, take};
ghost use Rattle.bstr.specs.Text.{lines_of};
ghost use Rattle.ks_symbols.specs.Lines.{max_bytes};
ghost use Rattle.ks_symbols.specs.Refusals.{RefusedBy};
ghost use Rattle.ks_output.specs.declared.auto_conf.AutoError.TheVariants.{OutOfMemory, TooLarge};
ghost use Rattle.ks_output.specs.AutoConf.{auto_generation, auto_refusal};
ghost use Rattle.ks_output.specs.AutoLines.{AreWhole};
ghost use Rattle.ks_output.specs.Positions.{seen_position, wants_entry};

use crate::auto_conf::{AutoError, Lines};
use crate::positions::Position;
use ks_symbols::MAX_BYTES;
use memchr::memrchr;

/// How far an auto.conf was read, and what that says of the rest.
#[derive(Drop)]
pub struct AutoScan {
    position: Position<'static>,
    number: u64,
    generation: u64,
    /// Why it is refused, unless it is too large.
    fault: Option<AutoError>,
    len: usize,
    ghost counted: { (0 < number) × (number ≤ len + 1) × (len ≤ 67108864) },
    ghost is_settled: { wants_entry (seen_position position) ≡ false },
}

/// The whole lines that a text begins with.
fn whole_lines(text: &[u8]) -> &[u8]
    ensures within { length result.now ≤ length text.now }
    ensures front { result.now ≡ take (length result.now) text.now }
    ensures whole { AreWhole result.now }
{
    match memrchr(b'\n', text) {
        Some(end) => &text[..end + 1],
        None => &text[..0],
    }
}

/// Whole lines without the last of them.
fn without_last(lines: &[u8]) -> &[u8]
    requires some { 0 < length lines.now }
    ensures within { length result.now ≤ length lines.now }
    ensures front { result.now ≡ take (length result.now) lines.now }
    ensures whole { AreWhole result.now }
    ensures last { (line : List ℕ) × (lines_of lines.now ≡ lines_of result.now ++ line ∷ []) }
{
    match memrchr(b'\n', &lines[..lines.len() - 1]) {
        Some(end) => &lines[..end + 1],
        None => &lines[..0],
    }
}

/// Whole lines that are taken, by the position after them: all, but for the line of a class at their end.
fn settled_lines<'a>(lines: &'a [u8], position: Position<'_>) -> &'a [u8]
    requires some { wants_entry (seen_position position) ≡ true → 0 < length lines.now }
    requires whole { AreWhole lines.now }
    ensures within { length result.now ≤ length lines.now }
    ensures front { result.now ≡ take (length result.now) lines.now }
    ensures whole { AreWhole result.now }
    ensures all { wants_entry (seen_position position.entry) ≡ false → result.now ≡ lines.now }
    ensures last { wants_entry (seen_position position.entry) ≡ true → (line : List ℕ) × (lines_of lines.now ≡ lines_of result.now ++ line ∷ []) }
{
    if position.wants_entry() {
        return without_last(lines);
    }
    lines
}

impl AutoScan {
    ghost use Rattle.ks_output.specs.AutoScan.{StandsAfter};

    /// A scan that stands before the first piece.
    pub fn new() -> AutoScan
        ensures { StandsAfter result [] }
    {
        AutoScan {
            position: Position::Front,
            number: 1,
            generation: 0,
            fault: None,
            len: 0,
        }
    }

    /// Takes the whole lines of a piece that isn't the last one, and tells how many bytes these are. The line of a class is only taken
    /// with the entry after it. What isn't taken is to stand in front of the next piece.
    pub fn feed(&mut self, piece: &[u8]) -> Result<usize, AutoError>
        ensures within { IfOk result (λ n. n ≤ length piece.now) }
        ensures stands { (t : List ℕ) → StandsAfter self.old t → IfOk result (λ n. StandsAfter self.new (t ++ take n piece.now)) }
        ensures small { (t : List ℕ) → StandsAfter self.old t → OnOk result (length (t ++ piece.now) ≤ max_bytes) }
        ensures refused { (t : List ℕ) → StandsAfter self.old t → IfErr result (λ e. (e ≡ TooLarge) × (max_bytes < length (t ++ piece.now))) }
    {
        if piece.len() > MAX_BYTES - self.len {
            return Err(AutoError::TooLarge);
        }
        if self.fault.is_some() {
            self.len += piece.len();
            return Ok(piece.len());
        }
        let whole = whole_lines(piece);
        let mut lines = Lines::of(whole, self.position, self.number);
        let generation = match lines.pass_all(self.generation) {
            Ok(generation) => generation,
            Err(fault) => {
                self.fault = Some(fault);
                self.len += piece.len();
                return Ok(piece.len());
            }
        };
        let taken = settled_lines(whole, lines.position).len();
        self.position = lines.position.before_class();
        self.number = lines.position.blamed(lines.number);
        self.generation = generation;
        self.len += taken;
        Ok(taken)
    }

    /// Takes the last piece, and gives the generation of the whole auto.conf.
    pub fn finish(self, piece: &[u8]) -> Result<u64, AutoError>
        ensures generation { (t : List ℕ) → StandsAfter self t → IfOk result (λ g. g ≡ auto_generation (t ++ piece.now)) }
        ensures refusal { (t : List ℕ) → StandsAfter self t → RefusedBy OutOfMemory result (auto_refusal (t ++ piece.now)) }
        ensures memory { (t : List ℕ) → StandsAfter self t → IsErrOf result OutOfMemory → ⊥ }
    {
        if piece.len() > MAX_BYTES - self.len {
            return Err(AutoError::TooLarge);
        }
        if let Some(fault) = self.fault {
            return Err(fault);
        }
        let mut lines = Lines::of(piece, self.position, self.number);
        let generation = lines.pass_all(self.generation)?;
        lines.check_end()?;
        Ok(generation)
    }
}

/// The generation that an auto.conf has. Its lines are looked at as `read_auto` does, and no text is kept.
pub fn read_auto_generation(text: &[u8]) -> Result<u64, AutoError>
    ensures generation { IfOk result (λ g. g ≡ auto_generation text.now) }
    ensures refusal { RefusedBy AutoError.OutOfMemory result (auto_refusal text.now) }
    ensures memory { IsErrOf result AutoError.OutOfMemory → ⊥ }
{
    AutoScan::new().finish(text)
}
