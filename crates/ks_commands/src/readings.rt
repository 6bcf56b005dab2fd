//! The objects of a question about command files: each is asked once, however often it is given.
//!
//! That is asked of command files alone: no stamp and no auto.conf is read. What becomes of a record is the question's, and so is
//! what is kept of it: nothing else stays in memory, however many objects there are.
ghost use Rattle.std.specs.Prelude.{◌≡◌, ◌<◌, ◌++◌, ℕ, List, [], ◌∷◌, Option, None, Some, Err, IfErr, IfOk, OnOk, length, map};
ghost use Rattle.ks_fixdep.specs.Borrowed.{borrowed_view};
ghost use Rattle.ks_fixdep.specs.CommandFile.{CommandRecord};
ghost use Rattle.ks_fixdep.specs.FoundNames.{all_noted};
ghost use Rattle.ks_tree.specs.Frames.{Reads};
ghost use Rattle.ks_engine.specs.FileRuns.{FileState, state};
ghost use Rattle.ks_engine.specs.declared.error.EngineError.TheVariants.{Device};
ghost use Rattle.ks_requests.specs.declared.refusal.Refusal.TheVariants.{Engine};
ghost use Rattle.ks_requests.specs.Statuses.{code_of};
ghost use Rattle.ks_requests.specs.Symbols.{unrecorded_line};
ghost use Rattle.ks_requests.specs.Targets.{targets_at};
ghost use Rattle.ks_commands.specs.Readings.{Adds, AreRead};
ghost use Rattle.ks_commands.specs.Records.{reading};
ghost use Rattle.ks_commands.specs.Walks.{AreAsked, StoppedBy, ReportsOne};

use ks_engine::{borrow_record, read_record};
use ks_fixdep::BorrowedCommand;
use ks_requests::{
    Refusal, Status, Targets, all_targets, borrowed, each_once, read_targets, worse,
    write_refused_target, write_unrecorded,
};
use ks_symbols::Seed;
use ks_tree::Tree;
use std::alloc::{AllocError, Global};

/// A question about command files, with what it keeps of those that it has read.
pub(crate) trait Reader {
    /// The symbols that are asked for, where some are.
    ghost asked: { Self → List (List ℕ) };

    /// The lines of an object, by these symbols and its record.
    ghost line: { List (List ℕ) → List ℕ → Option CommandRecord → List ℕ };

    /// These are the records that it has read.
    ghost has_read: { Self → List CommandRecord → Type 0 };

    /// Keeps what it needs of a record, and writes its lines. After an error nothing is known of what it keeps.
    fn read(
        &mut self,
        alloc: Global,
        target: &[u8],
        file: &BorrowedCommand<'_>,
        text: &mut Vec<u8>,
    ) -> Result<(), AllocError>
        requires { (before : List CommandRecord) × (length before < usize.MAX) × has_read self.old before }
        ensures same { OnOk result (asked self.new ≡ asked self.old) }
        ensures lines { OnOk result (text.new.items ≡ text.old.items ++ line (asked self.old) target.now (Some (borrowed_view file.now))) }
        ensures more { (before : List CommandRecord) → has_read self.old before
            → OnOk result (has_read self.new (before ++ borrowed_view file.now ∷ [])) };

    /// Of an object that has no record every question prints alike.
    ghost unrecorded: { (symbols : List (List ℕ)) (o : List ℕ) → line symbols o None ≡ unrecorded_line o };
}

/// What was printed of all objects.
#[derive(Drop)]
pub(crate) struct Reported {
    pub(crate) text: Vec<u8>,
    pub(crate) status: Status,
    /// How many there are.
    pub(crate) all: usize,
}

/// Reads the command file of an object, and writes its lines; or why there are none.
fn read_one<T: Tree, R: Reader>(
    alloc: Global,
    tree: &mut T,
    reader: &mut R,
    target: &[u8],
    text: &mut Vec<u8>,
) -> Result<Status, AllocError>
    requires { (before : List CommandRecord) × (length before < usize.MAX) × R.has_read reader.old before }
    ensures reads { Reads T.Tree tree.old tree.new ⊥ }
    ensures same { OnOk result (R.asked reader.new ≡ R.asked reader.old) }
    ensures reported { IfOk result (λ status. (one : ReportsOne (reading T.is_honest (T.files tree.old) (R.line (R.asked reader.old)))
        (state T.Tree tree.old) target.now text.old.items text.new.items (code_of status) (state T.Tree tree.new))
        × Adds (R.has_read reader.old) (R.has_read reader.new) one.part.answer) }
{
    let error = match read_record(alloc, tree, target) {
        Ok(Some(record)) => match borrow_record(alloc, target, &record) {
            Ok(file) => {
                reader.read(alloc, target, &file, text)?;
                return Ok(Status::Done);
            }
            Err(error) => error,
        },
        Ok(None) => {
            write_unrecorded(target, text)?;
            return Ok(Status::Done);
        }
        Err(error) => error,
    };
    write_refused_target(target, &error, text)?;
    Ok(Status::Refused)
}

/// Reads the command file of each of these objects, one after the other.
fn read_objects<T: Tree, R: Reader>(
    alloc: Global,
    tree: &mut T,
    reader: &mut R,
    objects: &[&[u8]],
) -> Result<Reported, AllocError>
    requires { R.has_read reader.old [] }
    ensures reads { Reads T.Tree tree.old tree.new ⊥ }
    ensures same { OnOk result (R.asked reader.new ≡ R.asked reader.old) }
    ensures reported { IfOk result (λ reported. AreRead (reading T.is_honest (T.files tree.old) (R.line (R.asked reader.old))) (R.has_read reader.new)
        (map (λ t. t.now) objects.now) (state T.Tree tree.old) reported (state T.Tree tree.new)) }
{
    let mut text = Vec::new(alloc);
    let mut status = Status::Done;
    for target in objects {
        let one = read_one(alloc, tree, reader, *target, &mut text)?;
        status = worse(status, one);
    }
    let all = objects.len();
    Ok(Reported { text, status, all })
}

/// Reads the command file of each of these targets once, however often it is among them.
fn read_once<T: Tree, R: Reader>(
    alloc: Global,
    tree: &mut T,
    reader: &mut R,
    targets: &[&[u8]],
) -> Result<Reported, AllocError>
    requires { R.has_read reader.old [] }
    ensures reads { Reads T.Tree tree.old tree.new ⊥ }
    ensures same { OnOk result (R.asked reader.new ≡ R.asked reader.old) }
    ensures reported { IfOk result (λ reported. AreRead (reading T.is_honest (T.files tree.old) (R.line (R.asked reader.old))) (R.has_read reader.new)
        (all_noted [] (map (λ t. t.now) targets.now)) (state T.Tree tree.old) reported (state T.Tree tree.new)) }
{
    let once = each_once(alloc, Seed::new(tree.seed()), targets)?;
    let objects = once.as_slice();
    read_objects(alloc, tree, reader, objects)
}

/// Reads the command file of each target, among the arguments and in the file, one after the other.
pub(crate) fn read_each<T: Tree, R: Reader>(
    alloc: Global,
    tree: &mut T,
    reader: &mut R,
    targets: &Targets,
) -> Result<Reported, Refusal>
    requires { R.has_read reader.old [] }
    ensures reads { Reads T.Tree tree.old tree.new (result ≡ Err (Engine Device)) }
    ensures same { OnOk result (R.asked reader.new ≡ R.asked reader.old) }
    ensures stopped { IfErr result (λ r. StoppedBy T.is_honest (λ e. targets_at (T.files tree.old) targets.now ≡ Err e) (state T.Tree tree.old) (Err r)
        (state T.Tree tree.new)) }
    ensures reported { IfOk result (λ reported. (objects : List (List ℕ)) × (first : FileState) × AreAsked T.is_honest (state T.Tree tree.old) targets.now objects first
        × AreRead (reading T.is_honest (T.files tree.old) (R.line (R.asked reader.old))) (R.has_read reader.new) (all_noted [] objects) first reported
        (state T.Tree tree.new)) }
{
    let from = read_targets(alloc, tree, targets)?;
    let targets = all_targets(alloc, targets, borrowed(&from))?;
    Ok(read_once(alloc, tree, reader, &targets)?)
}
