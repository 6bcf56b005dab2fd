//! Putting back what the last completed synchronisation left, where another tool was at work in the tree: it may have written
//! auto.conf and the header anew, and have emptied the stamps of what it changed. What was recorded with a number is still about
//! the auto.conf that was kept. So that comes back with its header, and each name whose stamp says nothing counts as changed now.
//! Where the tree has numbers that the kept auto.conf can't know of, what they are about is lost: no record keeps its number, and the
//! numbers begin again above all of them.
ghost use Rattle.std.specs.Prelude.{◌≡◌, ◌⊎◌, ◌<◌, ◌≤◌, ◌+◌, ℕ, List, [], ◌∷◌, Some, None, Ok, Err, true, false, IfErr, IfNone, IfOk, IfSome, IsErrOf, IsTrue, OnErr, OnOk, length, map, max};
ghost use Rattle.std.specs.List.{All};
ghost use Rattle.ks_symbols.specs.Names.{is_name, is_target};
ghost use Rattle.ks_tree.specs.Files.{IsTooLarge, content};
ghost use Rattle.ks_tree.specs.Frames.{Counted, Reads};
ghost use Rattle.ks_tree.specs.Paths.{auto_path, command_path, stamp_path};
ghost use Rattle.ks_engine.specs.Refusals.{Answers, IsAborted};
ghost use Rattle.ks_engine.specs.Repairs.{AreStamps, BeginningLeaves, Forgets, ForgetsSome, HasBadTarget, HasLargeStamp, IsBeginning, IsBeginningRefused, IsBegun, IsHighestRecord, IsLast, IsPutBack, IsRecordNumber, IsRepairRefusal, IsRepaired, IsRepairRefused, IsStampNumber, IsSurvey, IsWithoutNumber, RepairLeaves, generation_in, kept_auto};

use crate::EngineError;
use crate::staleness::borrow_for;
use ks_fixdep::{CommandError, read_command, write_command};
use ks_output::{append_generation, read_auto_generation};
use ks_symbols::{Name, target_is_legal};
use ks_tree::{
    Tree, TreeError, TreeFault, auto_path, auto_temporary, command_path, command_temporary,
    header_path, header_temporary, read_stamp, replace, touch_all,
};
use std::alloc::{AllocError, Global};

/// The auto.conf and the header of the last completed synchronisation, as somebody kept them.
#[derive(Drop)]
pub struct Kept {
    pub auto: Vec<u8>,
    pub header: Vec<u8>,
}

/// What a repair found and did.
#[derive(Clone, Copy, Debug, PartialEq, Eq)]
pub enum Repaired {
    /// The kept auto.conf of this generation is back, and so many stamps count as changed after it.
    PutBack { generation: u64, stamps: usize },
    /// Numbers were lost. They begin again at this generation, and no record has one.
    BegunAgain { generation: u64 },
    /// There is no number yet. Nothing was written.
    Nothing,
}

/// The generation of what was kept, which is 0 where nothing was.
fn kept_generation(kept: &Option<Kept>) -> Result<u64, EngineError>
    ensures read { Answers (generation_in (kept_auto kept.now)) (λ g. g) result }
    ensures no_device { IsErrOf result EngineError.Device → ⊥ }
{
    match kept {
        Some(kept) => Ok(read_auto_generation(&kept.auto)?),
        None => Ok(0),
    }
}

/// The generation of the auto.conf that is there, which is 0 where none is.
fn present_generation<T: Tree>(alloc: Global, tree: &mut T) -> Result<u64, EngineError>
    ensures reads { Reads T.Tree tree.old tree.new (IsErrOf result EngineError.Device) }
    ensures read { T.is_honest → Answers (generation_in (content (T.files tree.old) auto_path)) (λ g. g) result }
{
    match tree.read(alloc, auto_path())? {
        Some(text) => Ok(read_auto_generation(&text)?),
        None => Ok(0),
    }
}

/// The generation in the text of an object's command file, or 0 where it is faulty or has none.
fn number_in(alloc: Global, target: &[u8], text: &[u8]) -> Result<u64, AllocError>
    ensures { IfOk result (IsRecordNumber target.now (Some text.now)) }
{
    match borrow_for(alloc, target, text) {
        Ok(file) => Ok(file.generation.unwrap_or(0)),
        Err(EngineError::OutOfMemory) => Err(AllocError),
        Err(_) => Ok(0),
    }
}

/// The generation of an object's record, or 0. What is faulty or too large is no record: nothing calls its object fresh.
fn record_number<T: Tree>(alloc: Global, tree: &mut T, target: &[u8]) -> Result<u64, EngineError>
    ensures reads { Reads T.Tree tree.old tree.new (IsErrOf result EngineError.Device) }
    ensures number { T.is_honest → IfOk result (IsRecordNumber target.now (content (T.files tree.old) (command_path target.now))) }
    ensures refused { IfErr result IsAborted }
{
    let path = command_path(alloc, target)?;
    match tree.read(alloc, &path) {
        Ok(Some(text)) => Ok(number_in(alloc, target, &text)?),
        Ok(None) | Err(TreeFault::TooLarge) => Ok(0),
        Err(fault) => Err(EngineError::from(fault)),
    }
}

/// The highest generation of objects' records.
fn highest_record<T: Tree>(
    alloc: Global,
    tree: &mut T,
    targets: &[&[u8]],
) -> Result<u64, EngineError>
    ensures reads { Reads T.Tree tree.old tree.new (IsErrOf result EngineError.Device) }
    ensures highest { T.is_honest → IfOk result (IsHighestRecord (T.files tree.old) (map (λ t. t.now) targets.now)) }
    ensures refused { IfErr result (λ e. IsAborted e ⊎ (HasBadTarget (map (λ t. t.now) targets.now) × (e ≡ EngineError.BadPath 0))) }
{
    let mut highest = 0;
    for target in targets {
        if !target_is_legal(target) {
            return Err(EngineError::BadPath(0));
        }
        highest = highest.max(record_number(alloc, tree, target)?);
    }
    Ok(highest)
}

/// The number of a name's stamp, or `None` where the stamp says nothing.
fn stamp_number<T: Tree>(
    alloc: Global,
    tree: &mut T,
    name: &Name,
) -> Result<Option<u64>, EngineError>
    ensures reads { Reads T.Tree tree.old tree.new (IsErrOf result EngineError.Device) }
    ensures number { T.is_honest → IfOk result (IsStampNumber (content (T.files tree.old) (stamp_path name.now))) }
    ensures refused { T.is_honest → IfErr result (λ e. IsAborted e ⊎ (IsTooLarge (content (T.files tree.old) (stamp_path name.now)) × (e ≡ EngineError.TooLarge))) }
{
    match read_stamp(alloc, tree, name) {
        Ok(0) | Err(TreeError::BadStamp(_)) => Ok(None),
        Ok(number) => Ok(Some(number)),
        Err(error) => Err(EngineError::from(error)),
    }
}

/// What the stamps of names say: which say nothing, and the highest number of the others.
#[derive(Drop)]
struct StampNumbers {
    lost: Vec<Name>,
    highest: u64,
}

fn look_at_stamps<T: Tree>(
    alloc: Global,
    tree: &mut T,
    names: &[Name],
) -> Result<StampNumbers, EngineError>
    ensures reads { Reads T.Tree tree.old tree.new (IsErrOf result EngineError.Device) }
    ensures stamps { T.is_honest → IfOk result (λ s. AreStamps (T.files tree.old) names.now s.lost.items s.highest) }
    ensures refused { T.is_honest → IfErr result (λ e. IsAborted e ⊎ (HasLargeStamp (T.files tree.old) names.now × (e ≡ EngineError.TooLarge))) }
{
    let mut lost = Vec::new(alloc);
    let mut highest = 0;
    for name in names {
        let bytes = name.as_bytes();
        match stamp_number(alloc, tree, name)? {
            Some(number) => highest = highest.max(number),
            None => lost.push(Name::new(alloc, bytes)?)?,
        }
    }
    Ok(StampNumbers { lost, highest })
}

/// All that decides what is done.
#[derive(Drop)]
struct Survey {
    generation: u64,
    records: u64,
    stamps: u64,
    lost: Vec<Name>,
}

impl Survey {
    /// Whether what was kept is of the last synchronisation that left numbers here.
    fn is_last(&self) -> bool
        ensures last { result ≡ true → IsLast self.now.generation self.now.records self.now.stamps }
        ensures not_last { result ≡ false → IsLast self.now.generation self.now.records self.now.stamps → ⊥ }
    {
        self.generation > 0
            && self.records <= self.generation
            && self.stamps.saturating_sub(1) <= self.generation
    }
}

fn survey_tree<T: Tree>(
    alloc: Global,
    tree: &mut T,
    kept: &Option<Kept>,
    names: &[Name],
    targets: &[&[u8]],
) -> Result<Survey, EngineError>
    ensures reads { Reads T.Tree tree.old tree.new (IsErrOf result EngineError.Device) }
    ensures found { T.is_honest → IfOk result (λ s. IsSurvey (T.files tree.old) kept.now names.now (map (λ t. t.now) targets.now) s.generation s.records s.stamps s.lost.items) }
    ensures refused { T.is_honest → IfErr result (λ e. IsAborted e ⊎ IsRepairRefusal (T.files tree.old) kept.now names.now (map (λ t. t.now) targets.now) e) }
{
    let generation = kept_generation(kept)?;
    let records = highest_record(alloc, tree, targets)?;
    let StampNumbers {
        lost,
        highest: stamps,
    } = look_at_stamps(alloc, tree, names)?;
    Ok(Survey {
        generation,
        records,
        stamps,
        lost,
    })
}

/// The stamps, then the header, then auto.conf, as a synchronisation writes them: as long as auto.conf is the other tool's, the next
/// repair finds the same.
fn write_back<T: Tree>(
    alloc: Global,
    tree: &mut T,
    kept: &Kept,
    lost: &[Name],
    number: u64,
) -> Result<(), TreeFault>
    requires legal { T.is_honest → All (λ x. IsTrue (is_name x)) lost.now }
    ensures all { T.is_honest → OnOk result (IsPutBack (T.files tree.old) (T.files tree.new) kept.now number lost.now) }
    ensures some { T.is_honest → OnErr result ((renewed : List (List ℕ)) × RepairLeaves (T.files tree.old) (T.files tree.new) kept.now number lost.now renewed) }
    ensures never { IsErrOf result TreeFault.TooLarge → ⊥ }
    ensures counted { Counted T.Tree tree.old tree.new (IsErrOf result TreeFault.Device) }
    ensures kept { T.backdated tree.new ≡ T.backdated tree.old }
{
    touch_all(alloc, tree, lost, number)?;
    replace(alloc, tree, header_temporary(), header_path(), &kept.header)?;
    replace(alloc, tree, auto_temporary(), auto_path(), &kept.auto)
}

/// What was kept, if it is of the last synchronisation.
fn last_kept<'a>(kept: &'a Option<Kept>, survey: &Survey) -> Option<&'a Kept>
    ensures last { IfSome result (λ k. (kept.now ≡ Some k.now) × IsLast survey.now.generation survey.now.records survey.now.stamps) }
    ensures not_last { IfNone result ((kept.now ≡ None) ⊎ (IsLast survey.now.generation survey.now.records survey.now.stamps → ⊥)) }
{
    match kept {
        Some(kept) => { if survey.is_last() { Some(kept) } else { None } }
        None => None,
    }
}

/// Puts back what was kept, if a generation comes after its own.
fn put_back<T: Tree>(
    alloc: Global,
    tree: &mut T,
    kept: &Kept,
    survey: &Survey,
) -> Result<Repaired, EngineError>
    requires legal { T.is_honest → All (λ x. IsTrue (is_name x)) survey.now.lost.items }
    ensures done { T.is_honest → IfOk result (λ r. (r ≡ Repaired.PutBack survey.now.generation (length survey.now.lost.items))
        × (survey.now.generation < 18446744073709551615)
        × IsPutBack (T.files tree.old) (T.files tree.new) kept.now (survey.now.generation + 1) survey.now.lost.items) }
    ensures refused { T.is_honest → IfErr result (λ e.
        ((T.files tree.new ≡ T.files tree.old) × (survey.now.generation ≡ 18446744073709551615) × (e ≡ EngineError.GenerationFull))
        ⊎ (IsAborted e × ((renewed : List (List ℕ))
        × RepairLeaves (T.files tree.old) (T.files tree.new) kept.now (survey.now.generation + 1) survey.now.lost.items renewed))) }
    ensures counted { Counted T.Tree tree.old tree.new (IsErrOf result EngineError.Device) }
    ensures kept { T.backdated tree.new ≡ T.backdated tree.old }
{
    if survey.generation == u64::MAX {
        return Err(EngineError::GenerationFull);
    }
    write_back(alloc, tree, kept, &survey.lost, survey.generation + 1)?;
    Ok(Repaired::PutBack {
        generation: survey.generation,
        stamps: survey.lost.len(),
    })
}

/// The text of a command file without its number, if it has one. What Kbuild has appended goes with it.
fn without_number(alloc: Global, target: &[u8], text: &[u8]) -> Result<Option<Vec<u8>>, AllocError>
    ensures { IfOk result (IsWithoutNumber target.now text.now) }
{
    let mut file = match read_command(alloc, text) {
        Ok(file) => file,
        Err(CommandError::OutOfMemory) => return Err(AllocError),
        Err(_) => return Ok(None),
    };
    if file.target.as_bytes() != target || file.generation.unwrap_or(0) == 0 {
        return Ok(None);
    }
    file.generation = None;
    let mut plain = Vec::new(alloc);
    write_command(&file, &mut plain)?;
    Ok(Some(plain))
}

/// Takes its number from the record of an object.
fn forget_record<T: Tree>(alloc: Global, tree: &mut T, target: &[u8]) -> Result<(), EngineError>
    ensures all { T.is_honest → OnOk result (Forgets (target.now ∷ []) (T.files tree.old) (T.files tree.new)) }
    ensures some { T.is_honest → OnErr result (ForgetsSome (target.now ∷ []) (T.files tree.old) (T.files tree.new)) }
    ensures refused { IfErr result IsAborted }
    ensures counted { Counted T.Tree tree.old tree.new (IsErrOf result EngineError.Device) }
    ensures kept { T.backdated tree.new ≡ T.backdated tree.old }
{
    let path = command_path(alloc, target)?;
    let text = match tree.read(alloc, &path) {
        Ok(Some(text)) => text,
        Ok(None) | Err(TreeFault::TooLarge) => return Ok(()),
        Err(fault) => return Err(EngineError::from(fault)),
    };
    match without_number(alloc, target, &text)? {
        Some(plain) => {
            let temporary = command_temporary(alloc, target)?;
            Ok(replace(alloc, tree, &temporary, &path, &plain)?)
        }
        None => Ok(()),
    }
}

/// Takes their numbers from the records of these objects.
fn forget_records<T: Tree>(
    alloc: Global,
    tree: &mut T,
    targets: &[&[u8]],
) -> Result<(), EngineError>
    ensures all { T.is_honest → OnOk result (Forgets (map (λ t. t.now) targets.now) (T.files tree.old) (T.files tree.new)) }
    ensures some { T.is_honest → OnErr result (ForgetsSome (map (λ t. t.now) targets.now) (T.files tree.old) (T.files tree.new)) }
    ensures refused { IfErr result IsAborted }
    ensures counted { Counted T.Tree tree.old tree.new (IsErrOf result EngineError.Device) }
    ensures kept { T.backdated tree.new ≡ T.backdated tree.old }
{
    for target in targets {
        forget_record(alloc, tree, target)?;
    }
    Ok(())
}

/// The stamps, then the records, then an auto.conf of the number alone. If it is broken off, the next repair begins again, mostly at
/// the number after this one.
fn write_beginning<T: Tree>(
    alloc: Global,
    tree: &mut T,
    names: &[Name],
    targets: &[&[u8]],
    number: u64,
) -> Result<(), EngineError>
    requires legal { T.is_honest → All (λ x. IsTrue (is_name x)) names.now }
    ensures all { T.is_honest → OnOk result (IsBeginning (T.files tree.old) (T.files tree.new) number names.now (map (λ t. t.now) targets.now)) }
    ensures some { T.is_honest → OnErr result ((renewed : List (List ℕ)) × BeginningLeaves (T.files tree.old) (T.files tree.new) number names.now (map (λ t. t.now) targets.now) renewed) }
    ensures refused { IfErr result IsAborted }
    ensures counted { Counted T.Tree tree.old tree.new (IsErrOf result EngineError.Device) }
    ensures kept { T.backdated tree.new ≡ T.backdated tree.old }
{
    let mut auto = Vec::new(alloc);
    append_generation(number, &mut auto)?;
    touch_all(alloc, tree, names, number)?;
    forget_records(alloc, tree, targets)?;
    Ok(replace(alloc, tree, auto_temporary(), auto_path(), &auto)?)
}

/// Begins the numbers again, if there are any, above all of them. A stamp of 1 alone is left of a first synchronisation that was
/// interrupted, and counts for none.
fn begin_again<T: Tree>(
    alloc: Global,
    tree: &mut T,
    survey: &Survey,
    names: &[Name],
    targets: &[&[u8]],
) -> Result<Repaired, EngineError>
    requires legal { T.is_honest → All (λ x. IsTrue (is_name x)) names.now }
    ensures begun { T.is_honest → IfOk result (λ r. (present : ℕ) × (generation_in (content (T.files tree.old) auto_path) ≡ Ok present)
        × IsBegun (T.files tree.old) (T.files tree.new) (max (max survey.now.generation survey.now.records) present) survey.now.stamps names.now (map (λ t. t.now) targets.now) r) }
    ensures refused { T.is_honest → IfErr result (λ e. ((T.files tree.new ≡ T.files tree.old) × (IsAborted e ⊎ (generation_in (content (T.files tree.old) auto_path) ≡ Err e)))
        ⊎ ((present : ℕ) × (generation_in (content (T.files tree.old) auto_path) ≡ Ok present)
        × IsBeginningRefused (T.files tree.old) (T.files tree.new) (max (max survey.now.generation survey.now.records) present) survey.now.stamps names.now (map (λ t. t.now) targets.now) e)) }
    ensures counted { Counted T.Tree tree.old tree.new (IsErrOf result EngineError.Device) }
    ensures kept { T.backdated tree.new ≡ T.backdated tree.old }
{
    let present = present_generation(alloc, tree)?;
    let numbered = survey.generation.max(survey.records).max(present);
    if numbered == 0 && survey.stamps <= 1 {
        return Ok(Repaired::Nothing);
    }
    let highest = numbered.max(survey.stamps);
    if highest == u64::MAX {
        return Err(EngineError::GenerationFull);
    }
    let generation = highest + 1;
    write_beginning(alloc, tree, names, targets, generation)?;
    Ok(Repaired::BegunAgain { generation })
}

/// Puts back what was kept, where no record and no stamp says that a synchronisation came after it: each of these names whose stamp
/// says nothing gets the next number, then the header comes back, then auto.conf. Else the numbers begin again above all others: each
/// of these names gets that number, no record of these objects keeps one, and then auto.conf says it, and nothing else. After
/// `OutOfMemory` or `Device` some of it may be done, and the next repair does all of it.
pub fn repair<T: Tree>(
    alloc: Global,
    tree: &mut T,
    kept: &Option<Kept>,
    names: &[Name],
    targets: &[&[u8]],
) -> Result<Repaired, EngineError>
    ensures repaired { T.is_honest → IfOk result (IsRepaired (T.files tree.old) (T.files tree.new) kept.now names.now (map (λ t. t.now) targets.now)) }
    ensures refused { T.is_honest → IfErr result (IsRepairRefused (T.files tree.old) (T.files tree.new) kept.now names.now (map (λ t. t.now) targets.now)) }
    ensures counted { Counted T.Tree tree.old tree.new (IsErrOf result EngineError.Device) }
    ensures kept { T.backdated tree.new ≡ T.backdated tree.old }
{
    let found = survey_tree(alloc, tree, kept, names, targets)?;
    match last_kept(kept, &found) {
        Some(last) => put_back(alloc, tree, last, &found),
        None => begin_again(alloc, tree, &found, names, targets),
    }
}
