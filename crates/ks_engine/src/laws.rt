//! Laws of the definitions, each the contract of a function that does nothing.
ghost use Rattle.ks_engine.specs.OtherRecords.{OtherRecordsDoNotMatter};
ghost use Rattle.ks_engine.specs.Explained.{PlacesAreFirst, PlacesAreTheirs};
ghost use Rattle.ks_engine.specs.Laws.{BuildsAreEvaluated, EmptyTreeShows, ExplanationsAreEvaluated, FileRunsGoOn, ImpactsAreEvaluated, MadeStampsShow, NotNumberedTreeShows, UsualTreeShows, UntypedTreeShows, PlansAreOne, SuspicionsHaveCauses, VerdictsAreEvaluated};

/// There are trees to begin with: an empty one, each of Kbuild, and each that the untyped form left, whose stamps may
/// be one above the generation where a synchronisation was broken off. And each whose command files have lost their numbers: as
/// long as none is recorded anew, none is called fresh there.
pub fn beginnings_are_shown()
    ensures empty { EmptyTreeShows }
    ensures usual { UsualTreeShows }
    ensures untyped { UntypedTreeShows }
    ensures not_numbered { NotNumberedTreeShows }
{}

/// A synchronisation comes to one thing: no tree and no texts have both a plan and a refusal, or two of either.
pub fn plans_are_one()
    ensures { PlansAreOne }
{}

/// A name of an object is suspect only where a synchronisation that began after the last one before its record would change it.
pub fn suspicions_have_causes()
    ensures { SuspicionsHaveCauses }
{}

/// What is said of an object goes by its own records: a history without those of all others says the same of it. So objects may
/// be recorded in any order, and side by side.
pub fn other_records_do_not_matter()
    ensures { OtherRecordsDoNotMatter }
{}

/// A name of a record stands after the first prerequisite in which it was found. A scanned prerequisite, as another rule of a
/// dependency file has one, has no line of its own: its names stand after the last one that has. `theirs` is said of lists
/// that have none of these, as a dependency file of a single rule makes them.
pub fn places_are_first()
    ensures first { PlacesAreFirst }
    ensures theirs { PlacesAreTheirs }
{}

/// What is said of a run by its files says what its history is: there is a run from each history that the first files show.
pub fn file_runs_go_on()
    ensures { FileRunsGoOn }
{}

/// What is answered by the files says of a recorded object what was touched since its record, or would be, by each history that the
/// files show.
pub fn answers_are_evaluated()
    ensures verdicts { VerdictsAreEvaluated }
    ensures explanations { ExplanationsAreEvaluated }
    ensures impacts { ImpactsAreEvaluated }
    ensures builds { BuildsAreEvaluated }
{}

/// A missing stamp counts as 0, and one that is made holds 0. So a tree shows what it showed where missing ones are made.
pub fn made_stamps_show()
    ensures { MadeStampsShow }
{}
