//! Laws of the definitions, each the contract of a function that does nothing.
ghost use Rattle.ks_builds.specs.Adopted.{NeverTouchedIsTheSame, NumberZeroIsRight};
ghost use Rattle.ks_builds.specs.Between.{LostNumbersBeginAgain, LostRecordsAreLeftOut, OthersMayWrite, PutBackIsShown, RepairsAreBreaks, TreesBeginAgain};
ghost use Rattle.ks_builds.specs.Builds.{BuildsAreRight, WhatIsNotBackdatedIsFresh, WhatIsNotBackdatedIsSafe};
ghost use Rattle.ks_builds.specs.Marked.{WhatIsNotMarkedIsSafe};
ghost use Rattle.ks_builds.specs.Stories.{StoriesAreShown, StoriesReportChanges};

/// What any program may do between two runs, and which history the files show then.
pub fn foreign_writes_are_shown()
    ensures others { OthersMayWrite }
    ensures lost { LostRecordsAreLeftOut }
    ensures repaired { RepairsAreBreaks }
    ensures put_back { PutBackIsShown }
    ensures begun { LostNumbersBeginAgain }
    ensures again { TreesBeginAgain }
{}

/// What another tool compiled may count as recorded before all synchronisations, and what that says of an object.
pub fn never_touched_is_the_same()
    ensures same { NeverTouchedIsTheSame }
    ensures zero { NumberZeroIsRight }
{}

/// What `age` leaves alone.
pub fn what_is_not_backdated_is_safe()
    ensures fresh { WhatIsNotBackdatedIsFresh }
    ensures safe { WhatIsNotBackdatedIsSafe }
{}

/// What `mark` leaves alone.
pub fn what_is_not_marked_is_safe()
    ensures { WhatIsNotMarkedIsSafe }
{}

/// What make may leave as it is: what is reported fresh.
pub fn builds_are_right()
    ensures { BuildsAreRight }
{}

/// Runs of the program, with anything between them that the laws above allow: each history goes on with them, and where no
/// synchronisation was interrupted, what they print of recorded objects is what changed.
pub fn stories_are_shown()
    ensures shown { StoriesAreShown }
    ensures changes { StoriesReportChanges }
{}
