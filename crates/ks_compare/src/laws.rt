//! Laws of the changes, by which the layers above speak of them without looking into an entry.
//!
//! Each law is the contract of a call that does nothing.
ghost use Rattle.ks_compare.specs.Laws.{ChangesAreLegal, ChangesAreOne, ChangesExist, FirstChangesAreNames, NothingChanges, UnchangedIsDefinedAlike, UnchangedIsKept};

/// Two maps have one list of changes.
pub fn changes_are_one()
    ensures exist { ChangesExist }
    ensures one { ChangesAreOne }
{}

/// Where all names of the two maps are legal, each changed name is.
pub fn changes_are_legal()
    ensures { ChangesAreLegal }
{}

/// The first synchronisation changes each name that has a value or a companion, and one after it with the same settings none.
pub fn first_changes_are_names()
    ensures names { FirstChangesAreNames }
    ensures again { NothingChanges }
{}

/// What does not differ is as it was, in auto.conf and in the header.
pub fn unchanged_is_kept()
    ensures kept { UnchangedIsKept }
    ensures alike { UnchangedIsDefinedAlike }
{}
