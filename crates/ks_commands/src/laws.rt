//! Laws of the definitions, each the contract of a function that does nothing.
ghost use Rattle.ks_commands.specs.PreviewLaws.{PreviewsAreRefusedAsSyncs, PreviewsReportSyncs};
ghost use Rattle.ks_commands.specs.Laws.{BatchReportsChanges, PreviewsArePerformed, RefusalsChangeNothing, RequestsGoOn, StatusesAreAtMostTwo, StatusesReportDifferences, WhatChangedIsBackdated};
ghost use Rattle.ks_commands.specs.TreeStatusLaws.{SameTreesTouchNothing, SynchronisedTreesAreSame, SynchronisedTreesAreWhole};

/// What is said of a request by the files of an honest tree says what becomes of each history that they show.
pub fn requests_go_on()
    ensures { RequestsGoOn }
{}

/// What is said of a preview as a caller has its arguments.
pub fn previews_are_performed()
    ensures { PreviewsArePerformed }
{}

/// What a preview over a tree's own auto.conf tells of a synchronisation of the same texts.
pub fn previews_report_synchronisations()
    ensures reported { PreviewsReportSyncs }
    ensures refused { PreviewsAreRefusedAsSyncs }
{}

/// What a refusal leaves, memory and the device aside.
pub fn refusals_change_nothing()
    ensures { RefusalsChangeNothing }
{}

/// What the status can be, also on a tree that is not honest.
pub fn statuses_are_at_most_two()
    ensures { StatusesAreAtMostTwo }
{}

/// What the status of `diff --exit-code` and `diff --quiet` says.
pub fn statuses_report_differences()
    ensures { StatusesReportDifferences }
{}

/// What `status` says of a tree that was just synchronised, and what a synchronisation does where it says that all is the same.
pub fn statuses_tell_synchronisations()
    ensures whole { SynchronisedTreesAreWhole }
    ensures same { SynchronisedTreesAreSame }
    ensures nothing { SameTreesTouchNothing }
{}

/// A script that runs without a refusal tells what changed, where nothing was broken off before it.
pub fn batch_reports_changes()
    ensures { BatchReportsChanges }
{}

/// What `backdate` is for. Make compiles an object that is older than one of its prerequisites, and a backdated one is older than each
/// stamp that a synchronisation has written: so make compiles what changed, whatever a clock said.
pub fn what_changed_is_backdated()
    ensures { WhatChangedIsBackdated }
{}
