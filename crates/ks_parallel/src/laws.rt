//! Laws of calls and records side by side, each the contract of a function that does nothing. A parallel build records from many
//! processes, with nothing between them. That each of them may count on what it is promised alone, and that the files are in the
//! end those of one record after the other, in any order, rests on two things: no process uses what another one writes, and no
//! synchronisation runs meanwhile.
ghost use Rattle.ks_parallel.specs.Frames.{DepfilesWriteTheirPaths, RecordsGoByWhatTheyRead, RecordsWriteTwoPaths};
ghost use Rattle.ks_parallel.specs.Orders.{OrdersLeaveTheSame, ViewsAreHonest};
ghost use Rattle.ks_parallel.specs.Runs.{RunsSideBySide};
ghost use Rattle.ks_parallel.specs.Shuffles.{ShufflesAreShown, ShufflesSayTheSame, SideBySide};
ghost use Rattle.ks_parallel.specs.Stamping.{StampOrdersLeaveTheSame, StampersAreApart, StampersSideBySide, StampsStay};
ghost use Rattle.ks_parallel.specs.Views.{AllPlacesAreSeen, ViewsShow};

/// What a record comes to is decided by its dependency file, auto.conf and the prerequisites. It writes its command file and
/// that one's temporary file, and nothing else; or these, the dependency file and its temporary file, and stamps that are missing,
/// where the build goes by dependency files.
pub fn records_have_their_paths()
    ensures reads { RecordsGoByWhatTheyRead }
    ensures writes { RecordsWriteTwoPaths }
    ensures depfiles { DepfilesWriteTheirPaths }
{}

/// To a process its view is a tree that nobody else writes: its own calls find and leave there what they do among the calls of
/// all, and the view shows the history, but for the records of the others' targets.
pub fn views_are_honest()
    ensures calls { ViewsAreHonest }
    ensures places { AllPlacesAreSeen }
    ensures histories { ViewsShow }
{}

/// Calls of processes that keep apart find and leave the same in any order.
pub fn orders_leave_the_same()
    ensures { OrdersLeaveTheSame }
{}

/// Where each process alone would record what it records, all together leave files that show each shuffle of their records, and
/// each shuffle says the same of each object.
pub fn shuffles_are_shown()
    ensures shown { ShufflesAreShown }
    ensures same { ShufflesSayTheSame }
    ensures side_by_side { SideBySide }
{}

/// The same of processes that make missing stamps too, as `record_depfile` does. Several may make one stamp, and none uses it.
pub fn stampers_keep_apart()
    ensures apart { StampersAreApart }
    ensures orders { StampOrdersLeaveTheSame }
    ensures stamps { StampsStay }
    ensures side_by_side { StampersSideBySide }
{}

/// The same of whole runs of `record` and `depfile`: where each of them alone would leave what its contract says, done, refused or
/// given up, the files show each shuffle of the records after each history that they showed.
pub fn runs_side_by_side()
    ensures { RunsSideBySide }
{}
