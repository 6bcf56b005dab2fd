//! The program `confstamp` over any tree of files and any two writers: what its arguments ask for is done, or it is said why
//! they ask for nothing; and what follows for any list of runs. It knows no directory, no lock and no streams of the system: those
//! are for the crate `confstamp`. How it is asked and answered is defined in ks_requests, and what arguments mean in ks_cli.
#![tactic(auto)]

mod asked_symbols;
mod batch;
mod changes;
mod cost;
mod differences;
mod dispatch;
mod fixdep;
mod laws;
mod looking;
mod marks;
mod program;
mod queries;
mod readings;
mod repairs;
mod spelling;
mod tree_status;
mod users;

pub use laws::{
    batch_reports_changes, previews_are_performed, previews_report_synchronisations,
    refusals_change_nothing, statuses_are_at_most_two, statuses_report_differences,
    statuses_tell_synchronisations, what_changed_is_backdated,
};
pub use program::execute;
