//! Synchronising a tree, recording its objects, and the question which of them are stale.
#![tactic(auto)]

mod all_stamps;
mod backdating;
mod caches;
mod commands;
mod conventions;
mod costs;
mod depfile;
mod error;
mod explaining;
mod impact;
mod last_sync;
mod laws;
mod marking;
mod planning;
mod query;
mod recording;
mod repairing;
mod sources;
mod staleness;
mod synchronise;

pub use all_stamps::sync_all_stamps;
pub use backdating::{BackdateScope, backdate_if_stale};
pub use caches::Cache;
pub use commands::{Command, Reply, run};
pub use conventions::{Conventions, Elsewhere, RecordOptions};
pub use costs::{Cost, Costs, borrow_record, read_record};
pub use depfile::record_depfile;
pub use error::EngineError;
pub use explaining::{Cause, Explanation, explain, query_object};
pub use impact::Impact;
pub use last_sync::read_old;
pub use laws::{
    beginnings_are_shown, file_runs_go_on, made_stamps_show, other_records_do_not_matter,
    places_are_first, plans_are_one, suspicions_have_causes,
};
pub use marking::mark_due;
pub use planning::{
    ConfigForm, ConfigInputs, ConfigTexts, Parsed, Planned, parse_config_inputs, plan,
    plan_config_inputs, read_inputs,
};
pub use query::{Limit, Query};
pub use recording::{Recorded, check_args, record_object, record_object_with};
pub use repairing::{Kept, Repaired, repair};
pub use sources::scan_all;
pub use staleness::{BuildState, Verdict, outdated, stale};
pub use synchronise::{Report, sync};
