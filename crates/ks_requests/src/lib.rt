//! What the program `confstamp` is asked, and how it answers: requests, scripts, the files that arguments name, and the texts
//! of answers and refusals, over any tree of files and any two writers. What a request does is for the crate above.
#![tactic(auto)]

mod faults;
mod inputs;
mod json_lines;
mod laws;
mod name_list;
mod output;
mod preview;
mod reading;
mod refusal;
mod replies;
mod report_style;
mod request;
mod script;
mod script_error;
mod sites;
mod status;
mod symbols;
mod targets;
mod unknown;

pub use inputs::{
    Inputs, Texts, borrowed, borrowed_path, config_at, inputs_at, read_given, texts_at,
};
pub use json_lines::write_json_answer;
pub use laws::{json_lines_are_objects, script_examples, script_lines_are_spelled};
pub use name_list::names_in;
pub use output::{print, refuse, refuse_at};
pub use preview::{PreviewError, preview_to};
pub use reading::Reading;
pub use refusal::Refusal;
pub use replies::{
    build_status, report_depfile, report_marked, report_recorded, report_repair, report_replies,
    report_sync, write_answer, write_build_line, write_count, write_refused_target,
};
pub use report_style::ReportStyle;
pub use request::{
    ConfigPaths, DepfileAfter, ElsewherePaths, KeptPaths, OutputFormat, RecordWords, Request,
    Stamps, StrictPaths, Targets,
};
pub use script::{ScriptLine, read_script, script_syncs};
pub use script_error::ScriptError;
pub use sites::{Part, Site, site_of};
pub use status::{Count, Outcome, Status, stale_of, worse};
pub use symbols::{symbols_of, write_cost, write_unrecorded, write_use};
pub use targets::{all_targets, each_once, listed_targets, read_targets};
pub use unknown::unknown_lines;
