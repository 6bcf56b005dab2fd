//! Which names changed between an old auto.conf and new settings: these, and no others.
#![tactic(auto)]

mod bases;
mod comparison;
mod laws;

pub use comparison::changed;
pub use laws::{changes_are_legal, changes_are_one, first_changes_are_names, unchanged_is_kept};
