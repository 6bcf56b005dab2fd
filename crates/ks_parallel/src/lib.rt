//! Records of several processes at once: what each of them sees, and what they leave together.
#![tactic(auto)]

mod laws;

pub use laws::{
    orders_leave_the_same, records_have_their_paths, runs_side_by_side, shuffles_are_shown,
    stampers_keep_apart, views_are_honest,
};
