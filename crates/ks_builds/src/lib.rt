//! The laws of builds: what other programs may do to a tree between two runs of the program, and what a make leaves that it
//! doesn't compile. A tree in which only the program writes is no build: compilers, editors and `make clean` write between its
//! runs. It leaves out make itself, which is a premise here, and file times.
#![tactic(auto)]

mod laws;

pub use laws::{
    builds_are_right, foreign_writes_are_shown, never_touched_is_the_same, stories_are_shown,
    what_is_not_backdated_is_safe, what_is_not_marked_is_safe,
};
