//! The tests of ks_engine: histories of synchronisations, records and questions over a tree in memory and over one whose calls fail,
//! each with what is answered and what the files then hold. They are a crate of their own since a crate that has tests is proved
//! once more for them. Nothing stands on it, and without its tests it is empty.
#![tactic(auto)]

#[cfg(test)]
mod broken_off;
#[cfg(test)]
mod examples;
#[cfg(test)]
mod explained;
#[cfg(test)]
mod golden;
#[cfg(test)]
mod predicted;
#[cfg(test)]
mod steps;
#[cfg(test)]
mod texts;
