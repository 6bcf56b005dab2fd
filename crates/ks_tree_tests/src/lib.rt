//! The tests of ks_tree and ks_system: what each kind of tree does by worked examples, calls that are broken off, what a tree answers
//! over a disk whose calls are short, interrupted or fail, and what no contract says of a directory, since no proof sees a disk. They
//! are a crate of their own since a crate that has tests is proved once more for them. Nothing stands on it, and without its tests
//! it is empty.
#![tactic(auto)]

#[cfg(test)]
mod broken_off;
#[cfg(test)]
mod directory;
#[cfg(test)]
mod memory;
#[cfg(test)]
mod paths;
#[cfg(test)]
mod scripts;
#[cfg(test)]
mod steps;
